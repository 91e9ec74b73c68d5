// The values that names are given, each read from a word.
ghost use Rattle.std.specs.Prelude.{◌≤◌};

use crate::cabs::Buffer;
use frame::Media;

// A kind of value.
pub(crate) trait Value: Copy {
    // The value that a word stands for; none where it stands for no value of this kind.
    fn read(word: &[u8]) -> Option<Self>;
}

// Yes or no.
impl Value for bool {
    fn read(word: &[u8]) -> Option<bool> {
        match word {
            b"yes" => Some(true),
            b"no" => Some(false),
            _ => None,
        }
    }
}

// A number in decimal, or in hexadecimal behind `0x`.
impl Value for u32 {
    fn read(word: &[u8]) -> Option<u32> {
        match word.strip_prefix(b"0x") {
            Some(digits) => number_in(digits, 16),
            None => number_in(word, 10),
        }
    }
}

// A number of 16 bits.
impl Value for u16 {
    fn read(word: &[u8]) -> Option<u16> {
        u16::try_from(u32::read(word)?).ok()
    }
}

// A number of 8 bits.
// Said as of 16 bits: an impl over all types that a u32 may become would take the other kinds of value too.
impl Value for u8 {
    fn read(word: &[u8]) -> Option<u8> {
        u8::try_from(u32::read(word)?).ok()
    }
}

// A length that a cab can lend.
impl Value for Buffer {
    fn read(word: &[u8]) -> Option<Buffer> {
        let length = u8::read(word)?;
        (length <= Buffer::MOST).then_some(Buffer { length })
    }
}

// Media, by their number.
impl Value for Media {
    fn read(word: &[u8]) -> Option<Media> {
        let number = u32::read(word)?;
        Some(Media { number })
    }
}

// A state of the private machine.
impl Value for private_record::states::State {
    fn read(word: &[u8]) -> Option<private_record::states::State> {
        match word {
            b"P0" => Some(private_record::states::State::P0),
            b"P1" => Some(private_record::states::State::P1),
            b"P2" => Some(private_record::states::State::P2),
            b"P3" => Some(private_record::states::State::P3),
            b"P4" => Some(private_record::states::State::P4),
            b"P5" => Some(private_record::states::State::P5),
            _ => None,
        }
    }
}

// A state of the group machine.
impl Value for group_record::states::State {
    fn read(word: &[u8]) -> Option<group_record::states::State> {
        match word {
            b"S1" => Some(group_record::states::State::S1),
            b"S3" => Some(group_record::states::State::S3),
            b"S4" => Some(group_record::states::State::S4),
            b"S5" => Some(group_record::states::State::S5),
            _ => None,
        }
    }
}

// The number that digits make, small or capital; none where one is no digit of the base, where there are none, or
// where the number is too large.
fn number_in(digits: &[u8], base: u32) -> Option<u32>
    requires two_le_base { 2 ≤ base }
    requires base_le_most { base ≤ 36 }
{
    if digits.is_empty() {
        return None;
    }
    let mut number = 0u32;
    for digit in digits {
        let value = char::from(*digit).to_digit(base)?;
        number = number.checked_mul(base)?.checked_add(value)?;
    }
    Some(number)
}
