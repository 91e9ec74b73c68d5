// A line of digits: what has passed the tests of a line but for the last, that of its fields.
ghost use Rattle.std.specs.Prelude.{◌≡◌, ◌+◌, length, cond, MatchResult};
ghost use Rattle.frame.specs.Kind.{kind_number};
ghost use Rattle.frame.specs.Layout.{digits_of};
ghost use Rattle.frame.specs.Refusal.{refusal_number};
ghost use Rattle.reader.specs.Line.{kind_at, Digital, unranged, line_number};

use crate::digits::one_at;
use crate::table::all_digits;
use frame::{Kind, Refusal};

// A line that has digits ahead of its last byte, as many as its kind has.
#[derive(Clone, Copy)]
pub(crate) struct DigitLine<'a> {
    pub(crate) bytes: &'a [u8],
    pub(crate) kind: Kind,
    ghost named: { kind_number kind ≡ kind_at bytes.now },
    ghost long: { length bytes.now ≡ digits_of (kind_number kind) + 1 },
    ghost digital: { Digital bytes.now },
}

impl<'a> DigitLine<'a> {
    // The line that has these bytes; where they are none, the first of the refusals 1 to 4 that is given.
    #[tactic(auto, unfolding(crate::specs::Line::refusal_of))]
    #[inline(always)]
    pub(crate) fn new(bytes: &'a [u8]) -> Result<DigitLine<'a>, Refusal>
        ensures { MatchResult result (λ line. (line.bytes.now ≡ bytes.now) × (line_number bytes.now ≡ cond (unranged bytes.now) 5 0)) (λ refusal. line_number bytes.now ≡ refusal_number refusal) }
    {
        let Some((&0x0a, digits)) = bytes.split_last() else {
            return Err(Refusal::NotEnded);
        };
        if !all_digits(digits) {
            return Err(Refusal::NotDigits);
        }
        if digits.len() < 2 {
            return Err(Refusal::NoKind);
        }
        let kind = Kind::try_from(one_at(bytes, 0))?;
        if digits.len() != kind.digits() {
            return Err(Refusal::WrongLength);
        }
        Ok(DigitLine { bytes, kind })
    }
}
