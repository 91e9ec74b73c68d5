// Digits told apart by a table of all 256 bytes.
ghost use Rattle.std.specs.Prelude.{◌≡◌, ◌%◌, length};
ghost use Rattle.frame.specs.Digits.{all_digits};
ghost use Rattle.reader.specs.Table.{entry_of, Entries};

use crate::digits::is_digit;

// What each byte stands for as a digit, and 16 more where it is none; sixteen bytes in a row, so `0` begins the fourth.
static ENTRIES: [u8; 256] = *b"\
    \x10\x11\x12\x13\x14\x15\x16\x17\x18\x19\x1a\x1b\x1c\x1d\x1e\x1f\
    \x10\x11\x12\x13\x14\x15\x16\x17\x18\x19\x1a\x1b\x1c\x1d\x1e\x1f\
    \x10\x11\x12\x13\x14\x15\x16\x17\x18\x19\x1a\x1b\x1c\x1d\x1e\x1f\
    \x00\x01\x02\x03\x04\x05\x06\x07\x08\x09\x13\x14\x15\x16\x17\x18\
    \x19\x1a\x1b\x1c\x1d\x1e\x1f\x10\x11\x12\x13\x14\x15\x16\x17\x18\
    \x19\x1a\x1b\x1c\x1d\x1e\x1f\x10\x11\x12\x13\x14\x15\x16\x17\x18\
    \x19\x0a\x0b\x0c\x0d\x0e\x0f\x10\x11\x12\x13\x14\x15\x16\x17\x18\
    \x19\x1a\x1b\x1c\x1d\x1e\x1f\x10\x11\x12\x13\x14\x15\x16\x17\x18\
    \x19\x1a\x1b\x1c\x1d\x1e\x1f\x10\x11\x12\x13\x14\x15\x16\x17\x18\
    \x19\x1a\x1b\x1c\x1d\x1e\x1f\x10\x11\x12\x13\x14\x15\x16\x17\x18\
    \x19\x1a\x1b\x1c\x1d\x1e\x1f\x10\x11\x12\x13\x14\x15\x16\x17\x18\
    \x19\x1a\x1b\x1c\x1d\x1e\x1f\x10\x11\x12\x13\x14\x15\x16\x17\x18\
    \x19\x1a\x1b\x1c\x1d\x1e\x1f\x10\x11\x12\x13\x14\x15\x16\x17\x18\
    \x19\x1a\x1b\x1c\x1d\x1e\x1f\x10\x11\x12\x13\x14\x15\x16\x17\x18\
    \x19\x1a\x1b\x1c\x1d\x1e\x1f\x10\x11\x12\x13\x14\x15\x16\x17\x18\
    \x19\x1a\x1b\x1c\x1d\x1e\x1f\x10\x11\x12\x13\x14\x15\x16\x17\x18";

// A table by which digits are told: it has the rule.
#[derive(Clone, Copy)]
struct Table<'a> {
    entries: &'a [u8; 256],
    ghost ruled: { Entries entries.now },
}

// Whether each byte is a digit, told by comparing.
fn few_digits(bytes: &[u8]) -> bool
    ensures { result ≡ all_digits bytes.now }
{
    bytes.iter().all(|x| is_digit(*x))
}

// Whether each byte is a digit: the few ahead that fill no eight are compared, then eight at a time are looked up.
pub(crate) fn all_digits(bytes: &[u8]) -> bool
    ensures { result ≡ all_digits bytes.now }
{
    let table = Table::new(&ENTRIES);
    let (few, eights) = bytes.split_at(bytes.len() % 8);
    few_digits(few) && table.eights_of_digits(eights)
}

impl<'a> Table<'a> {
    // The table of these entries.
    fn new(entries: &'a [u8; 256]) -> Table<'a>
        requires { Entries entries.now }
    {
        Table { entries }
    }

    // What the table has for a byte.
    fn entry_of(&self, x: u8) -> u8
        ensures { result ≡ entry_of x }
    {
        self.entries[x as usize]
    }

    // Whether each byte of a run is a digit: joined, their entries have no bit from 16 on.
    fn run_of_digits(&self, run: &[u8]) -> bool
        ensures { result ≡ all_digits run.now }
    {
        let joined = run.iter().fold(0, |joined, x| joined | self.entry_of(*x));
        joined < 16
    }

    // The same of bytes that fill eights, eight at a time.
    fn eights_of_digits(&self, eights: &[u8]) -> bool
        requires { length eights.now % 8 ≡ 0 }
        ensures { result ≡ all_digits eights.now }
    {
        for eight in eights.chunks_exact(8) {
            if !self.run_of_digits(eight) {
                return false;
            }
        }
        true
    }
}
