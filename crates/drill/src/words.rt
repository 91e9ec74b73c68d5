// The words of a line, one behind the other, each with the place where it begins.
ghost use Rattle.std.specs.Prelude.{◌-◌, ◌≤◌, length};
ghost use Rattle.std.specs.Iterator.{at_most};

use crate::complaints::{Complaint, Fault};

// A word, and where in its line it begins.
#[derive(Clone, Copy)]
pub(crate) struct Word<'a> {
    pub(crate) text: &'a [u8],
    pub(crate) at: usize,
}

impl<'a> Word<'a> {
    // What is wrong with this word.
    pub(crate) fn fault(self, complaint: Complaint) -> Fault {
        Fault {
            complaint,
            at: self.at,
        }
    }
}

// The words of a line from a place on, up to a comment or the end of the line.
#[derive(Clone, Copy)]
pub(crate) struct Words<'a> {
    line: &'a [u8],
    at: usize,
    ghost within: { at ≤ length line.now },
}

impl<'a> Words<'a> {
    // All words of a line.
    pub(crate) fn of(line: &'a [u8]) -> Words<'a> {
        Words { line, at: 0 }
    }

    // The next word; the complaint, at the place where it is missing, if there is none.
    pub(crate) fn expect(&mut self, complaint: Complaint) -> Result<Word<'a>, Fault> {
        match self.next() {
            Some(word) => Ok(word),
            None => Err(Fault {
                complaint,
                at: self.at,
            }),
        }
    }
}

// Word by word. Behind the last it stands where a comment begins, or at the end of the line.
impl<'a> Iterator for Words<'a> {
    type Item = Word<'a>;

    ghost remaining = { λ s. at_most (length s.line.now - s.at) };

    fn next(&mut self) -> Option<Word<'a>> {
        let line = self.line;
        let from = find(line, self.at, |byte| !is_blank(byte));
        self.at = from;
        if from < line.len() && line[from] != b'#' {
            let to = find(line, from + 1, is_blank);
            self.at = to;
            return Some(Word {
                text: &line[from..to],
                at: from,
            });
        }
        None
    }
}

// Whether a byte stands between words.
fn is_blank(byte: u8) -> bool {
    matches!(byte, b' ' | b'\t' | b',' | b'\r')
}

// The first place, from this one on, whose byte is so; else the end of the text.
fn find<F: Fn(u8) -> bool>(text: &[u8], from: usize, is_so: F) -> usize
    requires from_le_length { from ≤ length text.now }
    requires callable { F.IsAlwaysCallable is_so }
    ensures from_le_result { from ≤ result }
    ensures result_le_length { result ≤ length text.now }
{
    let rest = &text[from..];
    from + rest
        .iter()
        .position(|byte| is_so(*byte))
        .unwrap_or(rest.len())
}
