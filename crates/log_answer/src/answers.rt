// The answers to the lines of a log, one after the other.
ghost use Rattle.std.specs.Prelude.{◌≡◌, ◌≤◌, leb, length};
ghost use Rattle.writer.specs.Lent.{at_front};
ghost use Rattle.log_answer.specs.Answer.{answer_to, answer_of};

use crate::lines::Lines;
use frame::Refusal;

// How long the answer to a line is.
#[tactic(auto, unfolding(crate::specs::Answer::answer_to))]
fn answer_length(line: &[u8]) -> usize
    ensures { result ≡ length (answer_to line.now) }
{
    match reader::check_line(line) {
        Ok(()) => line.len(),
        Err(_) => 3,
    }
}

// Writes the answer to a line at the front of out, and tells its length.
#[tactic(auto, unfolding(crate::specs::Answer::answer_to))]
fn answer_line(line: &[u8], out: &mut [u8]) -> usize
    requires { length (answer_to line.now) ≤ length out.old }
    ensures value { result ≡ length (answer_to line.now) }
    ensures out_after { out.new ≡ at_front (answer_to line.now) out.old }
{
    let number = Refusal::number_of(&reader::check_line(line));
    if number == 0 {
        out[..line.len()].copy_from_slice(line);
        return line.len();
    }
    let refusal = [b'!', b'0' + number, b'\n'];
    out[..3].copy_from_slice(&refusal);
    3
}

// Whether room bytes hold the answer to a log; three times the log's length always does.
pub(crate) fn has_room(log: &[u8], room: usize) -> bool
    ensures { result ≡ leb (length (answer_of log.now)) room }
{
    if log.len() <= room / 3 {
        return true;
    }
    let mut left = room;
    for line in Lines(log) {
        let Some(rest) = left.checked_sub(answer_length(line)) else {
            return false;
        };
        left = rest;
    }
    true
}

// Writes the answer to a log at the front of out, and tells its length.
pub(crate) fn put_answers(log: &[u8], out: &mut [u8]) -> usize
    requires { length (answer_of log.now) ≤ length out.old }
    ensures value { result ≡ length (answer_of log.now) }
    ensures out_after { out.new ≡ at_front (answer_of log.now) out.old }
{
    let mut written = 0;
    for line in Lines(log) {
        written += answer_line(line, &mut out[written..]);
    }
    written
}
