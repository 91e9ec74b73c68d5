// The answer to a log of lines.
#![tactic(auto)]

mod answers;
mod lines;

ghost use Rattle.std.specs.Prelude.{◌≡◌};
ghost use Rattle.writer.specs.Lent.{told_by};
ghost use Rattle.log_lines.specs.Lines.{CutPlace};
ghost use Rattle.log_answer.specs.Answer.{answer_told, answer_buffer};

use frame::Refusal;

// The answer to a log at the front of a lent buffer, and its length: each readable line, and for any other `!`, its
// number and a line end; 6 where there is no room.
// A lent buffer and a length, no Vec, as in the writer.
#[tactic(auto, unfolding(crate::specs::Answer::answer_number, crate::specs::Answer::answer_told, crate::specs::Answer::answer_buffer))]
pub fn answer_log(log: &[u8], out: &mut [u8]) -> Result<usize, Refusal>
    ensures value { told_by result ≡ answer_told log.now out.old }
    ensures out_after { out.new ≡ answer_buffer log.now out.old }
    ensures cut_place { CutPlace (told_by result).length out.new }
{
    if !answers::has_room(log, out.len()) {
        return Err(Refusal::NoRoom);
    }
    Ok(answers::put_answers(log, out))
}
