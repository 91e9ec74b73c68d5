// The writer of lines: the line of a frame at the front of a lent buffer.
#![tactic(auto)]

mod carried;
mod put;
mod store;

ghost use Rattle.std.specs.Prelude.{◌≡◌};
ghost use Rattle.frame.specs.Layout.{longest_line};
ghost use Rattle.writer.specs.Lent.{told_by};
ghost use Rattle.writer.specs.Writing.{written_of, buffer_of};

use frame::{Frame, Message, Refusal};

// The line of a frame at the front of a lent buffer, and its length: 5 where a field is outside its range, 6 where
// there is no room.
// A lent buffer and a length, no Vec: a panel has fixed memory and no heap.
pub fn write_line(frame: Frame, out: &mut [u8]) -> Result<usize, Refusal>
    ensures value { told_by result ≡ written_of frame.message frame.media out.old }
    ensures out_after { out.new ≡ buffer_of frame.message frame.media out.old }
    ensures longest { Message.LONGEST ≡ longest_line }
{
    if !frame.in_range() {
        return Err(Refusal::WrongField);
    }
    let count = frame.message.kind().digits();
    if out.len() <= count {
        return Err(Refusal::NoRoom);
    }
    store::put_frame(out, frame);
    out[count] = 0x0a;
    Ok(count + 1)
}
