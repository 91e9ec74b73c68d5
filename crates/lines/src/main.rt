// The program that answers a log: everything that matters is in `log_answer`.
#![tactic(auto)]

ghost use Rattle.std.specs.Prelude.{◌≤◌, IfOk};

use std::io;
use std::io::Read;

// How many bytes are answered at most.
const MOST: usize = 65_536;

// Room for the longest answer to as many bytes.
const ROOM: usize = 3 * MOST;

// Reads standard input to its first end, or as far as there is room; how many bytes came. A read that fails is told.
// A fixed room, no Vec, and a count: so the program takes no heap, and none can be wanting. Drill reads its script so:
// a crate for both would be longer than the lines that it saves.
fn read_full(input: &mut impl Read, room: &mut [u8; MOST]) -> io::Result<usize>
    ensures { IfOk result (λ length. length ≤ 65536) }
{
    let mut length = 0;
    for _ in 0..MOST {
        let got = input.read(&mut room[length..])?;
        if got == 0 {
            break;
        }
        length += got;
    }
    Ok(length)
}

// Reads a log into the room for one. Only where that is full is it asked whether more comes, and that is said: at a
// terminal an earlier end would have to be typed twice.
fn read_log<'a>(rt: &HostRuntime, room: &'a mut [u8; MOST]) -> io::Result<&'a [u8]> {
    let length = read_full(&mut rt.stdin(), room)?;
    if length >= MOST && rt.stdin().read(&mut [0u8; 1])? > 0 {
        let _ = eprintln!(rt; "lines: only the first 65536 bytes are answered");
    }
    Ok(&room[..length])
}

// Writes the answer to a log.
fn write_answer(rt: &impl Print, log: &[u8]) -> io::Result<()> {
    let mut out = [0u8; ROOM];
    let length = log_answer::answer_log(log, &mut out).unwrap_or(0);
    rt.write_all(&out[..length])
}

// Answers standard input. Where it cannot be read to its end, or to where it is cut, nothing is answered. Where
// standard error fails there is nobody to tell.
fn main(rt: HostRuntime) {
    let mut room = [0u8; MOST];
    let Ok(log) = read_log(&rt, &mut room) else {
        let _ = eprintln!(rt; "lines: standard input could not be read");
        return;
    };
    if write_answer(&rt, log).is_err() {
        let _ = eprintln!(rt; "lines: the answer could not be written");
    }
}
