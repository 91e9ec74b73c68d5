// The program that plays a script of two cabs through the machines, step by step: docs/DRILL.md has its language.
#![tactic(auto)]

ghost use Rattle.std.specs.Prelude.{◌≤◌, IfOk};

mod cabs;
mod commands;
mod complaints;
mod machines;
mod names;
mod outcome;
mod playing;
mod telling;
mod values;
mod words;

use cabs::Shift;
use std::io;
use std::io::Read;

// How many bytes of a script are read at most.
const MOST: usize = 65_536;

// Reads standard input to its first end, or as far as there is room; how many bytes came. A read that fails is told.
// A fixed room, no Vec, and a count: so the program takes no heap, and none can be wanting. Lines reads its log so: a
// crate for both would be longer than the lines that it saves.
fn read_full(input: &mut impl Read, room: &mut [u8; MOST]) -> io::Result<usize>
    ensures { IfOk result (λ length. length ≤ 65536) }
{
    let mut length = 0;
    for _ in 0..MOST {
        let got = input.read(&mut room[length..])?;
        if got == 0 {
            break;
        }
        length += got;
    }
    Ok(length)
}

// A script, and whether it was cut: whether more came behind the most that is read of it.
#[derive(Clone, Copy)]
struct Script<'a> {
    text: &'a [u8],
    cut: bool,
}

impl<'a> Script<'a> {
    // Reads standard input into a room for a script; only where that is full is it asked whether more comes: at a
    // terminal an earlier end would have to be typed twice.
    fn read(rt: &HostRuntime, room: &'a mut [u8; MOST]) -> io::Result<Script<'a>> {
        let length = read_full(&mut rt.stdin(), room)?;
        let cut = length >= MOST && rt.stdin().read(&mut [0u8; 1])? > 0;
        Ok(Script {
            text: &room[..length],
            cut,
        })
    }

    // The lines that are played: of a script that was cut not the piece that the cut left unended.
    fn played(&self) -> &[u8] {
        if !self.cut {
            return self.text;
        }
        match self.text.iter().rposition(|byte| *byte == b'\n') {
            Some(end) => &self.text[..end],
            None => &[],
        }
    }

    // Plays it and tells how it ends.
    fn play(&self, rt: &impl Print) -> io::Result<()> {
        println!(rt;
            "# command cab machine number row before after stopped started running counters call sent untouched"
        )?;
        let mut shift = Shift::begun();
        shift.play(rt, self.played())?;
        if self.cut {
            println!(rt;
                "! the script has more than 65536 bytes: only the lines that end within them were played"
            )?;
        }
        shift.tell_outcome(rt)
    }
}

// Plays the script from standard input. Where it cannot be read to its end, or to where it is cut, nothing is played.
// Where standard error fails there is nobody to tell.
fn main(rt: HostRuntime) {
    let mut room = [0u8; MOST];
    let Ok(script) = Script::read(&rt, &mut room) else {
        let _ = eprintln!(rt; "drill: standard input could not be read");
        return;
    };
    if script.play(&rt).is_err() {
        let _ = eprintln!(rt; "drill: the answer could not be written");
    }
}
