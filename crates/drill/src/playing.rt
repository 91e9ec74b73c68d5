// A script, line by line, and what each command does.
use crate::MOST;
use crate::cabs::{Buffer, Cab, CabName, Sent, Shift};
use crate::commands::{Command, Hearing, Line};
use crate::complaints::{Complaint, Fault};
use crate::machines::Machine;
use crate::telling::{Step, Turn};
use crate::words::Words;
use call::{Action, Event, Input, Timer};
use frame::Refusal;
use std::io;

// What the bytes of a lent buffer are ahead of a step: no byte of a line.
const UNTOUCHED: u8 = b'.';

// The line of these digits, with its line end or without it, at the front of a room that holds more than a command has.
// A fixed room, no Vec: so the program takes no heap, and none can be wanting.
fn line_in<'a>(room: &'a mut [u8; MOST], digits: &[u8], ended: bool) -> &'a [u8] {
    let count = digits.len().min(MOST - 1);
    room[..count].copy_from_slice(&digits[..count]);
    room[count] = b'\n';
    &room[..count + usize::from(ended)]
}

impl Shift {
    // Plays every line of a script.
    pub(crate) fn play(&mut self, rt: &impl Print, script: &[u8]) -> io::Result<()> {
        for (command, line) in (1..).zip(script.split(|byte| *byte == b'\n')) {
            match self.read(line) {
                Ok(Some((cab, asked))) => self.obey(rt, Turn { command, cab }, asked)?,
                Ok(None) => {}
                Err(fault) => println!(rt; "! line {command}, {fault}")?,
            }
        }
        Ok(())
    }

    // The cab that a line names, and what it asks for; nothing where the line has no words.
    fn read<'a>(&self, line: &'a [u8]) -> Result<Option<(CabName, Command<'a>)>, Fault> {
        let mut words = Words::of(line);
        let Some(first) = words.next() else {
            return Ok(None);
        };
        let cab = CabName::read(first.text).ok_or(first.fault(Complaint::Cab))?;
        let command = Command::read(words, self, self.cab(cab))?;
        Ok(Some((cab, command)))
    }

    // Does what a command asks for.
    fn obey(&mut self, rt: &impl Print, turn: Turn, command: Command) -> io::Result<()> {
        let cab = self.cab_mut(turn.cab);
        match command {
            Command::Settings(settings) => cab.settings = settings,
            Command::Buffer(buffer) => cab.buffer = buffer,
            Command::PrivateRecord(record) => cab.private = record,
            Command::GroupRecord(record) => cab.group = record,
            Command::Happens(input) => cab.take_steps(rt, turn, input)?,
            Command::Hears(line, hearing) => self.hear(rt, turn, line, hearing)?,
            Command::Chooses(first, second) => self.choose(rt, turn, first, second)?,
        }
        Ok(())
    }

    // The digits of a line, without its line end.
    fn digits_of<'a>(&'a self, line: Line<'a>) -> &'a [u8] {
        match line {
            Line::Digits(digits) => digits,
            Line::SentLastBy(name) => match &self.cab(name).sent {
                Some(sent) => sent.digits(),
                None => &[],
            },
        }
    }

    // Has both machines of a cab take a step on a line, unless the reader refuses it.
    // No part of what calls it, as `choose`: only who hears lines has the stack for them.
    #[inline(never)]
    fn hear(
        &mut self,
        rt: &impl Print,
        turn: Turn,
        line: Line,
        hearing: Hearing,
    ) -> io::Result<()> {
        let mut room = [0u8; MOST];
        let heard = line_in(&mut room, self.digits_of(line), hearing.ended);
        match reader::read_line(heard) {
            Ok(frame) => {
                let input = Input {
                    event: Event::Message(frame.message),
                    media: frame.media,
                    verdicts: hearing.verdicts,
                };
                self.cab_mut(turn.cab).take_steps(rt, turn, input)
            }
            Err(refusal) => {
                let number = refusal as u8;
                println!(rt; "{turn} reader {number} - - - - - - - - - -")
            }
        }
    }

    // Has the chooser choose between two lines.
    #[inline(never)]
    fn choose(&self, rt: &impl Print, turn: Turn, first: Line, second: Line) -> io::Result<()> {
        let (mut room, mut other_room) = ([0u8; MOST], [0u8; MOST]);
        let one = line_in(&mut room, self.digits_of(first), true);
        let other = line_in(&mut other_room, self.digits_of(second), true);
        let number = Refusal::number_of(&chooser::choose_number(one, other));
        let better = chooser::choose(one, other);
        let call = unended(better).unwrap_or("-");
        println!(rt; "{turn} chooser {number} - - - - - - - {call} - -")
    }
}

impl Cab {
    // Has the machine that an input is for take a step, and both on a message: the second is told also where the first
    // could not be.
    fn take_steps(&mut self, rt: &impl Print, turn: Turn, input: Input) -> io::Result<()> {
        match input.event {
            Event::Action(Action::Private(_)) | Event::Expiry(Timer::Private(_)) => {
                self.take_step(rt, turn, Machine::Private, input)
            }
            Event::Action(Action::Group(_)) | Event::Expiry(Timer::Group(_)) => {
                self.take_step(rt, turn, Machine::Group, input)
            }
            Event::Message(_) => {
                let told = self.take_step(rt, turn, Machine::Private, input);
                self.take_step(rt, turn, Machine::Group, input).and(told)
            }
        }
    }

    // Has a machine take a step, tells it, and keeps what comes of it.
    fn take_step(
        &mut self,
        rt: &impl Print,
        turn: Turn,
        machine: Machine,
        input: Input,
    ) -> io::Result<()> {
        let stored = self.record(machine);
        let mut room = [UNTOUCHED; Buffer::ROOM];
        let lent = &mut room[..usize::from(self.buffer.length).min(Buffer::ROOM)];
        let (number, done) = stored.step(self.settings, input, lent);
        let sent = lent.get(..done.length).and_then(unended);
        let untouched = lent
            .iter()
            .rev()
            .take_while(|byte| **byte == UNTOUCHED)
            .count();
        let step = Step {
            turn,
            stored,
            number,
            done,
            sent,
            untouched,
        };
        println!(rt; "{step}")?;
        self.keep(done.next);
        if sent.is_some() {
            self.sent = Some(Sent { lent: room });
        }
        Ok(())
    }
}

// The digits of a line without its line end; none where it has no line end, as where there is no line.
fn unended(line: &[u8]) -> Option<&str> {
    str::from_utf8(line.strip_suffix(b"\n")?).ok()
}
