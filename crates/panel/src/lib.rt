// The entries for the panel shell in C: numbers and byte slices, and nothing else. The crate panel_c exports them, and
// host/include/panel.h declares them.
// Numbers in place of Options and Results: C is told them.
#![tactic(auto)]

ghost use Rattle.std.specs.Prelude.{◌≡◌};
ghost use Rattle.reader.specs.Line.{line_number};
ghost use Rattle.chooser.specs.Choice.{choice_of, choice_number};

use frame::Refusal;

// The number of a line: 0 where it is readable, else the first of 1 to 5 that is given.
pub fn panel_line_check(line: &[u8]) -> u32
    ensures { result ≡ line_number line.now }
{
    Refusal::number_of(&reader::check_line(line)) as u32
}

// Which of two announcement lines is chosen: 1 the first, 2 the second, 0 neither, which is a refusal.
pub fn panel_choose(first: &[u8], second: &[u8]) -> u32
    ensures { result ≡ choice_of first.now second.now }
{
    match chooser::choice(first, second) {
        Some(chosen) => chosen as u32,
        None => 0,
    }
}

// The number of that question: 0 where a line is chosen, else that of the first line, of the second, or 10.
pub fn panel_choose_number(first: &[u8], second: &[u8]) -> u32
    ensures { result ≡ choice_number first.now second.now }
{
    Refusal::number_of(&chooser::choose_number(first, second)) as u32
}
