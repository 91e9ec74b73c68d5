// The entries for the panel shell in C: numbers and byte slices, and nothing else. Declared in host/include/panel.h.
// Each is the function of its name in panel, with the same clauses.
// Said twice, since no crate can stand on an archive for C, and theorems speak of the library's.
#![tactic(auto)]

ghost use Rattle.std.specs.Prelude.{◌≡◌};
ghost use Rattle.reader.specs.Line.{line_number};
ghost use Rattle.chooser.specs.Choice.{choice_of, choice_number};

// The number of a line: 0 where it is readable, else the first of 1 to 5 that is given.
#[unsafe(no_mangle)]
pub extern "C" fn panel_line_check(line: &[u8]) -> u32
    ensures { result ≡ line_number line.now }
{
    panel::panel_line_check(line)
}

// Which of two announcement lines is chosen: 1 the first, 2 the second, 0 neither, which is a refusal.
#[unsafe(no_mangle)]
pub extern "C" fn panel_choose(first: &[u8], second: &[u8]) -> u32
    ensures { result ≡ choice_of first.now second.now }
{
    panel::panel_choose(first, second)
}

// The number of that question: 0 where a line is chosen, else that of the first line, of the second, or 10.
#[unsafe(no_mangle)]
pub extern "C" fn panel_choose_number(first: &[u8], second: &[u8]) -> u32
    ensures { result ≡ choice_number first.now second.now }
{
    panel::panel_choose_number(first, second)
}
