// Entries for the host's own trials of what the panel shell does not call: the values that a line is read as, the line
// that values are written as, and the answer to a log. Each is the function of its name in trial, with the same
// clauses.
// Said twice, since no crate can stand on an archive for C, and theorems speak of the library's.
#![tactic(auto)]

ghost use Rattle.std.specs.Prelude.{◌≡◌, get_or};
ghost use Rattle.log_answer.specs.Answer.{answer_told, answer_buffer};
ghost use Rattle.trial.specs.Values.{line_values, values_number, values_buffer};

// One value of what a line reads as, in the order of the line: its kind at place 0, its identifier at 1, and so on; 0
// where there is none.
#[unsafe(no_mangle)]
pub extern "C" fn trial_value(line: &[u8], place: usize) -> u32
    ensures { result ≡ get_or (line_values line.now) place 0 }
{
    trial::trial_value(line, place)
}

// The line of the frame with these values, each behind the kind cut to the width of its field, at the front of a lent
// buffer, and its number: 3 where the first is no kind, 5 where one is outside its range, 6 where there is no room.
#[unsafe(no_mangle)]
pub extern "C" fn trial_write_line(values: &[u32], out: &mut [u8]) -> u32
    ensures value { result ≡ values_number values.now out.old }
    ensures out_after { out.new ≡ values_buffer values.now out.old }
{
    trial::trial_write_line(values, out)
}

// The answer to a log at the front of a lent buffer, and its length; where there is no room, 0.
#[unsafe(no_mangle)]
pub extern "C" fn trial_answer_log(log: &[u8], out: &mut [u8]) -> usize
    ensures value { result ≡ (answer_told log.now out.old).length }
    ensures out_after { out.new ≡ answer_buffer log.now out.old }
{
    trial::trial_answer_log(log, out)
}
