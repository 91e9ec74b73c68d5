// Entries for C that play the steps which the bytes of a script name, so that a host can measure a step of either
// machine. Each is the function of its name in pace, with the same clauses.
// Said twice, since no crate can stand on an archive for C, and theorems speak of the library's.
#![tactic(auto)]

ghost use Rattle.std.specs.Prelude.{◌≡◌};
ghost use Rattle.pace.specs.Played.{private_play, group_play, rows_met, buffer_after};

// How many steps of a script meet a row of the private machine, from its cleared record on; each step writes its line
// at the front of the same lent buffer.
#[unsafe(no_mangle)]
pub extern "C" fn pace_private_steps(script: &[u8], out: &mut [u8]) -> usize
    ensures value { result ≡ rows_met private_play out.old script.now }
    ensures out_after { out.new ≡ buffer_after private_play out.old script.now }
{
    pace::pace_private_steps(script, out)
}

// The same of the group machine.
#[unsafe(no_mangle)]
pub extern "C" fn pace_group_steps(script: &[u8], out: &mut [u8]) -> usize
    ensures value { result ≡ rows_met group_play out.old script.now }
    ensures out_after { out.new ≡ buffer_after group_play out.old script.now }
{
    pace::pace_group_steps(script, out)
}
