// Entries that play the steps which the bytes of a script name, one after the other, so that a host can measure a step
// of either machine. The crate pace_c exports them to C.
// Bytes in place of events: C hands them over.
#![tactic(auto)]

mod happenings;
mod players;

ghost use Rattle.std.specs.Prelude.{◌≡◌};
ghost use Rattle.pace.specs.Played.{private_play, group_play, rows_met, buffer_after};

use crate::players::Player;
use group_record::states::GroupRecord;
use private_record::states::PrivateRecord;

// Plays a script from what the machine begins with, and tells how many steps meet a row; each step writes its line at
// the front of the same lent buffer.
fn play<P: Player>(script: &[u8], out: &mut [u8]) -> usize
    ensures value { result ≡ rows_met P.play out.old script.now }
    ensures out_after { out.new ≡ buffer_after P.play out.old script.now }
{
    let mut stored = P::first();
    let mut met = 0;
    for at in 0..script.len() {
        met += stored.step(script, at, out) as usize;
    }
    met
}

// How many steps of a script meet a row of the private machine, from its cleared record on; each step writes its line
// at the front of the same lent buffer.
pub fn pace_private_steps(script: &[u8], out: &mut [u8]) -> usize
    ensures value { result ≡ rows_met private_play out.old script.now }
    ensures out_after { out.new ≡ buffer_after private_play out.old script.now }
{
    play::<PrivateRecord>(script, out)
}

// The same of the group machine.
pub fn pace_group_steps(script: &[u8], out: &mut [u8]) -> usize
    ensures value { result ≡ rows_met group_play out.old script.now }
    ensures out_after { out.new ≡ buffer_after group_play out.old script.now }
{
    play::<GroupRecord>(script, out)
}
