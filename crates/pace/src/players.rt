// The two machines as players of a script.
ghost use Rattle.std.specs.Prelude.{◌≡◌, ◌<◌, length, slice_index_or};
ghost use Rattle.pace.specs.Script.{meets_row};
ghost use Rattle.pace.specs.Played.{Play, private_play, group_play};

use crate::happenings::{CREW, group_input, private_input};
use group_record::states::GroupRecord;
use private_record::states::PrivateRecord;

// What a machine stores, by which it plays.
pub(crate) trait Player: Copy {
    // How it plays.
    ghost play: { Play Self };

    // What it stores at first.
    fn first() -> Self
        ensures { result ≡ play.first };

    // Takes the step that the byte at a place of a script names, with a lent buffer, and stores what comes of it:
    // whether that meets a row.
    fn step(&mut self, script: &[u8], at: usize, out: &mut [u8]) -> bool
        requires { at < length script.now }
        ensures meets { result ≡ meets_row (play.row self.old (slice_index_or script.now at 0) out.old) }
        ensures next { self.new ≡ play.next self.old (slice_index_or script.now at 0) out.old }
        ensures out_after { out.new ≡ play.buffer self.old (slice_index_or script.now at 0) out.old };
}

impl Player for PrivateRecord {
    ghost play = { private_play };

    // The cleared record.
    fn first() -> PrivateRecord {
        PrivateRecord::cleared()
    }

    // A step of the private machine.
    fn step(&mut self, script: &[u8], at: usize, out: &mut [u8]) -> bool {
        let Ok(stepped) = private_call::step(CREW, *self, private_input(script[at]), out) else {
            return false;
        };
        *self = stepped.next;
        stepped.row.is_some()
    }
}

impl Player for GroupRecord {
    ghost play = { group_play };

    // The cleared record.
    fn first() -> GroupRecord {
        GroupRecord::cleared()
    }

    // A step of the group machine.
    fn step(&mut self, script: &[u8], at: usize, out: &mut [u8]) -> bool {
        let Ok(stepped) = group_call::step(CREW, *self, group_input(script[at]), out) else {
            return false;
        };
        *self = stepped.next;
        stepped.row.is_some()
    }
}
