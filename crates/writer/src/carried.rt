// Media in a buffer: all of the writer that knows what media is made of.
ghost use Rattle.std.specs.Prelude.{◌≡◌, ◌+◌, ◌≤◌, length};
ghost use Rattle.std.proofs.lemmas.List.Edits.{sets};
ghost use Rattle.frame.specs.Media.{media_hex};

use crate::put::put_four;
use frame::Media;

// Its digits, from place at on.
pub(crate) fn put_media(out: &mut [u8], at: usize, media: Media)
    requires { at + 8 ≤ length out.old }
    ensures { out.new ≡ sets out.old at (media_hex media) }
{
    put_four(out, at, media.number);
}
