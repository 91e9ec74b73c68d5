// A log as lines: how long its first line is.
#![tactic(auto)]

ghost use Rattle.std.specs.Prelude.{◌≡◌, length};
ghost use Rattle.log_lines.specs.Lines.{first_line, CutPlace};

use memchr::memchr;

// How far at the front an end is looked for byte by byte: that of a short line is found sooner so than by `memchr`.
const NEAR: usize = 8;

// The length of the first line of a part of a log, its end included; of the whole part where no line ends in it, so 0
// of an empty part.
pub fn first_line_length(part: &[u8]) -> usize
    ensures value { result ≡ length (first_line part.now) }
    ensures cut_place { CutPlace result part.now }
{
    let (near, far) = part.split_at(part.len().min(NEAR));
    match near.iter().position(|byte| *byte == b'\n') {
        Some(at) => at + 1,
        None => near.len() + memchr(b'\n', far).map_or(far.len(), |at| at + 1),
    }
}
