// Media: whether there is any, and its range. Only this file and its like in reader, writer and trial know what it is
// made of.
ghost use Rattle.std.specs.Prelude.{◌≡◌};
ghost use Rattle.frame.specs.Media.{media_none, media_good};

use crate::Media;
use crate::range::Range;

impl Media {
    // Whether there is none.
    pub fn is_none(self) -> bool
        ensures { result ≡ media_none self }
    {
        self == Media::NONE
    }

    // Whether it is in its range.
    pub(crate) fn is_good(self) -> bool
        ensures { result ≡ media_good self }
    {
        Range::FourBytes.has(self.number)
    }
}
