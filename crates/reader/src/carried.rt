// Media on a line: all of the reader that knows what media is made of.
ghost use Rattle.std.specs.Prelude.{◌≡◌, ◌+◌, ◌<◌, length};
ghost use Rattle.frame.specs.Media.{media_good, media_from};

use crate::digit_line::DigitLine;
use crate::digits::four_at;
use frame::Media;

impl DigitLine<'_> {
    // The media whose digits stand from place at on.
    pub(crate) fn media_from(&self, at: usize) -> Media
        requires { at + 8 < length self.now.bytes.now }
        ensures { result ≡ media_from self.now.bytes.now at }
    {
        Media {
            number: four_at(self.bytes, at),
        }
    }

    // Whether that media is in its range, judged on its digits.
    pub(crate) fn media_fits(&self, at: usize) -> bool
        requires { at + 8 < length self.now.bytes.now }
        ensures { result ≡ media_good (media_from self.now.bytes.now at) }
    {
        self.four_fits(at)
    }
}
