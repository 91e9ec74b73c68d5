// Media as one value.
ghost use Rattle.std.specs.Prelude.{◌≡◌};
ghost use Rattle.trial.specs.Values.{media_value, media_with};

use frame::Media;

// Media as a value.
pub(crate) fn media_value(media: Media) -> u32
    ensures { result ≡ media_value media }
{
    media.number
}

// The media of a value.
pub(crate) fn media_with(value: u32) -> Media
    ensures { result ≡ media_with value }
{
    Media { number: value }
}
