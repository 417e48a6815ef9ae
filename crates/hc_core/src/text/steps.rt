//! `text_of`: the text of a slice's bytes.
ghost use Rattle.std.specs.Prelude.{◌≡◌};
ghost use Rattle.hc_core.specs.Texts.{text_bytes};

use super::Text;
use std::snapshot::Snapshot;

/// The text of these bytes.
pub fn text_of(bytes: &[u8]) -> Text
    ensures { text_bytes result ≡ bytes.now }
{
    let mut text = Text::Empty;
    for byte in bytes {
        text = Text::Then(Snapshot::of(&text), Snapshot::of(byte));
    }
    text
}
