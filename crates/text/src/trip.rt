// There and back: a word's text, assembled.
ghost use Rattle.std.specs.Prelude.{◌≡◌};
ghost use Rattle.text.specs.Assembling.{again_of, no_trip};
ghost use Rattle.text.specs.declared.trip.NoTrip.TheVariants.{Other};

use crate::assemble::NoWord;
use crate::list::NoText;
use crate::{assemble, list};

// Why a word's text does not give the word: its opcode gives reason 2. No word gives `Other`.
#[derive(Clone, Copy)]
pub enum NoTrip {
    Unlisted,
    Other,
}

impl From<NoText> for NoTrip {
    ghost from_gives = { λ why e. e ≡ no_trip why };

    fn from(why: NoText) -> NoTrip {
        match why {
            NoText::Reason2 => NoTrip::Unlisted,
            NoText::NoRoom => NoTrip::Other,
        }
    }
}

impl From<NoWord> for NoTrip {
    ghost from_gives = { λ why e. e ≡ Other };

    fn from(_: NoWord) -> NoTrip {
        NoTrip::Other
    }
}

// What a word's listing assembles to: that word, unless its opcode gives reason 2.
pub fn round_trip(word: u16) -> Result<u16, NoTrip>
    ensures { result ≡ again_of word }
{
    let mut text = [0u8; 16];
    let n = list::list(word, &mut text)?;
    Ok(assemble::assemble(&text[..n])?)
}
