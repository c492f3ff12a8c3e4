// How long the lines of an image are, where there may be no room for them.
ghost use Rattle.std.specs.Prelude.{◌≡◌, ◌≤◌, ltb, length};
ghost use Rattle.isa.specs.Code.{TellsAll};
ghost use Rattle.image.specs.Image.{pair_line, lines_of};

use text::list;
use text::list::NoText;

// How long the line of two bytes is, at any address: 12 bytes, and the instruction's text or a question mark. `NoRoom` does not come.
fn pair_length(table: &[u8; 256], b: u8, c: u8) -> usize
    requires { TellsAll table.now }
    ensures { result ≡ length (pair_line 0 b c) }
{
    let mut text = [0u8; 16];
    match list::list_in(table, b as u16 + 256 * (c as u16), &mut text) {
        Ok(n) => 12 + n,
        Err(NoText::Reason2) => 13,
        Err(NoText::NoRoom) => 12,
    }
}

// How long the lines of an image are, at any address.
fn lines_length(table: &[u8; 256], image: &[u8]) -> usize
    requires { TellsAll table.now × (length image.now ≤ 65536) }
    ensures { result ≡ length (lines_of 0 image.now) }
{
    let mut rest = image;
    let mut n = 0;
    while let [b, c, tail @ ..] = rest {
        n += pair_length(table, *b, *c);
        rest = tail;
    }
    if let [_] = rest { n + 8 } else { n }
}

// Whether so much room is too little. No line is longer than 28 bytes, so that with room for these nothing is counted.
pub(crate) fn is_short(table: &[u8; 256], room: usize, image: &[u8]) -> bool
    requires { TellsAll table.now × (length image.now ≤ 65536) }
    ensures { result ≡ ltb room (length (lines_of 0 image.now)) }
{
    room < 14 * image.len() && room < lines_length(table, image)
}
