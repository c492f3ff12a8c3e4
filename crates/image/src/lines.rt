// The lines of an image, as `0100 0e 12 mv r1, r2`.
ghost use Rattle.std.specs.Prelude.{◌≡◌, ◌++◌, ◌+◌, ◌%◌, ◌≤◌, length};
ghost use Rattle.std.proofs.lemmas.List.Edits.{sets};
ghost use Rattle.isa.specs.Code.{TellsAll};
ghost use Rattle.names.specs.Names.{bytes as text_bytes};
ghost use Rattle.image.specs.Image.{hex_digit, hex_byte, hex_word, instruction_of, pair_line, last_line, lines_of};

use text::list;
use text::list::NoText;

// Bytes, stored from `at` on; the place after them.
pub(crate) fn put(out: &mut [u8], at: usize, text: &[u8]) -> usize
    requires { at + length text.now ≤ length out.old }
    ensures { (result ≡ at + length text.now) × (out.new ≡ sets out.old at text.now) }
{
    let end = at + text.len();
    out[at..end].copy_from_slice(text);
    end
}

// The last hexadecimal digit of a number.
fn digit(n: u16) -> u8
    ensures { result ≡ hex_digit (n % 16) }
{
    let d = (n % 16) as u8;
    if d < 10 { 48 + d } else { 87 + d }
}

// What stands in front of an instruction: its address and its two bytes, each with a blank after it.
fn front(a: u16, b: u8, c: u8) -> [u8; 11]
    ensures { result ≡ hex_word a ++ (text_bytes " " ++ (hex_byte b ++ (text_bytes " " ++ (hex_byte c ++ text_bytes " ")))) }
{
    [
        digit(a / 4096),
        digit(a / 256),
        digit(a / 16),
        digit(a),
        32,
        digit(b as u16 / 16),
        digit(b as u16),
        32,
        digit(c as u16 / 16),
        digit(c as u16),
        32,
    ]
}

// An instruction's text, or a question mark, and the line's end. `NoRoom` does not come: there is room for the text.
fn put_instruction(table: &[u8; 256], out: &mut [u8], at: usize, w: u16) -> usize
    requires { TellsAll table.now × (at + length (instruction_of w ++ text_bytes "\n") ≤ length out.old) }
    ensures value { result ≡ at + length (instruction_of w ++ text_bytes "\n") }
    ensures out_after { out.new ≡ sets out.old at (instruction_of w ++ text_bytes "\n") }
{
    match list::list_in(table, w, &mut out[at..]) {
        Ok(n) => put(out, at + n, b"\n"),
        Err(NoText::Reason2) => put(out, at, b"?\n"),
        Err(NoText::NoRoom) => at,
    }
}

fn put_pair(table: &[u8; 256], out: &mut [u8], at: usize, a: u16, b: u8, c: u8) -> usize
    requires { TellsAll table.now × (at + length (pair_line a b c) ≤ length out.old) }
    ensures { (result ≡ at + length (pair_line a b c)) × (out.new ≡ sets out.old at (pair_line a b c)) }
{
    let text = front(a, b, c);
    let p = put(out, at, &text);
    put_instruction(table, out, p, b as u16 + 256 * (c as u16))
}

// The line of a last byte that has no other beside it: it ends where the second byte would stand.
fn put_last(out: &mut [u8], at: usize, a: u16, b: u8) -> usize
    requires { at + 8 ≤ length out.old }
    ensures { (result ≡ at + length (last_line a b)) × (out.new ≡ sets out.old at (last_line a b)) }
{
    let mut text = front(a, b, 0);
    text[7] = 10;
    put(out, at, &text[0..8])
}

// The lines of an image, from the front of the output on; how many bytes they are.
pub(crate) fn put_lines(table: &[u8; 256], out: &mut [u8], a: u16, image: &[u8]) -> usize
    requires { TellsAll table.now × (length (lines_of a image.now) ≤ length out.old) × (a + length image.now ≤ 65536) }
    ensures { (result ≡ length (lines_of a image.now)) × (out.new ≡ sets out.old 0 (lines_of a image.now)) }
{
    let mut rest = image;
    let mut address = a as usize;
    let mut at = 0;
    while let [b, c, tail @ ..] = rest {
        at = put_pair(table, out, at, address as u16, *b, *c);
        address += 2;
        rest = tail;
    }
    if let [b] = rest {
        at = put_last(out, at, address as u16, *b);
    }
    at
}
