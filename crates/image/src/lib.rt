// The listing program's output for its input, but for reading and writing.
#![tactic(auto)]

mod count;
pub mod header;
mod lines;

ghost use Rattle.std.specs.Prelude.{◌≡◌, ◌+◌, ◌≤◌, length};
ghost use Rattle.text.specs.Listing.{fit_says, fit_leaves};
ghost use Rattle.image.specs.Image.{lines_of, written_as, listing_says, listing_leaves};

use isa::opcode;

// A text at the front of the output, if there is room for it; its length.
fn put_text(out: &mut [u8], text: &[u8]) -> Option<usize>
    ensures result_value { written_as result ≡ fit_says text.now (length out.old) }
    ensures out_after { out.new ≡ fit_leaves text.now out.old }
{
    if out.len() < text.len() {
        return None;
    }
    Some(lines::put(out, 0, text))
}

// The lines of an image at the front of the output, if there is room for them; their length. Making the table costs more than a line, so that it is made once and
// lent to all of them.
fn put_image(out: &mut [u8], a: u16, image: &[u8]) -> Option<usize>
    requires { a + length image.now ≤ 65536 }
    ensures result_value { written_as result ≡ fit_says (lines_of a image.now) (length out.old) }
    ensures out_after { out.new ≡ fit_leaves (lines_of a image.now) out.old }
{
    let table = opcode::table();
    if count::is_short(&table, out.len(), image) {
        return None;
    }
    Some(lines::put_lines(&table, out, a, image))
}

// The whole output of the listing program for its input, at the front of `out`, and its length; None, which is refusal 11, where `out` is
// shorter.
pub fn listing(input: &[u8], out: &mut [u8]) -> Option<usize>
    ensures result_value { written_as result ≡ listing_says input.now (length out.old) }
    ensures out_after { out.new ≡ listing_leaves input.now out.old }
{
    let Some(a) = header::read_header(input) else {
        return put_text(out, b"bad header\n");
    };
    if 60005 < input.len() {
        return put_text(out, b"too long\n");
    }
    if 65541 - (a as usize) < input.len() {
        return put_text(out, b"too long\n");
    }
    put_image(out, a, &input[5..])
}
