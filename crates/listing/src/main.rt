// The listing program: an image on standard input, its listing on standard output. All that it prints is `image::listing`'s.
#![tactic(auto)]

ghost use Rattle.std.specs.Prelude.{◌≡◌, length};

use report::input::read_full;

// Room for a header, 60,000 bytes, and one more that says that the image is too long.
fn room_in() -> [u8; 60006]
    ensures { 60006 ≡ length result }
{
    [0u8; 60006]
}

// Room for the longest listing: 28 bytes for each of 30,000 lines.
fn room_out() -> [u8; 840000]
    ensures { 840000 ≡ length result }
{
    [0u8; 840000]
}

// What cannot be written is said on standard error.
fn print(rt: &HostRuntime, out: &[u8], n: usize) {
    if n <= out.len() {
        if rt.write_all(&out[0..n]).is_err() {
            let _ = rt
                .stderr()
                .write_all(b"listing: the output could not be written\n");
        }
    }
}

// There is always room: the output has room for the longest listing.
fn main(rt: HostRuntime) {
    let mut input = room_in();
    let n = read_full(&mut rt.stdin(), &mut input);
    let mut out = room_out();
    if let Some(k) = image::listing(&input[..n], &mut out) {
        print(&rt, &out, k);
    }
}
