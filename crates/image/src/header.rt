// The front of an image: where its bytes stand.
ghost use Rattle.std.specs.Prelude.{◌≡◌};
ghost use Rattle.image.specs.Image.{header_of, digits_of};

// The number of four hexadecimal digits.
fn four(a: u8, b: u8, c: u8, d: u8) -> Option<u16>
    ensures { result ≡ digits_of a b c d }
{
    let a = letters::hex_value(a)? as u16;
    let b = letters::hex_value(b)? as u16;
    let c = letters::hex_value(c)? as u16;
    let d = letters::hex_value(d)? as u16;
    Some(4096 * a + 256 * b + 16 * c + d)
}

// Where the bytes of an image stand, by four hexadecimal digits and a newline; None where these are not there.
pub fn read_header(input: &[u8]) -> Option<u16>
    ensures { result ≡ header_of input.now }
{
    match input {
        [a, b, c, d, b'\n', ..] => four(*a, *b, *c, *d),
        _ => None,
    }
}
