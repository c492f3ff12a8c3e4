// The firmware, in memory before the machine starts.
ghost use Rattle.std.specs.Prelude.{◌≡◌, length};

use crate::files;
use console::values::Said;
use image::header;

// Where an image's bytes stand in the room, behind its header.
const FIRST: usize = 5;

// Room for a header, 65,536 bytes, and one more that says that the image is too long. Its `ensures` gives only the length, so that no proof writes the zeros out.
fn room() -> [u8; 65542]
    ensures { 65542 ≡ length result }
{
    [0u8; 65542]
}

fn placed(
    rt: &HostRuntime,
    at: u16,
    bytes: &[u8],
    argument: usize,
    ram: &mut [u8],
) -> Result<(), Said> {
    let from = usize::from(at);
    let to = from + bytes.len();
    if ram.len() < to {
        files::complain(rt, b"not all of its bytes would be in RAM", argument);
        return Err(Said);
    }
    let place = &mut ram[from..to];
    place.copy_from_slice(bytes);
    Ok(())
}

// The image that an argument names, in RAM.
pub fn load(rt: &HostRuntime, argument: usize, ram: &mut [u8]) -> Result<(), Said> {
    let mut out = room();
    let image = files::read(rt, argument, &mut out)?;
    let Some(at) = header::read_header(image) else {
        files::complain(
            rt,
            b"no header of four hexadecimal digits and a newline",
            argument,
        );
        return Err(Said);
    };
    placed(rt, at, image.get(FIRST..).unwrap_or(b""), argument, ram)
}
