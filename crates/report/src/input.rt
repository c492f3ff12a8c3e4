// Input that is read whole.
ghost use Rattle.std.specs.Prelude.{◌≤◌, length};

use std::io::Read;

// Reads until the room is full, the input ends or a read fails: how many bytes were put at its start.
pub fn read_full<R: Read>(from: &mut R, out: &mut [u8]) -> usize
    ensures { result ≤ length out.new }
{
    // A step is as long as what a read gives, so that no `for` is plainer.
    let mut done: usize = 0;
    while done < out.len() {
        match from.read(&mut out[done..]) {
            Ok(0) | Err(_) => return done,
            Ok(n) => done += n,
        }
    }
    done
}
