// Bytes put back.
ghost use Rattle.std.specs.Prelude.{◌≡◌, set};
ghost use Rattle.history.specs.Undo.{restored};

use word::sums;

// One byte, where it is RAM.
fn put(ram: &mut [u8], at: u16, b: u8)
    ensures { ram.new ≡ set ram.old at b }
{
    // By `get_mut` it was tried: what memory is where it answers None is then lost to the proof.
    let i = at as usize;
    if i < ram.len() {
        ram[i] = b;
    }
}

// The old bytes, of which `count` were written from `first` on.
pub fn restore(ram: &mut [u8], count: u16, first: u16, low: u8, high: u8)
    ensures { ram.new ≡ restored count first low high ram.old }
{
    match count {
        0 => {}
        1 => put(ram, first, low),
        _ => {
            put(ram, first, low);
            put(ram, sums::plus(first, 1), high);
        }
    }
}
