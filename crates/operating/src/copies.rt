// Copies of the memory, and marks at its bytes.
ghost use Rattle.std.specs.Prelude.{◌≡◌, length};

// Room for all RAM that there can be, with no mark at any byte. Its `ensures` gives only the length, so that no proof writes the zeros out.
pub fn room() -> [u8; 65504]
    ensures { 65504 ≡ length result }
{
    [0u8; 65504]
}

// The memory at the start of a room.
pub fn of(ram: &[u8]) -> [u8; 65504]
    ensures { 65504 ≡ length result }
{
    let mut r = room();
    let n = ram.len().min(65504);
    r[..n].copy_from_slice(&ram[..n]);
    r
}
