// Names as numbers of 64 bits, so that a look-up compares numbers.
ghost use Rattle.std.specs.Prelude.{◌≡◌, map};
ghost use Rattle.names.specs.Names.{lower};
ghost use Rattle.names.specs.Code.{key_of};

// The key of a name of either case; none where it is empty, too long or holds a 0.
pub fn key(name: &[u8]) -> Option<u64>
    ensures { result ≡ key_of (map lower name.now) }
{
    if name.is_empty() || 7 < name.len() || name.contains(&0) {
        return None;
    }
    let mut key: u64 = 0;
    for &byte in name.iter().rev() {
        key = 256 * key + letters::lower(byte) as u64;
    }
    Some(key)
}
