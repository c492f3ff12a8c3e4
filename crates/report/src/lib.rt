// What the desk and the vector programs print with: pieces of lines, and the digest that stands for many results. No contract can say what is written.
#![tactic(auto)]

pub mod input;

ghost use Rattle.std.specs.Prelude.{◌≡◌, ◌+◌, ◌*◌, ◌%◌};
ghost use Rattle.std.specs.List.{fold};
ghost use Rattle.report.specs.Digest.{absorbed};

// Where the output takes no more, the rest is let go: nobody is left to be told.
pub fn text(rt: &impl Print, bytes: &[u8]) {
    let _ = rt.write_all(bytes);
}

pub fn space(rt: &impl Print) {
    text(rt, b" ");
}

pub fn end(rt: &impl Print) {
    text(rt, b"\n");
}

pub fn hex(rt: &impl Print, n: u64, width: usize) {
    let mut digits = [0u8; 16];
    let k = io::hex(n, width, &mut digits);
    text(rt, &digits[..k]);
}

pub fn decimal(rt: &impl Print, n: u64) {
    let mut digits = [0u8; 20];
    let k = io::decimal(n, &mut digits);
    text(rt, &digits[..k]);
}

// A name that is kept as one number, its first byte lowest.
pub fn name(rt: &impl Print, key: u64) {
    let unused = key.leading_zeros() as usize / 8;
    text(rt, &key.to_le_bytes()[..8 - unused]);
}

// The digest with one number more.
pub fn absorb(digest: u64, x: u16) -> u64
    ensures { result ≡ (digest % 4294967291 * 65599 + x) % 4294967291 }
{
    (digest % 4294967291 * 65599 + x as u64) % 4294967291
}

// The digest with three words more, taken as one number.
pub fn absorb_three(digest: u64, a: u16, b: u16, c: u16) -> u64
    ensures { result ≡ (digest % 4294967291 * 65599 + (a + b * 65536 + c * 4294967296)) % 4294967291 }
{
    (digest % 4294967291 * 65599 + (a as u64 + b as u64 * 65536 + c as u64 * 4294967296))
        % 4294967291
}

pub fn absorb_byte(digest: u64, b: u8) -> u64
    ensures { result ≡ (digest % 4294967291 * 65599 + b) % 4294967291 }
{
    absorb(digest, b as u16)
}

// The digest with each byte more, in their order. Bytes and words have a function each: one over both would promise by what `From` gives, and say no more.
pub fn absorb_bytes(digest: u64, bytes: &[u8]) -> u64
    ensures { result ≡ fold absorbed digest bytes.now }
{
    let mut all = digest;
    for &b in bytes {
        all = absorb_byte(all, b);
    }
    all
}

// The same of words.
pub fn absorb_words(digest: u64, words: &[u16]) -> u64
    ensures { result ≡ fold absorbed digest words.now }
{
    let mut all = digest;
    for &w in words {
        all = absorb(all, w);
    }
    all
}
