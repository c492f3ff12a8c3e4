// What stands between quotes: characters of their own, and escape sequences.
#![tactic(auto)]

ghost use Rattle.std.specs.Prelude.{◌≡◌, ◌+◌, ◌≤◌, length, Some};
ghost use Rattle.quoted.specs.Quoted.{replaced as replaced_by, coded_as, character_as, turn_of, meant, chars_say, chars_leave};
ghost use Rattle.quoted.specs.Code.{mode_after, chars_in, stored, whole, counted, written};
ghost use Rattle.quoted.specs.declared.Mode.TheVariants.{Plain};

// Where the reading stands: at a character, after a backslash, after `\x`, after `\x` and a digit; or it met a fault.
#[derive(Clone, Copy)]
pub enum Mode {
    Plain,
    Escape,
    Code,
    Digit(u8),
    Fault,
}

// What one more byte gives: the next mode, or a character.
#[derive(Clone, Copy)]
pub enum Reading {
    On(Mode),
    Char(u8),
}

// Why nothing is read: the text is no such text, or there is no room for its characters.
#[derive(Clone, Copy)]
pub enum Fault {
    Bad,
    NoRoom,
}

#[tactic(auto, unfolding(crate::specs::Quoted::replaced))]
fn replaced(b: u8) -> Reading
    ensures { result ≡ replaced_by b }
{
    match b {
        b'0' => Reading::Char(0),
        b't' => Reading::Char(b'\t'),
        b'n' => Reading::Char(b'\n'),
        b'r' => Reading::Char(b'\r'),
        b'"' => Reading::Char(b'"'),
        b'\'' => Reading::Char(b'\''),
        b'\\' => Reading::Char(b'\\'),
        b'x' => Reading::On(Mode::Code),
        _ => Reading::On(Mode::Fault),
    }
}

#[tactic(auto, unfolding(crate::specs::Quoted::coded_as))]
fn coded(first: u8, second: u8) -> Reading
    ensures { result ≡ coded_as first second }
{
    match (letters::hex_value(first), letters::hex_value(second)) {
        (Some(high), Some(low)) => Reading::Char(16 * high + low),
        _ => Reading::On(Mode::Fault),
    }
}

#[tactic(auto, unfolding(crate::specs::Quoted::character_as))]
fn character(quote: u8, b: u8) -> Reading
    ensures { result ≡ character_as quote b }
{
    match b {
        b'\\' => Reading::On(Mode::Escape),
        _ if b == quote => Reading::On(Mode::Fault),
        0..=31 => Reading::On(Mode::Fault),
        _ => Reading::Char(b),
    }
}

fn turn(quote: u8, mode: Mode, b: u8) -> Reading
    ensures { result ≡ turn_of quote mode b }
{
    match mode {
        Mode::Plain => character(quote, b),
        Mode::Escape => replaced(b),
        Mode::Code => Reading::On(Mode::Digit(b)),
        Mode::Digit(first) => coded(first, b),
        Mode::Fault => Reading::On(Mode::Fault),
    }
}

fn mode_after(r: Reading) -> Mode
    ensures { result ≡ mode_after r }
{
    match r {
        Reading::On(mode) => mode,
        Reading::Char(b) => Mode::Plain,
    }
}

// How many characters a turn reads.
fn chars_in(r: Reading) -> usize
    ensures { result ≡ chars_in r }
{
    match r {
        Reading::On(mode) => 0,
        Reading::Char(b) => 1,
    }
}

// The character of a turn that reads one, at a place.
fn store(r: Reading, out: &mut [u8], at: usize)
    requires { at + chars_in r ≤ length out.old }
    ensures { out.new ≡ stored r at out.old }
{
    if let Reading::Char(b) = r {
        out[at] = b;
    }
}

fn is_whole(mode: Mode) -> bool
    ensures { result ≡ whole mode }
{
    matches!(mode, Mode::Plain)
}

// How many characters there are, whatever the room; None where there is a fault.
fn count(quote: u8, text: &[u8]) -> Option<usize>
    ensures { result ≡ counted (meant quote Plain text.now) }
{
    let mut mode = Mode::Plain;
    let mut n: usize = 0;
    for &b in text {
        let r = turn(quote, mode, b);
        mode = mode_after(r);
        n += chars_in(r);
    }
    if is_whole(mode) { Some(n) } else { None }
}

// The characters, where there are n of them and room for all.
fn put(quote: u8, text: &[u8], out: &mut [u8], n: usize)
    requires { (counted (meant quote Plain text.now) ≡ Some n) × (n ≤ length out.old) }
    ensures { out.new ≡ written (meant quote Plain text.now) 0 out.old }
{
    let mut mode = Mode::Plain;
    let mut k: usize = 0;
    for &b in text {
        let r = turn(quote, mode, b);
        mode = mode_after(r);
        store(r, out, k);
        k += chars_in(r);
    }
}

// The characters that stand between two quotes, at the front of the output: how many, and no slice of them, since `out_after` speaks of all of the output.
// On Err it is as it was.
pub fn read(quote: u8, text: &[u8], out: &mut [u8]) -> Result<usize, Fault>
    ensures value { result ≡ chars_say (meant quote Plain text.now) (length out.old) }
    ensures out_after { out.new ≡ chars_leave (meant quote Plain text.now) out.old }
{
    let Some(n) = count(quote, text) else {
        return Err(Fault::Bad);
    };
    if out.len() < n {
        return Err(Fault::NoRoom);
    }
    put(quote, text, out, n);
    Ok(n)
}
