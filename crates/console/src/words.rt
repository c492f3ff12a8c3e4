// The words of a line.
ghost use Rattle.std.specs.Prelude.{◌+◌, ◌≤◌, ◌<◌, ◌≡◌, length, take, IfSome};

// The first so many bytes; none where there are fewer.
pub fn front<'a>(bytes: &'a [u8], n: usize) -> &'a [u8]
    ensures { n ≤ length bytes.now → result.now ≡ take n bytes.now }
{
    bytes.get(..n).unwrap_or(b"")
}

pub fn is_blank(b: u8) -> bool {
    letters::is_blank(b) | (b == b'\r')
}

// Where a quoted stretch stands after one more byte.
#[derive(Clone, Copy)]
enum Quoted {
    No,
    Yes,
    Escaped,
}

fn after(q: Quoted, quote: u8, b: u8) -> Quoted {
    match q {
        Quoted::No => Quoted::No,
        Quoted::Escaped => Quoted::Yes,
        Quoted::Yes if b == b'\\' => Quoted::Escaped,
        Quoted::Yes if b == quote => Quoted::No,
        Quoted::Yes => Quoted::Yes,
    }
}

fn opened(quote: u8) -> Quoted {
    match quote {
        b'"' | b'\'' => Quoted::Yes,
        _ => Quoted::No,
    }
}

// How long the word is that a line begins with. It ends at a blank, or at the line's end; blanks in the quotes that it begins with belong to it.
fn word_length(line: &[u8]) -> usize
    requires { 0 < length line.now }
    ensures { (0 < result) × (result ≤ length line.now) }
{
    let quote = line[0];
    let mut q = opened(quote);
    for i in 1..line.len() {
        if matches!(q, Quoted::No) & is_blank(line[i]) {
            return i;
        }
        q = after(q, quote, line[i]);
    }
    line.len()
}

// The next word, and the line from its end on; None where nothing more stands there.
pub fn next<'a>(line: &'a [u8]) -> Option<(&'a [u8], &'a [u8])>
    ensures within { IfSome result (λ n. length n.0.now + length n.1.now ≤ length line.now) }
    ensures shorter { IfSome result (λ n. length n.1.now < length line.now) }
{
    let from = line.iter().position(|b| !is_blank(*b))?;
    let here = &line[from..];
    Some(here.split_at(word_length(here)))
}

// Whether a word, in either case, is the front of a name.
pub fn is_front(word: &[u8], name: &[u8]) -> bool {
    (word.len() <= name.len()) && word.iter().zip(name).all(|(w, n)| letters::lower(*w) == *n)
}

pub fn is_name(word: &[u8], name: &[u8]) -> bool {
    (word.len() == name.len()) & is_front(word, name)
}
