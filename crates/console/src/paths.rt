// Names of files in a command line.
use crate::rows::Row;
use crate::values::Said;
use crate::{values, words};
use quoted::Fault;

// The characters of a string in double quotes, put at the start of `out`: how many.
pub fn string(word: &[u8], out: &mut [u8]) -> Result<usize, Fault> {
    match word {
        [_, inside @ .., b'"'] => quoted::read(b'"', inside, out),
        _ => Err(Fault::Bad),
    }
}

// What stands between double quotes, or the word itself: how many bytes; None where it is no string.
fn unquoted(word: &[u8], out: &mut [u8]) -> Option<usize> {
    if let [b'"', ..] = word {
        return string(word, out).ok();
    }
    let mut name = Row::new(out);
    name.put_all(word);
    Some(name.bytes().len())
}

// The name that stands next, put at the start of `out`: how long it is, and the line after it.
pub fn name<'a>(
    rt: &impl Print,
    line: &'a [u8],
    out: &mut [u8],
) -> Result<(usize, &'a [u8]), Said> {
    let Some((word, rest)) = words::next(line) else {
        report::text(rt, b"a file's name is needed\n");
        return Err(Said);
    };
    match unquoted(word, out) {
        Some(n) if n != 0 => Ok((n, rest)),
        _ => {
            values::complain(rt, b"not a file's name", word);
            Err(Said)
        }
    }
}
