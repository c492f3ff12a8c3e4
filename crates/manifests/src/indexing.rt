// A table of heads: where the first line of each remainder begins.
ghost use Rattle.std.specs.Prelude.{◌≡◌, length};
ghost use Rattle.manifests.specs.Code.{noted, table_of};

use crate::fronts::Front;
use crate::{fronts, line_end};

// The line at a place is its number's head, unless there is one.
fn note(heads: &mut [usize], number: Option<u32>, at: usize, size: usize)
    ensures { heads.new ≡ noted size at number heads.old }
{
    let Some(n) = number else {
        return;
    };
    if heads.is_empty() {
        return;
    }
    let i = n as usize % heads.len();
    if heads[i] == size {
        heads[i] = at;
    }
}

// One table of heads.
pub(crate) fn table(s: &[u8], heads: &mut [usize])
    ensures { heads.new ≡ table_of (length heads.old) s.now }
{
    heads.fill(s.len());
    // Kept a `while`, as in `scan`: it goes from line to line by their places.
    let mut at = 0;
    while at < s.len() {
        let Front { number, read } = fronts::read_front(&s[at..]);
        note(heads, number, at, s.len());
        at = line_end(s, at + read) + 1;
    }
}
