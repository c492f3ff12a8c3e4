// Lines looked through for a number.
ghost use Rattle.std.specs.Prelude.{◌≡◌};
ghost use Rattle.manifests.specs.Code.{place_from, head_in, head_by};

use crate::fronts::Front;
use crate::{Part, fronts, line_end};

// The first line with a number, of those from a place on.
fn scan(s: &[u8], start: usize, n: u32) -> Option<Part>
    ensures { result ≡ place_from n s.now start }
{
    // Kept a `while`: a line's place is wanted, which `split` does not give, and its front is read before its end is looked for.
    let mut at = start;
    while at < s.len() {
        let Front { number, read } = fronts::read_front(&s[at..]);
        let tab = at + read;
        let end = line_end(s, tab);
        if number == Some(n) {
            return Some(Part {
                from: tab + 1,
                to: end,
            });
        }
        at = end + 1;
    }
    None
}

// The head of a number in one table.
fn head_in(heads: &[usize], n: u32) -> usize
    ensures { result ≡ head_in heads.now n }
{
    if heads.is_empty() {
        return 0;
    }
    heads[n as usize % heads.len()]
}

// Where lines are looked through from: no line before either head has the number.
fn head(heads: &[usize], n: u32) -> usize
    ensures { result ≡ head_by heads.now n }
{
    let (first, second) = heads.split_at(heads.len() / 2);
    head_in(first, n).max(head_in(second, n))
}

// The first line with a number, of those from its head on.
pub(crate) fn place(s: &[u8], heads: &[usize], n: u32) -> Option<Part>
    ensures { result ≡ place_from n s.now (head_by heads.now n) }
{
    scan(s, head(heads, n), n)
}
