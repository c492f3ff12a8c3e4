// A name poked: its single bytes in rising order, the closing 0 last.
ghost use Rattle.std.specs.Prelude.{ℕ, ◌+◌, ◌≤◌, ◌≡◌, List, [], ◌∷◌, ◌++◌, drop, Some, Ok};
ghost use Rattle.calls.specs.Calls.{world_of};
ghost use Rattle.utf8.specs.Utf8.{points};
ghost use Rattle.utf8.specs.Latin.{judged_of, latin_of};
ghost use Rattle.pens.specs.Pen.{pokings, made};

use crate::giving;
use calls::state::Machine;
use machine::Call;

// A single byte, and where the name goes on.
#[derive(Clone, Copy)]
struct Single {
    byte: u8,
    next: usize,
}

// The single byte of the letter that begins at a place.
fn single_at(name: &[u8], i: usize) -> Single
    ensures { (c : ℕ) (s : List ℕ) → points (drop i name.now) ≡ Some (c ∷ s) → c ≤ 255
        → (result.byte ≡ c) × (points (drop result.next name.now) ≡ Some s) }
{
    match utf8::letter_at(name, i) {
        Some(letter) => Single {
            byte: (letter.point % 256) as u8,
            next: i + letter.length,
        },
        None => Single { byte: 0, next: i },
    }
}

// The name of so many single bytes, poked from an address on.
pub fn poke_name(
    m: Machine,
    ram: &mut [u8],
    journal: &mut [u16],
    name: &[u8],
    n: usize,
    at: u16,
) -> Machine
    requires { (judged_of name.now ≡ Ok n) × (at + (n + 1) ≤ 65536) }
    ensures { world_of result ram.new journal.new
        ≡ made (pokings at (latin_of name.now ++ (0 ∷ []))) (world_of m ram.old journal.old) }
{
    let end = at + n as u16;
    let mut after = m;
    let mut i = 0;
    for a in at..end {
        let s = single_at(name, i);
        after = giving::make(Call::Poke(a, s.byte), after, ram, journal);
        i = s.next;
    }
    giving::make(Call::Poke(end, 0), after, ram, journal)
}
