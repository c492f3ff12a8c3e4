// What refuses a pen.
ghost use Rattle.std.specs.Prelude.{ℕ, ◌+◌, ◌≡◌, leb, Ok};
ghost use Rattle.pens.specs.Pen.{name_check};
ghost use Rattle.pens.specs.Code.{refusal_number, number_in};

use calls::state;
use manifests::Held;
use utf8::Unfit;

// Why a pen is refused: as the machine would refuse a call, also for a given register, or by its name. Each has a number of its own. A name in neither list counts before an unfit one.
#[derive(Clone, Copy)]
pub enum Refusal {
    Machine(state::Refusal),
    NotHeld,
    Name(Unfit),
    NoRoom,
}

// The number that the rules give a refusal.
impl From<Refusal> for u8 {
    fn from(why: Refusal) -> u8
        ensures { result ≡ refusal_number why }
    {
        match why {
            Refusal::Machine(why) => u8::from(why),
            Refusal::NotHeld => 83,
            Refusal::Name(unfit) => match unfit {
                Unfit::NotUtf8 => 80,
                Unfit::NotLatin => 81,
            },
            Refusal::NoRoom => 82,
        }
    }
}

// Whether so many single bytes and the closing 0 are in RAM from an address on.
fn is_room(at: u16, n: usize, ram: usize) -> bool
    ensures { result ≡ leb (at + (n + 1)) ram }
{
    let first = at as usize;
    if ram <= first {
        return false;
    }
    n < ram - first
}

// What is wrong with the name, or of how many single bytes it is.
pub fn name_check(
    held: Option<Held>,
    judged: Result<usize, Unfit>,
    at: u16,
    ram: usize,
) -> Result<usize, Refusal>
    ensures number { number_in result ≡ name_check held judged at ram }
    ensures letters { (n : ℕ) → result ≡ Ok n → judged ≡ Ok n }
{
    if held.is_none() {
        return Err(Refusal::NotHeld);
    }
    match judged {
        Err(unfit) => Err(Refusal::Name(unfit)),
        Ok(n) => if is_room(at, n, ram) {
            Ok(n)
        } else {
            Err(Refusal::NoRoom)
        },
    }
}
