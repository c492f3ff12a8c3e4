// Refusals 1, 2 and 3, which every call checks first.
ghost use Rattle.std.specs.Prelude.{◌≡◌};
ghost use Rattle.calls.specs.Calls.{state_fits, check_of, world_of};
ghost use Rattle.calls.specs.Code.{refuse, checked};

use crate::state::{Answer, Machine, Refusal, Reply};

// Refusal 3's own question, of a journal with so many slots.
fn state_fits(m: Machine, slots: usize) -> bool
    ensures { result ≡ state_fits slots m.cpu m.next m.held }
{
    let csrs = m.cpu.csrs;
    let next = m.next;
    (csrs[0] <= 511) & ((m.held <= slots) & ((next < slots) | ((slots == 0) & (next == 0))))
}

// The first check that fails.
pub fn check(m: Machine, ram: &[u8], journal: &[u16]) -> Result<(), Refusal>
    ensures { checked result ≡ check_of (world_of m ram.now journal.now) }
{
    let words = journal.len();
    let ram_fits = ram.len() <= 65504;
    let journal_fits = (words % 32 == 0) & (words <= 32768);
    if !ram_fits {
        return Err(Refusal::RamTooLong);
    }
    if !journal_fits {
        return Err(Refusal::BadJournal);
    }
    if !state_fits(m, words / 32) {
        return Err(Refusal::BadState);
    }
    Ok(())
}

pub fn refused(m: Machine, why: Refusal) -> Reply
    ensures { result ≡ refuse m why }
{
    Reply {
        answer: Answer::Refused(why),
        machine: m,
    }
}
