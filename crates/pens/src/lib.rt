// One pen: its name looked up and poked, the given registers set, the firmware's matching routine run, r0 reported. All by the machine's calls.
#![tactic(auto)]

mod checking;
mod giving;
mod poking;
mod runs;

ghost use Rattle.std.specs.Prelude.{ℕ, ◌+◌, ◌≤◌, ◌≡◌, true, length, get_or, drop, cond, Ok};
ghost use Rattle.calls.specs.Calls.{world_of};
ghost use Rattle.utf8.specs.Latin.{judged_of};
ghost use Rattle.pens.specs.Pen.{all_registers, preparing, made, matching, reported, first_check, pen_check, pen_named};
ghost use Rattle.pens.specs.Code.{refusal_number, number_in, pen_from, report_as, refuse};

use calls::state::Machine;
use calls::{checks, state};
pub use checking::Refusal;
use manifests::Held;
use utf8::Unfit;
use watching::Ending;

// A pen's answer: the refusal's number (0: accepted), where its name lies, r0, the run's steps and bus bytes, why it stopped, and the machine.
// Kept flat, with a number: `report_from` and `single-pen` of pens_exact read any answer of the rules back as a report.
#[derive(Clone, Copy)]
pub struct Report {
    pub number: u8,
    pub held: Option<Held>,
    pub r0: u16,
    pub steps: u16,
    pub bus: u32,
    pub ending: Ending,
    pub machine: Machine,
}

fn refused(m: Machine, held: Option<Held>, why: Refusal) -> Report
    ensures { result ≡ refuse m held (refusal_number why) }
{
    Report {
        number: u8::from(why),
        held,
        r0: 0,
        steps: 0,
        bus: 0,
        ending: Ending::Refused,
        machine: m,
    }
}

// The name poked, and the given registers set.
fn prepared(
    m: Machine,
    ram: &mut [u8],
    journal: &mut [u16],
    name: &[u8],
    n: usize,
    setup: &[u16],
) -> Machine
    requires { (judged_of name.now ≡ Ok n) × (get_or setup.now 0 0 + (n + 1) ≤ 65536) × (all_registers (drop 3 setup.now) ≡ true) }
    ensures { world_of result ram.new journal.new
        ≡ made (preparing setup.now name.now) (world_of m ram.old journal.old) }
{
    let at = giving::word_at(setup, 0);
    let poked = poking::poke_name(m, ram, journal, name, n, at);
    giving::give(poked, ram, journal, setup)
}

// A pen that is not refused, whose name has so many single bytes.
fn accepted(
    m: Machine,
    ram: &mut [u8],
    journal: &mut [u16],
    held: Option<Held>,
    name: &[u8],
    n: usize,
    setup: &[u16],
) -> Report
    requires { (judged_of name.now ≡ Ok n) × (get_or setup.now 0 0 + (n + 1) ≤ 65536) × (all_registers (drop 3 setup.now) ≡ true) }
    ensures { reported held (matching setup.now (made (preparing setup.now name.now) (world_of m ram.old journal.old)))
        ≡ report_as result ram.new journal.new }
{
    let ready = prepared(m, ram, journal, name, n, setup);
    runs::run(ready, ram, journal, held, setup)
}

// 6, unless all given registers are among the sixteen.
fn register_check(setup: &[u16]) -> Result<(), Refusal>
    ensures { number_in result ≡ cond (all_registers (drop 3 setup.now)) 0 6 }
{
    if giving::are_registers(setup) {
        Ok(())
    } else {
        Err(Refusal::Machine(state::Refusal::NoRegister))
    }
}

// What refuses a whole list before any pen: 1, 2, 3 or 6.
pub fn refusal(m: Machine, ram: &[u8], journal: &[u16], setup: &[u16]) -> Result<(), Refusal>
    ensures { number_in result ≡ first_check setup.now (world_of m ram.now journal.now) }
{
    checks::check(m, ram, journal).map_err(Refusal::Machine)?;
    register_check(setup)
}

// All that refuses a pen, by its name's judgement: 1, 2, 3, 6, 83, 80, 81 or 82; else of how many single bytes its name is.
fn pen_check(
    m: Machine,
    ram: &[u8],
    journal: &[u16],
    held: Option<Held>,
    judged: Result<usize, Unfit>,
    setup: &[u16],
) -> Result<usize, Refusal>
    ensures number { number_in result ≡ pen_check held judged setup.now (world_of m ram.now journal.now) }
    ensures letters { (n : ℕ) → result ≡ Ok n → judged ≡ Ok n }
{
    refusal(m, ram, journal, setup)?;
    checking::name_check(held, judged, giving::word_at(setup, 0), ram.len())
}

// A pen whose name was looked up. One that nothing refuses has a fine name.
pub fn pen_named(
    m: Machine,
    ram: &mut [u8],
    journal: &mut [u16],
    held: Option<Held>,
    name: &[u8],
    setup: &[u16],
) -> Report
    ensures { pen_named held name.now setup.now (world_of m ram.old journal.old)
        ≡ report_as result ram.new journal.new }
{
    match pen_check(m, ram, journal, held, utf8::judge(name), setup) {
        Ok(n) => accepted(m, ram, journal, held, name, n, setup),
        Err(why) => refused(m, held, why),
    }
}

// A pen by its line. The heads are of `manifests`: they make a look-up quick, and empty ones have every line looked through.
pub fn pen<'a>(
    m: Machine,
    ram: &mut [u8],
    journal: &mut [u16],
    line: &[u8],
    today: &'a [u8],
    today_heads: &[usize],
    last_good: &'a [u8],
    last_heads: &[usize],
    setup: &[u16],
) -> Report
    ensures { pen_from line.now today.now today_heads.now last_good.now last_heads.now
        setup.now (world_of m ram.old journal.old) ≡ report_as result ram.new journal.new }
{
    let held = manifests::find(line, today, today_heads, last_good, last_heads);
    let name = manifests::lookup(today, last_good, held);
    pen_named(m, ram, journal, held, name, setup)
}
