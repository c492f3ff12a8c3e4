// A pen on 32 words of state.
#![tactic(auto)]

ghost use Rattle.std.specs.Prelude.{ℕ, ◌≡◌, List};
ghost use Rattle.boundary.specs.Boundary.{packed, leaves};
ghost use Rattle.crossing.specs.Crossing.{ending_number};
ghost use Rattle.pens.specs.Code.{report_as};
ghost use Rattle.pen_crossing.specs.Crossing.{crossed_pen, CrossesPen};

use boundary::{fields, words};
use calls::state::{Answer, Reply};
use pens::Report;
use watching::Ending;

fn said(number: u8, r0: u16, bus: u32, ending: Ending) -> u64
    ensures { result ≡ packed number r0 bus (ending_number ending) }
{
    fields::pack(number, r0, bus, crossing::cause(ending))
}

// The words of the machine where the pen was accepted, and the answer as one number.
fn answer(state: &mut [u16; 32], r: Report) -> u64
    ensures { (ram ws : List ℕ) → crossed_pen state.old (report_as r ram ws) ≡ leaves result state.new ram ws }
{
    let number = r.number;
    let ending = r.ending;
    let m = r.machine;
    let result = said(number, r.r0, r.bus, ending);
    if number != 0 {
        return result;
    }
    let reply = Reply {
        answer: Answer::Accepted,
        machine: m,
    };
    let ignored = words::answer(state, reply);
    result
}

// Words to machine, the pen, machine to words. A manifest is looked through line by line: there is no table of heads.
pub fn cross_pen<'a>(
    state: &mut [u16; 32],
    ram: &mut [u8],
    journal: &mut [u16],
    line: &[u8],
    today: &'a [u8],
    last_good: &'a [u8],
    setup: &[u16],
) -> u64
    ensures { CrossesPen line.now today.now last_good.now setup.now
        state.old ram.old journal.old result state.new ram.new journal.new }
{
    let m = words::taken(*state);
    let today_heads = [0usize; 1];
    let last_heads = [0usize; 1];
    let r = pens::pen(
        m,
        ram,
        journal,
        line,
        today,
        &today_heads[0..0],
        last_good,
        &last_heads[0..0],
        setup,
    );
    answer(state, r)
}
