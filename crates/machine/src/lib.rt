// A call as data, and the one way to make it.
#![tactic(auto)]

ghost use Rattle.std.specs.Prelude.{◌≡◌};
ghost use Rattle.calls.specs.Calls.{check_of, world_of, Keeps};
ghost use Rattle.calls.specs.Code.{Acts};
ghost use Rattle.machine.specs.Asked.{asked};

use calls::checks;
use calls::state::{Machine, Reply};
use running::run;

// The inputs with their arguments, run and step back.
#[derive(Clone, Copy)]
pub enum Call {
    Step,
    Tick,
    Receive(u8),
    Sent,
    SetRegister(u8, u16),
    Poke(u16, u8),
    Reset,
    Run(u16),
    Back,
}

// What a call does once the checks are passed.
fn act(call: Call, m: Machine, ram: &mut [u8], journal: &mut [u16]) -> Reply
    ensures { check_of (world_of m ram.old journal.old) ≡ 0
        → Acts (asked call) m ram.old journal.old result ram.new journal.new }
{
    match call {
        Call::Step => run::step(m, ram, journal),
        Call::Tick => inputs::tick(m, journal),
        Call::Receive(byte) => inputs::receive(m, journal, byte),
        Call::Sent => inputs::sent(m, journal),
        Call::SetRegister(number, content) => inputs::set_register(m, journal, number, content),
        Call::Poke(address, byte) => inputs::poke(m, ram, journal, address, byte),
        Call::Reset => inputs::reset(m, journal),
        Call::Run(budget) => run::run(m, ram, journal, budget),
        Call::Back => back::step_back(m, ram, journal),
    }
}

// What a call answers: refusal 1, 2 or 3, or what it does.
pub fn answer(call: Call, m: Machine, ram: &mut [u8], journal: &mut [u16]) -> Reply
    ensures { Keeps (asked call) m ram.old journal.old result ram.new journal.new }
{
    match checks::check(m, ram, journal) {
        Err(why) => checks::refused(m, why),
        Ok(()) => act(call, m, ram, journal),
    }
}
