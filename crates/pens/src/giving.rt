// Calls made without regard to their answers: given registers.
ghost use Rattle.std.specs.Prelude.{◌≡◌, true, drop, get_or, ◌%◌};
ghost use Rattle.calls.specs.Calls.{world_of, answer_of};
ghost use Rattle.machine.specs.Asked.{asked};
ghost use Rattle.machine.specs.declared.Call.TheVariants.{SetRegister};
ghost use Rattle.pens.specs.Pen.{settings, all_registers, made};

use calls::state::Machine;
use machine::Call;

// A word of a setup; 0 where it has none.
pub fn word_at(setup: &[u16], i: usize) -> u16
    ensures { result ≡ get_or setup.now i 0 }
{
    setup.get(i).copied().unwrap_or(0)
}

// One call of the machine; what it answers is not needed.
pub fn make(call: Call, m: Machine, ram: &mut [u8], journal: &mut [u16]) -> Machine
    ensures { world_of result ram.new journal.new ≡ (answer_of (asked call) (world_of m ram.old journal.old)).world }
{
    let r = machine::answer(call, m, ram, journal);
    let after = r.machine;
    after
}

// The words that give registers.
fn given(setup: &[u16]) -> &[u16]
    ensures { result.now ≡ drop 3 setup.now }
{
    setup.get(3..).unwrap_or(&[])
}

// Whether all given registers are among the sixteen. A last word without its pair is not read.
pub fn are_registers(setup: &[u16]) -> bool
    ensures { result ≡ all_registers (drop 3 setup.now) }
{
    let mut rest = given(setup);
    while let [number, _, tail @ ..] = rest {
        if 15 < *number {
            return false;
        }
        rest = tail;
    }
    true
}

fn numbered(number: u16, content: u16) -> Call
    ensures { result ≡ SetRegister (number % 256) content }
{
    Call::SetRegister((number % 256) as u8, content)
}

// The given registers, set in order.
pub fn give(m: Machine, ram: &mut [u8], journal: &mut [u16], setup: &[u16]) -> Machine
    requires { all_registers (drop 3 setup.now) ≡ true }
    ensures { world_of result ram.new journal.new ≡ made (settings (drop 3 setup.now)) (world_of m ram.old journal.old) }
{
    let mut after = m;
    let mut rest = given(setup);
    while let [number, content, tail @ ..] = rest {
        after = make(numbered(*number, *content), after, ram, journal);
        rest = tail;
    }
    after
}
