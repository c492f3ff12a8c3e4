// The C boundary: the calls on 32 words of state, lent bytes and lent journal words, and the text of instructions. No rule of its own.
#![tactic(auto)]

ghost use Rattle.history.specs.Trace.{Call as CallOf, give, back as goes_back};
ghost use Rattle.calls.specs.Inputs.{Input};
ghost use Rattle.machine.specs.Asked.{asked};
ghost use Rattle.boundary.specs.Boundary.{Crosses, listed, assembled};
ghost use Rattle.crossing.specs.Crossing.{CrossesWatched};
ghost use Rattle.pen_crossing.specs.Crossing.{CrossesPen};
ghost use Rattle.std.specs.Prelude.{◌≡◌, length};
ghost use Rattle.text.specs.Listing.{list_says, list_leaves};
ghost use Rattle.text.specs.Assembling.{assemble_says};

use boundary::{fields, words};
use entries::Entry;
use machine::Call;

// Words to machine, the call, machine to words.
pub fn cross(call: Call, state: &mut [u16; 32], ram: &mut [u8], journal: &mut [u16]) -> u64
    ensures { Crosses (asked call) state.old ram.old journal.old result state.new ram.new journal.new }
{
    let m = words::taken(*state);
    let r = machine::answer(call, m, ram, journal);
    words::answer(state, r)
}

#[unsafe(no_mangle)]
pub extern "C" fn mb50_step(state: &mut [u16; 32], ram: &mut [u8], journal: &mut [u16]) -> u64
    ensures { Crosses (give Input.step) state.old ram.old journal.old result state.new ram.new journal.new }
{
    cross(Call::Step, state, ram, journal)
}

#[unsafe(no_mangle)]
pub extern "C" fn mb50_tick(state: &mut [u16; 32], ram: &mut [u8], journal: &mut [u16]) -> u64
    ensures { Crosses (give Input.tick) state.old ram.old journal.old result state.new ram.new journal.new }
{
    cross(Call::Tick, state, ram, journal)
}

#[unsafe(no_mangle)]
pub extern "C" fn mb50_receive(
    state: &mut [u16; 32],
    ram: &mut [u8],
    journal: &mut [u16],
    byte: u8,
) -> u64
    ensures { Crosses (give (Input.receive byte)) state.old ram.old journal.old result state.new ram.new journal.new }
{
    cross(Call::Receive(byte), state, ram, journal)
}

#[unsafe(no_mangle)]
pub extern "C" fn mb50_sent(state: &mut [u16; 32], ram: &mut [u8], journal: &mut [u16]) -> u64
    ensures { Crosses (give Input.sent) state.old ram.old journal.old result state.new ram.new journal.new }
{
    cross(Call::Sent, state, ram, journal)
}

#[unsafe(no_mangle)]
pub extern "C" fn mb50_set_register(
    state: &mut [u16; 32],
    ram: &mut [u8],
    journal: &mut [u16],
    number: u8,
    content: u16,
) -> u64
    ensures { Crosses (give (Input.set_register number content)) state.old ram.old journal.old
        result state.new ram.new journal.new }
{
    cross(Call::SetRegister(number, content), state, ram, journal)
}

#[unsafe(no_mangle)]
pub extern "C" fn mb50_poke(
    state: &mut [u16; 32],
    ram: &mut [u8],
    journal: &mut [u16],
    address: u16,
    byte: u8,
) -> u64
    ensures { Crosses (give (Input.poke address byte)) state.old ram.old journal.old result state.new ram.new journal.new }
{
    cross(Call::Poke(address, byte), state, ram, journal)
}

#[unsafe(no_mangle)]
pub extern "C" fn mb50_reset(state: &mut [u16; 32], ram: &mut [u8], journal: &mut [u16]) -> u64
    ensures { Crosses (give Input.resets) state.old ram.old journal.old result state.new ram.new journal.new }
{
    cross(Call::Reset, state, ram, journal)
}

#[unsafe(no_mangle)]
pub extern "C" fn mb50_run(
    state: &mut [u16; 32],
    ram: &mut [u8],
    journal: &mut [u16],
    budget: u16,
) -> u64
    ensures { Crosses (CallOf.run budget) state.old ram.old journal.old result state.new ram.new journal.new }
{
    cross(Call::Run(budget), state, ram, journal)
}

// The list's entries are three words each, as C has them.
#[unsafe(no_mangle)]
pub extern "C" fn mb50_run_watched(
    state: &mut [u16; 32],
    ram: &mut [u8],
    journal: &mut [u16],
    list: &mut [Entry],
    budget: u16,
) -> u64
    ensures { CrossesWatched budget state.old ram.old journal.old list.old
        result state.new ram.new journal.new list.new }
{
    let c = crossing::cross_list(state, ram, journal, list, budget);
    entries::mark(list, c.met);
    c.result
}

// A pen by its line. Of the setup the first words are the name's address, the stop and the budget, then each given register's number and content.
#[unsafe(no_mangle)]
pub extern "C" fn mb50_pen<'a>(
    state: &mut [u16; 32],
    ram: &mut [u8],
    journal: &mut [u16],
    line: &[u8],
    today: &'a [u8],
    last_good: &'a [u8],
    setup: &[u16],
) -> u64
    ensures { CrossesPen line.now today.now last_good.now setup.now
        state.old ram.old journal.old result state.new ram.new journal.new }
{
    pen_crossing::cross_pen(state, ram, journal, line, today, last_good, setup)
}

#[unsafe(no_mangle)]
pub extern "C" fn mb50_step_back(state: &mut [u16; 32], ram: &mut [u8], journal: &mut [u16]) -> u64
    ensures { Crosses goes_back state.old ram.old journal.old result state.new ram.new journal.new }
{
    cross(Call::Back, state, ram, journal)
}

#[unsafe(no_mangle)]
pub extern "C" fn mb50_list(word: u16, out: &mut [u8]) -> u64
    ensures value { result ≡ listed (list_says word (length out.old)) }
    ensures out_after { out.new ≡ list_leaves word out.old }
{
    fields::listed(text::list::list(word, out))
}

#[unsafe(no_mangle)]
pub extern "C" fn mb50_assemble(line: &[u8]) -> u64
    ensures { result ≡ assembled (assemble_says line.now) }
{
    fields::assembled(text::assemble::assemble(line))
}
