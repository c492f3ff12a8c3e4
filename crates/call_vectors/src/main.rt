// Makes the calls of the independent model's commands; the digests that it prints are compared with the model's.
#![tactic(auto)]

mod buffers;
mod commands;
mod digest;
mod lists;
mod requests;
mod settings;
mod state;

ghost use Rattle.std.specs.Prelude.{◌≡◌, length};

use commands::Command;
use report::input::read_full;
use state::Desk;

// Of each of the three rooms the `ensures` gives only the length, so that no proof writes the zeros out.
fn input_room() -> [u8; 440000]
    ensures { 440000 ≡ length result }
{
    [0u8; 440000]
}

fn ram_room() -> [u8; 65536]
    ensures { 65536 ≡ length result }
{
    [0u8; 65536]
}

fn journal_room() -> [u16; 33000]
    ensures { 33000 ≡ length result }
{
    [0u16; 33000]
}

fn obey(rt: &impl Print, d: &mut Desk, c: Command) {
    match c {
        Command::Called(call) => requests::make(d, call),
        Command::WatchedRun(budget) => requests::watched_run(d, budget),
        Command::JournalWord { at, word } => d.journal.put(at, word),
        Command::RamByte { at, byte } => d.ram.put(at, byte),
        Command::Csr0(word) => d.machine.cpu.csrs[0] = word,
        Command::NextSlot(slot) => d.machine.next = usize::from(slot),
        Command::RecordsHeld(records) => d.machine.held = usize::from(records),
        Command::Register { number, content } => {
            settings::set_register(&mut d.machine.cpu, number, content);
        }
        Command::Halted(is_halted) => d.machine.cpu.board.halted = is_halted,
        Command::Stretch { first, last } => {
            settings::set_stretch(&mut d.machine.cpu, first, last);
        }
        Command::RamLent(bytes) => d.ram.lend(bytes),
        Command::JournalLent(words) => d.journal.lend(words),
        Command::Started(from) => state::start(d, from),
        Command::Shown => settings::show(rt, d),
        Command::Entry {
            place,
            address,
            kind,
        } => lists::set_entry(&mut d.list, place, address, kind),
        Command::Hits { place, hits } => lists::set_hits(&mut d.list, place, hits),
        Command::EntriesLent(entries) => d.list.count = usize::from(entries),
        Command::Nothing => {}
    }
}

// The commands, one after the other; bytes after the last whole one are none.
fn run(rt: &impl Print, input: &[u8], ram: &mut [u8], journal: &mut [u16]) {
    let mut d = state::opened(ram, journal);
    let (commands, _) = input.as_chunks::<6>();
    for bytes in commands {
        obey(rt, &mut d, commands::read(bytes));
    }
}

fn main(rt: HostRuntime) {
    let mut input = input_room();
    let mut ram = ram_room();
    let mut journal = journal_room();
    let n = read_full(&mut rt.stdin(), &mut input);
    run(&rt, &input[..n], &mut ram, &mut journal);
}
