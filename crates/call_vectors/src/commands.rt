// The commands of the vectors: six bytes each, a kind, a byte y, and the words a and b, low byte first.
use machine::Call;
use word::halves;

#[derive(Clone, Copy)]
pub enum Command {
    Called(Call),
    WatchedRun(u16),
    // A word of the journal buffer, a byte of the RAM buffer.
    JournalWord { at: u16, word: u16 },
    RamByte { at: u16, byte: u8 },
    Csr0(u16),
    NextSlot(u16),
    RecordsHeld(u16),
    Register { number: u8, content: u16 },
    Halted(bool),
    Stretch { first: u16, last: u16 },
    // How much of the buffers is lent.
    RamLent(u16),
    JournalLent(u16),
    // A new scenario, with RAM filled from a byte.
    Started(u8),
    Shown,
    // The list of a watched run.
    Entry { place: u8, address: u16, kind: u16 },
    Hits { place: u8, hits: u16 },
    EntriesLent(u16),
    Nothing,
}

// A command's six bytes.
pub fn read(bytes: &[u8; 6]) -> Command {
    let [kind, y, a_low, a_high, b_low, b_high] = *bytes;
    named(
        kind,
        y,
        halves::join(a_low, a_high),
        halves::join(b_low, b_high),
    )
}

// The kinds, by their numbers.
fn named(kind: u8, y: u8, a: u16, b: u16) -> Command {
    match kind {
        0..=8 => Command::Called(call(kind, y, a)),
        9 => Command::JournalWord { at: a, word: b },
        10 => Command::Csr0(a),
        11 => Command::NextSlot(a),
        12 => Command::RecordsHeld(a),
        13 => Command::RamLent(a),
        14 => Command::JournalLent(a),
        15 => Command::Started(y),
        16 => Command::RamByte { at: a, byte: y },
        17 => Command::Shown,
        18 => Command::Register {
            number: y % 16,
            content: a,
        },
        19 => Command::Halted(y % 2 == 1),
        20 => Command::WatchedRun(a),
        21 => Command::Entry {
            place: y % 64,
            address: a,
            kind: b,
        },
        22 => Command::Hits {
            place: y % 64,
            hits: a,
        },
        23 => Command::EntriesLent(a),
        24 => Command::Stretch { first: a, last: b },
        _ => Command::Nothing,
    }
}

// Kinds 0 to 8.
fn call(kind: u8, y: u8, a: u16) -> Call {
    match kind {
        0 => Call::Step,
        1 => Call::Tick,
        2 => Call::Receive(y),
        3 => Call::Sent,
        4 => Call::SetRegister(y, a),
        5 => Call::Poke(a, y),
        6 => Call::Reset,
        7 => Call::Run(a),
        _ => Call::Back,
    }
}
