// What stays from command to command.
use crate::buffers;
use crate::buffers::Buffer;
use calls::state::Machine;
use entries::Points;

#[derive(Drop)]
pub struct Desk<'a> {
    pub machine: Machine,
    pub list: Points,
    pub digest: u64,
    pub ram: Buffer<'a, u8>,
    pub journal: Buffer<'a, u16>,
    pub line: u16,
}

// The machine as at the start, with no protected address.
fn unprotected() -> Machine {
    calls::state::start(bus::state::unprotected())
}

// Before the first command.
pub fn opened<'a>(ram: &'a mut [u8], journal: &'a mut [u16]) -> Desk<'a> {
    Desk {
        machine: unprotected(),
        list: entries::none(),
        digest: 1,
        ram: Buffer { all: ram, lent: 0 },
        journal: Buffer {
            all: journal,
            lent: 0,
        },
        line: 0,
    }
}

// A new scenario: what is lent stays lent, and the lines go on.
pub fn start(d: &mut Desk, from: u8) {
    buffers::fill(d.ram.all, from);
    d.journal.all.fill(0);
    d.machine = unprotected();
    d.list = entries::none();
    d.digest = 1;
}
