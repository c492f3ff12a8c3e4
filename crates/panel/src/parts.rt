// The state by its parts, as a person names them. It is held as the 32 words that the calls over the boundary work on.
ghost use Rattle.std.specs.Prelude.{◌≡◌, slice_index};

use bus::state::{Devices, Stretch};
use names::register;
use names::register::{Csr, Reg};

// The registers and the status registers, the clock's counter, the keyboard's registers and ready bits, and the halted mark.
#[derive(Clone, Copy)]
pub enum Part {
    Register(Reg),
    Status(Csr),
    Clock,
    Rxd,
    Txd,
    R,
    T,
    Halted,
}

// All parts, in the order in which they are shown: sixteen registers, sixteen status registers, the devices and the halted mark.
pub static ALL: [Part; 38] = [
    Part::Register(Reg { number: 0 }),
    Part::Register(Reg { number: 1 }),
    Part::Register(Reg { number: 2 }),
    Part::Register(Reg { number: 3 }),
    Part::Register(Reg { number: 4 }),
    Part::Register(Reg { number: 5 }),
    Part::Register(Reg { number: 6 }),
    Part::Register(Reg { number: 7 }),
    Part::Register(Reg { number: 8 }),
    Part::Register(Reg { number: 9 }),
    Part::Register(Reg { number: 10 }),
    Part::Register(Reg::SP),
    Part::Register(Reg::CA),
    Part::Register(Reg::IA),
    Part::Register(Reg::F),
    Part::Register(Reg::PC),
    Part::Status(Csr { number: 0 }),
    Part::Status(Csr { number: 1 }),
    Part::Status(Csr { number: 2 }),
    Part::Status(Csr { number: 3 }),
    Part::Status(Csr { number: 4 }),
    Part::Status(Csr { number: 5 }),
    Part::Status(Csr { number: 6 }),
    Part::Status(Csr { number: 7 }),
    Part::Status(Csr { number: 8 }),
    Part::Status(Csr { number: 9 }),
    Part::Status(Csr { number: 10 }),
    Part::Status(Csr { number: 11 }),
    Part::Status(Csr { number: 12 }),
    Part::Status(Csr { number: 13 }),
    Part::Status(Csr { number: 14 }),
    Part::Status(Csr { number: 15 }),
    Part::Clock,
    Part::Rxd,
    Part::Txd,
    Part::R,
    Part::T,
    Part::Halted,
];

static REGISTERS: [&[u8]; 16] = [
    b"r0", b"r1", b"r2", b"r3", b"r4", b"r5", b"r6", b"r7", b"r8", b"r9", b"r10", b"sp", b"ca",
    b"ia", b"f", b"pc",
];

static STATUS_REGISTERS: [&[u8]; 16] = [
    b"csr0", b"csr1", b"csr2", b"csr3", b"csr4", b"csr5", b"csr6", b"csr7", b"csr8", b"csr9",
    b"csr10", b"csr11", b"csr12", b"csr13", b"csr14", b"csr15",
];

fn name_in(names: &[&'static [u8]], number: u8) -> &'static [u8] {
    names.get(number as usize).copied().unwrap_or(b"")
}

fn word(state: &[u16; 32], n: usize) -> u16 {
    state.get(n).copied().unwrap_or(0)
}

// csr6 to csr15 read 0.
fn status(state: &[u16; 32], number: u8) -> u16 {
    match number {
        0..=5 => word(state, 16 + number as usize),
        _ => 0,
    }
}

impl Part {
    // What the part holds.
    pub fn value(self, state: &[u16; 32]) -> u16 {
        match self {
            Part::Register(register) => word(state, register.number as usize),
            Part::Status(csr) => status(state, csr.number),
            Part::Clock => word(state, 22),
            Part::Rxd => word(state, 23) % 256,
            Part::Txd => word(state, 23) / 256,
            Part::R => word(state, 24) % 2,
            Part::T => word(state, 24) / 2 % 2,
            Part::Halted => word(state, 24) / 4 % 2,
        }
    }

    pub fn name(self) -> &'static [u8] {
        match self {
            Part::Register(register) => name_in(&REGISTERS, register.number),
            Part::Status(csr) => name_in(&STATUS_REGISTERS, csr.number),
            Part::Clock => b"clock",
            Part::Rxd => b"RXD",
            Part::Txd => b"TXD",
            Part::R => b"R",
            Part::T => b"T",
            Part::Halted => b"halted",
        }
    }

    // The digits that it is shown with.
    pub fn width(self) -> usize {
        match self {
            Part::Register(_) | Part::Status(_) | Part::Clock => 4,
            Part::Rxd | Part::Txd => 2,
            Part::R | Part::T | Part::Halted => 1,
        }
    }
}

pub fn pc(state: &[u16; 32]) -> u16
    ensures { result ≡ slice_index state.now 15 }
{
    state[register::PC]
}

pub fn f(state: &[u16; 32]) -> u16
    ensures { result ≡ slice_index state.now 14 }
{
    state[register::F]
}

// How many records are held.
pub fn held(state: &[u16; 32]) -> u16
    ensures { result ≡ slice_index state.now 26 }
{
    state[26]
}

// The devices, by which memory is read as the processor reads it.
pub fn devices(state: &[u16; 32]) -> Devices {
    Devices {
        clock: Part::Clock.value(state),
        rxd: (Part::Rxd.value(state) % 256) as u8,
        txd: (Part::Txd.value(state) % 256) as u8,
        r: Part::R.value(state) == 1,
        t: Part::T.value(state) == 1,
    }
}

// The first and the last protected address.
pub fn stretch(state: &[u16; 32]) -> Stretch {
    Stretch {
        first: state[30],
        last: state[31],
    }
}
