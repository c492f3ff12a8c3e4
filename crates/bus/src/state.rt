// The processor's state and the device registers.
ghost use Rattle.std.specs.Prelude.{◌≡◌};
ghost use Rattle.bus.specs.State.{reset as reset_of, unprotected as none_of};

// The clock's counter, the keyboard's registers and its ready bits.
#[derive(Clone, Copy)]
pub struct Devices {
    pub clock: u16,
    pub rxd: u8,
    pub txd: u8,
    pub r: bool,
    pub t: bool,
}

// The first and the last protected address, fixed at start; a first above the last means none.
#[derive(Clone, Copy)]
pub struct Stretch {
    pub first: u16,
    pub last: u16,
}

// No protected address.
pub fn unprotected() -> Stretch
    ensures { result ≡ none_of }
{
    Stretch { first: 1, last: 0 }
}

// What the state has beside registers and CSRs. It goes through a step and a run as one value, so that a new part of it changes the parameters of no function of either.
#[derive(Clone, Copy)]
pub struct Board {
    pub devices: Devices,
    pub halted: bool,
    pub stretch: Stretch,
}

#[derive(Clone, Copy)]
pub struct Cpu {
    pub regs: [u16; 16],
    pub csrs: [u16; 6],
    pub board: Board,
}

// The state at the start and after a reset, of a machine with these protected addresses.
#[tactic(auto, unfolding(crate::specs::State::reset))]
pub fn reset(stretch: Stretch) -> Cpu
    ensures { result ≡ reset_of stretch }
{
    Cpu {
        regs: [0; 16],
        csrs: [0; 6],
        board: Board {
            devices: Devices {
                clock: 0,
                rxd: 0,
                txd: 0,
                r: false,
                t: true,
            },
            halted: false,
            stretch,
        },
    }
}
