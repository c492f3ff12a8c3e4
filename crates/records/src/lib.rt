// The journal record: 32 words that keep the state before an input, and the bytes that it wrote over.
#![tactic(auto)]

ghost use Rattle.std.specs.Prelude.{◌≡◌};
ghost use Rattle.bus.specs.State.{cpu, board};
ghost use Rattle.bus.specs.declared.state.Stretch.{Stretch};
ghost use Rattle.records.specs.Record.{marks as marks_of, part, words_of, record_with, undo_from, sound};
ghost use Rattle.records.specs.Code.{undo_as};

use bus::state::{Board, Cpu, Devices, Stretch};
use word::{bits, choice, halves};

// What a record keeps.
#[derive(Clone, Copy)]
pub struct Before {
    pub cpu: Cpu,
    pub count: u16,
    pub first: u16,
    pub low: u8,
    pub high: u8,
}

fn marks(r: bool, t: bool, halted: bool) -> u16
    ensures { result ≡ marks_of r t halted }
{
    choice::weigh(r, 1) + choice::weigh(t, 2) + choice::weigh(halted, 4)
}

fn packed(
    g: [u16; 16],
    k: [u16; 6],
    clock: u16,
    keyboard: u16,
    bits: u16,
    count: u16,
    first: u16,
    old: u16,
) -> [u16; 32]
    ensures { result ≡ words_of g k clock keyboard bits count first old }
{
    [
        g[0], g[1], g[2], g[3], g[4], g[5], g[6], g[7], g[8], g[9], g[10], g[11], g[12], g[13],
        g[14], g[15], k[0], k[1], k[2], k[3], k[4], k[5], clock, keyboard, bits, count, first, old,
        0, 0, 0, 0,
    ]
}

// The state before an input, but for the protected addresses; the bytes that the input wrote, their first address, the old bytes.
#[tactic(auto, unfolding(crate::specs::Record::record_with))]
pub fn encode(
    g: [u16; 16],
    k: [u16; 6],
    v: Devices,
    halted: bool,
    count: u8,
    first: u16,
    old: u16,
) -> [u16; 32]
    ensures { (p : Stretch) → result ≡ record_with (cpu g k (board v halted p)) count first old }
{
    let keyboard = halves::join(v.rxd, v.txd);
    let bits = marks(v.r, v.t, halted);
    packed(g, k, v.clock, keyboard, bits, count as u16, first, old)
}

fn registers(w: [u16; 32]) -> [u16; 16]
    ensures { result ≡ part 16 w 0 }
{
    let mut regs = [0; 16];
    regs.copy_from_slice(&w[..16]);
    regs
}

fn control(w: [u16; 32]) -> [u16; 6]
    ensures { result ≡ part 6 w 16 }
{
    let mut csrs = [0; 6];
    csrs.copy_from_slice(&w[16..22]);
    csrs
}

// What the words keep, of a machine with these protected addresses.
#[tactic(auto, unfolding(crate::specs::Record::undo_from))]
pub fn decode(w: [u16; 32], stretch: Stretch) -> Before
    ensures { undo_from stretch w ≡ undo_as result }
{
    let [rxd, txd] = w[23].to_le_bytes();
    let [low, high] = w[27].to_le_bytes();
    Before {
        cpu: Cpu {
            regs: registers(w),
            csrs: control(w),
            board: Board {
                devices: Devices {
                    clock: w[22],
                    rxd,
                    txd,
                    r: bits::bit(w[24], 0),
                    t: bits::bit(w[24], 1),
                },
                halted: bits::bit(w[24], 2),
                stretch,
            },
        },
        count: w[25],
        first: w[26],
        low,
        high,
    }
}

#[tactic(auto, unfolding(crate::specs::Record::sound))]
pub fn is_sound(w: [u16; 32]) -> bool
    ensures { result ≡ sound w }
{
    // `w[28..].iter().all(..)` behind `&&` was tried: the proof didn't close.
    (w[16] <= 511)
        & ((w[24] <= 7)
            & ((w[25] <= 2) & ((w[28] == 0) & ((w[29] == 0) & ((w[30] == 0) & (w[31] == 0))))))
}
