// Addresses: RAM below its length, the device registers, and nothing else.
ghost use Rattle.std.specs.Prelude.{◌≡◌};
ghost use Rattle.bus.specs.Addresses.{device_byte, byte_at, word_at, device_after, dropped, bus, put_byte, put_word};

use crate::state::{Board, Devices, Stretch};
use word::{choice, halves, sums};

const TXD: u16 = 0xffe0;

const RXD: u16 = 0xffe1;

const READY: u16 = 0xffe2;

const CLOCK_LOW: u16 = 0xfff0;

const CLOCK_HIGH: u16 = 0xfff1;

#[tactic(auto, unfolding(crate::specs::Addresses::device_byte))]
fn device_byte(v: Devices, a: u16) -> u8
    ensures { result ≡ device_byte v a }
{
    match a {
        RXD => v.rxd,
        READY => (choice::weigh(v.r, 1) + choice::weigh(v.t, 2)) as u8,
        CLOCK_LOW => halves::low(v.clock),
        CLOCK_HIGH => halves::high(v.clock),
        _ => 0,
    }
}

#[tactic(auto, unfolding(crate::specs::Addresses::byte_at))]
pub fn read_byte(v: Devices, ram: &[u8], a: u16) -> u8
    ensures { result ≡ byte_at v ram.now a }
{
    let i = a as usize;
    if i < ram.len() {
        ram[i]
    } else {
        device_byte(v, a)
    }
}

#[tactic(auto, unfolding(crate::specs::Addresses::word_at))]
pub fn read_word(v: Devices, ram: &[u8], a: u16) -> u16
    ensures { result ≡ word_at v ram.now a }
{
    halves::join(read_byte(v, ram, a), read_byte(v, ram, sums::plus(a, 1)))
}

#[tactic(auto, unfolding(crate::specs::Addresses::device_after))]
fn device_after(v: Devices, a: u16, b: u8) -> Devices
    ensures { result ≡ device_after v a b }
{
    match a {
        TXD if v.t => Devices {
            txd: b,
            t: false,
            ..v
        },
        RXD => Devices { r: false, ..v },
        _ => v,
    }
}

// Whether a store by an instruction to this address is dropped, where RAM has so many bytes. By `&`, and not by a range's `contains`, so that no test is a branch.
#[tactic(auto, unfolding(crate::specs::Addresses::dropped))]
pub fn drops(p: Stretch, ram: usize, a: u16) -> bool
    ensures { result ≡ dropped p ram a }
{
    ((a as usize) < ram) & ((p.first <= a) & (a <= p.last))
}

#[tactic(auto, unfolding(crate::specs::Addresses::put_byte))]
pub fn write_byte(b: Board, ram: &mut [u8], a: u16, x: u8) -> Board
    ensures { bus result ram.new ≡ put_byte (bus b ram.old) a x }
{
    let p = b.stretch;
    if drops(p, ram.len(), a) {
        return b;
    }
    let i = a as usize;
    if i < ram.len() {
        ram[i] = x;
        return b;
    }
    let v = b.devices;
    let mut u = b;
    u.devices = device_after(v, a, x);
    u
}

#[tactic(auto, unfolding(crate::specs::Addresses::put_word))]
pub fn write_word(b: Board, ram: &mut [u8], a: u16, w: u16) -> Board
    ensures { bus result ram.new ≡ put_word (bus b ram.old) a w }
{
    let u = write_byte(b, ram, a, halves::low(w));
    write_byte(u, ram, sums::plus(a, 1), halves::high(w))
}
