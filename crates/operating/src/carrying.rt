// The calls that an order asks for, made.
use machine::Call;
use orders::{Order, RUNS};
use stopping::lent::Lent;
use telling::deeds;
use telling::outcomes::Outcome;
use word::sums;

// How many calls. Which call is made is data, as `call` says, and one loop makes them: closures would carry the same match. An order that goes by the breaks and watches, or asks for an origin, has none here.
fn count(order: Order) -> usize {
    match order {
        Order::Tick(n) | Order::Back(n) => usize::from(n),
        Order::Keys(bytes) | Order::Pokes(_, bytes) | Order::Code(_, bytes) => bytes.len(),
        Order::Steps(_) => 2,
        Order::Run(None) => RUNS,
        Order::Run(Some(_)) | Order::Sent | Order::Reset | Order::Set(_, _) => 1,
        Order::RunBack(_) | Order::Origin(_) => 0,
    }
}

fn byte_at(bytes: &[u8], i: usize) -> u8 {
    bytes.get(i).copied().unwrap_or(0)
}

fn poke(at: u16, i: usize, bytes: &[u8]) -> Call {
    Call::Poke(sums::plus(at, (i % 65536) as u16), byte_at(bytes, i))
}

// The first step alone, so that a halted machine refuses it, and the others as a run.
fn step(n: u16, i: usize) -> Call {
    if i == 0 {
        return Call::Step;
    }
    Call::Run(n.saturating_sub(1))
}

// A call by its number, from 0 on; where there is none, one that does nothing.
fn call(order: Order, i: usize) -> Call {
    match order {
        Order::Tick(_) => Call::Tick,
        Order::Back(_) => Call::Back,
        Order::Sent => Call::Sent,
        Order::Reset => Call::Reset,
        Order::Set(register, content) => Call::SetRegister(register.number, content),
        Order::Keys(bytes) => Call::Receive(byte_at(bytes, i)),
        Order::Pokes(at, bytes) | Order::Code(at, bytes) => poke(at, i, bytes),
        Order::Steps(n) => step(n, i),
        Order::Run(n) => Call::Run(n.unwrap_or(65535)),
        Order::RunBack(_) | Order::Origin(_) => Call::Run(0),
    }
}

// The calls made one after the other, until one is refused or the machine is halted.
pub fn carried(rt: &impl Print, order: Order, lent: &mut Lent) -> Outcome {
    let mut outcome = Outcome::default();
    for i in 0..count(order) {
        let c = call(order, i);
        let result = lent.cross(c);
        outcome = outcome.with(matches!(c, Call::Step), result);
        if outcome.is_last() {
            return outcome;
        }
        deeds::progress(rt, order, outcome.steps, lent.view());
    }
    outcome
}
