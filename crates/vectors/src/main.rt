// Runs the arithmetic unit, the instruction set and the names of registers on the vectors of the independent model; what it prints is compared with the model's answers.
#![tactic(auto)]

mod grid;
mod instructions;
mod shifts;

ghost use Rattle.std.specs.Prelude.{◌≡◌, length};

use report::input;

// The `ensures` gives only the length, so that no proof writes the zeros out.
fn room() -> [u8; 262144]
    ensures { 262144 ≡ length result }
{
    [0u8; 262144]
}

fn main(rt: HostRuntime) {
    let mut buffer = room();
    let n = input::read_full(&mut rt.stdin(), &mut buffer);
    instructions::run(&rt, &buffer[..n]);
}
