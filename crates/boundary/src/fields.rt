// The answer as one number of 64 bits.
ghost use Rattle.std.specs.Prelude.{◌≡◌, not, eqb};
ghost use Rattle.calls.specs.Calls.{W, cause_is, said_by};
ghost use Rattle.text.specs.Answer.{listed_as, assembled_as};
ghost use Rattle.boundary.specs.Boundary.{packed, cause_number, result_of, listed as listed_by, assembled as assembled_by};

use calls::state::{Answer, Run, Stop};
use text::assemble::NoWord;
use text::list::NoText;

pub fn pack(number: u8, steps: u16, bus: u32, cause: u8) -> u64
    ensures { result ≡ packed number steps bus cause }
{
    (number as u64)
        + 0x1_0000 * (steps as u64)
        + 0x1_0000_0000 * ((bus % 0x100_0000) as u64)
        + 0x100_0000_0000_0000 * (cause as u64)
}

fn cause(stop: Stop) -> u8
    ensures { result ≡ cause_number (cause_is stop) }
{
    match stop {
        Stop::Budget => 0,
        Stop::Halted => 1,
    }
}

fn ran(run: Run) -> u64
    ensures { result ≡ packed 0 run.steps run.bus (cause_number (cause_is run.stop)) }
{
    let stop = run.stop;
    pack(0, run.steps, run.bus, cause(stop))
}

pub fn said(answer: Answer) -> u64
    ensures { (w : W) → result ≡ result_of (said_by answer w) }
{
    match answer {
        Answer::Accepted => pack(0, 0, 0, 0),
        Answer::Stepped(bus) => pack(0, 0, bus, 0),
        Answer::Ran(run) => ran(run),
        Answer::Refused(why) => pack(u8::from(why), 0, 0, 0),
    }
}

pub fn is_refusal(answer: Answer) -> bool
    ensures { (w : W) → result ≡ not (eqb (said_by answer w).number 0) }
{
    matches!(answer, Answer::Refused(_))
}

// A text's length or a word, above the number.
fn text(number: u8, value: u16) -> u64
    ensures { result ≡ packed number value 0 0 }
{
    pack(number, value, 0, 0)
}

pub fn listed(answer: Result<usize, NoText>) -> u64
    ensures { result ≡ listed_by (listed_as answer) }
{
    match answer {
        Ok(length) => text(0, (length % 65536) as u16),
        Err(NoText::Reason2) => text(10, 0),
        Err(NoText::NoRoom) => text(11, 0),
    }
}

pub fn assembled(answer: Result<u16, NoWord>) -> u64
    ensures { result ≡ assembled_by (assembled_as answer) }
{
    match answer {
        Ok(word) => text(0, word),
        Err(NoWord::BadLine) => text(12, 0),
        Err(NoWord::BadMnemonic) => text(13, 0),
        Err(NoWord::BadOperand) => text(14, 0),
    }
}
