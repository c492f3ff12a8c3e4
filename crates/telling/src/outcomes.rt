// What calls, made one after the other, leave.
use panel::refusals::Refusal;

// How many were accepted, the steps that they did with their bus bytes, whether the last run halted, and the last call's refusal, if it was refused.
#[derive(Clone, Copy, Default)]
pub struct Outcome {
    pub calls: u64,
    pub steps: u64,
    pub bus: u64,
    pub is_halted: bool,
    pub refusal: Option<Refusal>,
}

// The steps by a call's result, which has those of a run; a lone step is one.
fn steps(is_step: bool, outcome: u64) -> u64 {
    if is_step {
        1
    } else {
        outcome / 0x1_0000 % 0x1_0000
    }
}

impl Outcome {
    // Whether nothing was done: the first call was refused.
    pub fn is_refused(self) -> bool {
        (self.calls == 0) & self.refusal.is_some()
    }

    // Whether no call is to follow.
    pub fn is_last(self) -> bool {
        self.is_halted | self.refusal.is_some()
    }

    // One call more, by its result as the boundary gives it: the number of the refusal in the lowest 16 bits, then the steps, the bus bytes in 24 bits, and the cause.
    pub fn with(self, is_step: bool, outcome: u64) -> Outcome {
        if outcome % 0x1_0000 != 0 {
            return Outcome {
                refusal: Refusal::numbered((outcome % 256) as u8),
                ..self
            };
        }
        Outcome {
            calls: self.calls.saturating_add(1),
            steps: self.steps.saturating_add(steps(is_step, outcome)),
            bus: self
                .bus
                .saturating_add(outcome / 0x1_0000_0000 % 0x100_0000),
            is_halted: outcome / 0x100_0000_0000_0000 == 1,
            refusal: None,
        }
    }

    // Why a call was refused, if one was.
    pub fn say(self, rt: &impl Print) {
        if let Some(why) = self.refusal {
            why.say(rt);
        }
    }
}
