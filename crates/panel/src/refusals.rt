// What the numbered refusals mean, in words.
ghost use Rattle.std.specs.Prelude.{◌≡◌, ◌<◌, None, IsSomeAnd};

// The refusals 1 to 14, in the order of their numbers; and any other, by its number.
#[derive(Clone, Copy, PartialEq, Eq)]
pub enum Refusal {
    RamTooLong,
    BadJournal,
    BadState,
    Halted,
    NotReady,
    NoRegister,
    NotRam,
    NoRecord,
    BadRecord,
    Reason2,
    NoRoom,
    BadLine,
    BadMnemonic,
    BadOperand,
    Other(u8),
}

impl Refusal {
    ghost use Rattle.panel.specs.Refusals.{number_of};

    // The refusal of a number; 0 is none.
    pub fn numbered(n: u8) -> Option<Refusal>
        ensures none { n ≡ 0 → result ≡ None }
        ensures some { 0 < n → IsSomeAnd result (λ why. number_of why ≡ n) }
    {
        match n {
            0 => None,
            1 => Some(Refusal::RamTooLong),
            2 => Some(Refusal::BadJournal),
            3 => Some(Refusal::BadState),
            4 => Some(Refusal::Halted),
            5 => Some(Refusal::NotReady),
            6 => Some(Refusal::NoRegister),
            7 => Some(Refusal::NotRam),
            8 => Some(Refusal::NoRecord),
            9 => Some(Refusal::BadRecord),
            10 => Some(Refusal::Reason2),
            11 => Some(Refusal::NoRoom),
            12 => Some(Refusal::BadLine),
            13 => Some(Refusal::BadMnemonic),
            14 => Some(Refusal::BadOperand),
            _ => Some(Refusal::Other(n)),
        }
    }

    // The number, and what it means.
    fn told(self) -> (u8, &'static [u8]) {
        match self {
            Refusal::RamTooLong => (1, b"the RAM is longer than 65,504 bytes"),
            Refusal::BadJournal => (2, b"the journal is no multiple of 32 words, or over 32,768"),
            Refusal::BadState => (
                3,
                b"the state does not fit the journal, or csr0 is over 511",
            ),
            Refusal::Halted => (4, b"the machine is halted (register f 0 revives it)"),
            Refusal::NotReady => (
                5,
                b"the last byte from the keyboard was not taken yet (R is 1)",
            ),
            Refusal::NoRegister => (6, b"there is no such register"),
            Refusal::NotRam => (7, b"not all of it is in RAM; nothing was stored"),
            Refusal::NoRecord => (8, b"no record is held to step back to"),
            Refusal::BadRecord => (9, b"the newest record is damaged"),
            Refusal::Reason2 => (10, b"the processor has no such opcode"),
            Refusal::NoRoom => (11, b"there is no room for the text"),
            Refusal::BadLine => (12, b"the line is not: word, blanks, word, comma, word"),
            Refusal::BadMnemonic => (13, b"unknown or unimplemented mnemonic"),
            Refusal::BadOperand => (14, b"operand unknown or of the wrong kind"),
            Refusal::Other(n) => (n, b""),
        }
    }

    pub fn say(self, rt: &impl Print) {
        let (number, meaning) = self.told();
        report::text(rt, b"refused ");
        report::decimal(rt, number as u64);
        report::text(rt, b": ");
        report::text(rt, meaning);
        report::end(rt);
    }

    // The refusal of a byte sent, which has a cause of its own.
    pub fn say_of_sent(self, rt: &impl Print) {
        match self {
            Refusal::NotReady => {
                report::text(rt, b"refused 5: no byte waits to be sent (T is 1)\n");
            }
            _ => self.say(rt),
        }
    }
}
