// The commands: one row of one table for each. Names are found in it, and help is printed from it.
use crate::rows::Row as Line;
use crate::{values, words};

#[derive(Clone, Copy, PartialEq, Eq)]
pub enum Command {
    Assemble,
    Back,
    Break,
    Csr,
    Do,
    Dump,
    Dumpd,
    Dumpw,
    Dumpwd,
    Execute,
    Help,
    Brief,
    History,
    Key,
    List,
    Load,
    Memset,
    Origin,
    Quit,
    Register,
    Reset,
    Rexecute,
    Save,
    Sent,
    Step,
    Tick,
    Watch,
}

// Why a word names no command.
#[derive(Clone, Copy)]
pub enum NoCommand {
    Unknown,
    Ambiguous,
}

// What is told of a command: its name and short names, what stands after the name, what it does, what else there is to know.
struct Row {
    command: Command,
    name: &'static [u8],
    shorts: &'static [&'static [u8]],
    usage: &'static [u8],
    does: &'static [u8],
    more: &'static [u8],
}

static ROWS: [Row; 27] = [
    Row {
        command: Command::Assemble,
        name: b"assemble",
        shorts: &[],
        usage: b"ADDR LINE",
        does: b"pokes the two bytes of an instruction",
        more: b"The line is an instruction as list shows it: assemble 0x100 mv r1, r2",
    },
    Row {
        command: Command::Back,
        name: b"back",
        shorts: &[b"ba"],
        usage: b"[N]",
        does: b"takes back the last step or input, or N of them",
        more: b"Registers, status registers, devices and memory are as they were before it.",
    },
    Row {
        command: Command::Break,
        name: b"break",
        shorts: &[b"b"],
        usage: b"[-] [ADDR]",
        does: b"stops execute before the instruction at an address",
        more: b"Without an address it lists the breaks and their hits. - deletes the break at an address, or all. With the watches there are 64 at most.",
    },
    Row {
        command: Command::Csr,
        name: b"csr",
        shorts: &[],
        usage: b"[NAME]",
        does: b"shows a status register, or all",
        more: b"A name is csr0 to csr15, or a number. Programs set them; the debugger does not.",
    },
    Row {
        command: Command::Do,
        name: b"do",
        shorts: &[],
        usage: b"FILE",
        does: b"does the commands in a file",
        more: b"Files may name files, 8 deep at most.",
    },
    Row {
        command: Command::Dump,
        name: b"dump",
        shorts: &[b"d"],
        usage: b"[ADDR [SIZE]]",
        does: b"shows memory: bytes in hexadecimal, and characters",
        more: b"Without an address it goes on where the last dump ended. Size 0 is 65536 bytes. A row's end tells which of its bytes are protected.",
    },
    Row {
        command: Command::Dumpd,
        name: b"dumpd",
        shorts: &[b"dd"],
        usage: b"[ADDR [SIZE]]",
        does: b"shows memory: bytes in decimal",
        more: b"Addresses and sizes are as of dump.",
    },
    Row {
        command: Command::Dumpw,
        name: b"dumpw",
        shorts: &[b"dw"],
        usage: b"[ADDR [SIZE]]",
        does: b"shows memory: words in hexadecimal",
        more: b"Addresses and sizes are as of dump.",
    },
    Row {
        command: Command::Dumpwd,
        name: b"dumpwd",
        shorts: &[b"dwd"],
        usage: b"[ADDR [SIZE]]",
        does: b"shows memory: words in decimal",
        more: b"Addresses and sizes are as of dump.",
    },
    Row {
        command: Command::Execute,
        name: b"execute",
        shorts: &[b"x", b"exe"],
        usage: b"[N]",
        does: b"runs N steps, or until the machine halts",
        more: b"It stops at breaks and watches. Without N it runs 65,535 steps at a time, and stops after 100 such runs. Only its last step's dropped bytes are told.",
    },
    Row {
        command: Command::Help,
        name: b"help",
        shorts: &[b"h"],
        usage: b"[COMMAND]",
        does: b"tells about a command, or about all",
        more: b"? has one line for each command.",
    },
    Row {
        command: Command::Brief,
        name: b"?",
        shorts: &[],
        usage: b"",
        does: b"one line for each command",
        more: b"Numbers are decimal (-1 too), 0x1a2b, 0b1010_0101, or characters as 'x' or 'xy'.",
    },
    Row {
        command: Command::History,
        name: b"history",
        shorts: &[b"hist"],
        usage: b"[FILE]",
        does: b"records commands in a file; without one it stops",
        more: b"Without a file it also tells how many records are held.",
    },
    Row {
        command: Command::Key,
        name: b"key",
        shorts: &[],
        usage: b"BYTE..",
        does: b"receives bytes from the keyboard",
        more: b"Each is refused while the last one was not taken (R is 1).",
    },
    Row {
        command: Command::List,
        name: b"list",
        shorts: &[],
        usage: b"[ADDR [COUNT]]",
        does: b"lists instructions, from pc on, 8 of them",
        more: b"The line at pc is marked.",
    },
    Row {
        command: Command::Load,
        name: b"load",
        shorts: &[],
        usage: b"FILE [ADDR]",
        does: b"pokes the bytes of an image into memory",
        more: b"An image is four hexadecimal digits, a newline, then bytes. The digits are its address, unless ADDR is given.",
    },
    Row {
        command: Command::Memset,
        name: b"memset",
        shorts: &[b"m"],
        usage: b"ADDR VALUE..",
        does: b"pokes values into memory",
        more: b"A value is a byte, a word (0x0012, 256, 'xy'), or a string in double quotes.",
    },
    Row {
        command: Command::Origin,
        name: b"origin",
        shorts: &[],
        usage: b"ADDR or NAME",
        does: b"steps back to just before the last input that changed it",
        more: b"ADDR is a byte of memory, NAME a register or status register. It says which input it was. Where no held record changed it, nothing is done.",
    },
    Row {
        command: Command::Quit,
        name: b"quit",
        shorts: &[b"q"],
        usage: b"",
        does: b"ends the desk",
        more: b"The end of the input does too.",
    },
    Row {
        command: Command::Register,
        name: b"register",
        shorts: &[b"r", b"reg"],
        usage: b"[NAME [VALUE]]",
        does: b"shows a register, or all, or sets one",
        more: b"A name is r0 to r15, sp, ca, ia, f, pc, or a number.",
    },
    Row {
        command: Command::Reset,
        name: b"reset",
        shorts: &[],
        usage: b"",
        does: b"resets the machine; memory stays",
        more: b"It is an input like others: back takes it back.",
    },
    Row {
        command: Command::Rexecute,
        name: b"rexecute",
        shorts: &[b"rx"],
        usage: b"[N]",
        does: b"steps back to a break, or past a store to a watch",
        more: b"It stops at a break's address, and when the step taken back had stored to a watched one; else after N, or where no record is held. Hits stay.",
    },
    Row {
        command: Command::Save,
        name: b"save",
        shorts: &[],
        usage: b"FILE [ADDR SIZE]",
        does: b"saves memory as an image",
        more: b"Without an address all of the RAM; size 0 is all up to its end.",
    },
    Row {
        command: Command::Sent,
        name: b"sent",
        shorts: &[],
        usage: b"",
        does: b"the keyboard took the byte in TXD",
        more: b"It is refused while nothing waits to be sent (T is 1).",
    },
    Row {
        command: Command::Step,
        name: b"step",
        shorts: &[b"s"],
        usage: b"[N]",
        does: b"does one instruction, or N",
        more: b"A halted machine refuses it. Breaks and watches do not stop it. A protected byte that it stored to is told: it stays.",
    },
    Row {
        command: Command::Tick,
        name: b"tick",
        shorts: &[],
        usage: b"[N]",
        does: b"the clock ticks, once or N times",
        more: b"Each tick is an input of its own.",
    },
    Row {
        command: Command::Watch,
        name: b"watch",
        shorts: &[b"w"],
        usage: b"[-] [ADDR]",
        does: b"stops execute after a store to an address",
        more: b"Without an address it lists the watches and their hits. - deletes the watch at an address, or all. Only stores are watched: watch w ADDR is the same.",
    },
];

// Whether a word is a row's name, or one of its short names.
fn is_named(row: &Row, word: &[u8]) -> bool {
    words::is_name(word, row.name) || row.shorts.iter().any(|short| words::is_name(word, short))
}

// The row that has the word for a name or a short name, or else the only one whose name it begins.
fn sought(word: &[u8]) -> Result<&'static Row, NoCommand> {
    let mut begun = Err(NoCommand::Unknown);
    for row in &ROWS {
        if is_named(row, word) {
            return Ok(row);
        }
        if words::is_front(word, row.name) {
            begun = match begun {
                Err(NoCommand::Unknown) => Ok(row),
                _ => Err(NoCommand::Ambiguous),
            };
        }
    }
    begun
}

// The command that a word names.
pub fn find(word: &[u8]) -> Result<Command, NoCommand> {
    Ok(sought(word)?.command)
}

// The first line of what is told: the name with what stands after it, and from the 26th place on what it does.
fn tell_use(rt: &impl Print, row: &Row) {
    let mut room = [b' '; 160];
    let mut line = Line::new(&mut room);
    line.put_all(row.name);
    line.put(b' ');
    line.put_all(row.usage);
    line.to(25);
    line.put_all(row.does);
    line.put(b'\n');
    line.write(rt);
}

fn tell_shorts(rt: &impl Print, shorts: &[&[u8]]) {
    let mut before: &[u8] = b"Short: ";
    for short in shorts {
        report::text(rt, before);
        report::text(rt, short);
        before = b", ";
    }
    if shorts.len() != 0 {
        report::text(rt, b". ");
    }
}

// Both lines. The second has the short names, and what else there is to know.
fn tell(rt: &impl Print, row: &Row) {
    tell_use(rt, row);
    report::text(rt, b"    ");
    tell_shorts(rt, row.shorts);
    report::text(rt, row.more);
    report::end(rt);
}

// Why a word names no command.
pub fn unfound(rt: &impl Print, why: NoCommand, word: &[u8]) {
    match why {
        NoCommand::Ambiguous => {
            values::complain(rt, b"more than one command begins so (? lists them)", word);
        }
        NoCommand::Unknown => values::complain(rt, b"no such command (? lists them)", word),
    }
}

// ?
pub fn brief(rt: &impl Print, line: &[u8]) {
    if values::is_end(rt, line) {
        for row in &ROWS {
            tell_use(rt, row);
        }
    }
}

// help [COMMAND]
pub fn help(rt: &impl Print, line: &[u8]) {
    let Some((word, rest)) = words::next(line) else {
        for row in &ROWS {
            tell(rt, row);
        }
        return;
    };
    if !values::is_end(rt, rest) {
        return;
    }
    match sought(word) {
        Ok(row) => tell(rt, row),
        Err(why) => unfound(rt, why, word),
    }
}
