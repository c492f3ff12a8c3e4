// What stays from command to command, beside the machine, its memory and the journal.
use panel::dumps::Spot;
use std::fs::File;
use std::io::{IsTerminal, Write};
use std::os::fd::AsRawFd;
use stops::list;
use stops::list::Stops;

#[derive(Drop)]
pub struct Desk {
    pub dump: Spot,
    // Breaks and watches.
    pub stops: Stops,
    // The file that commands are recorded in, if any.
    pub log: Option<File>,
    // The command files that are open, the outermost first, and how many they are: nothing may grow here.
    pub files: [Option<File>; 8],
    pub depth: usize,
    pub is_terminal: bool,
    pub is_over: bool,
}

pub fn opened<R: Input>(rt: &R) -> Desk
where
    R::Reader: IsTerminal,
{
    Desk {
        dump: Spot { at: 0, size: 16 },
        stops: list::none(),
        log: None,
        files: [None, None, None, None, None, None, None, None],
        depth: 0,
        is_terminal: rt.reader().is_terminal(),
        is_over: false,
    }
}

// The file that the next command comes from; none where that is standard input.
pub fn source(d: &mut Desk) -> Option<&mut File> {
    let depth = d.depth;
    if (depth == 0) | (8 < depth) {
        return None;
    }
    d.files[depth - 1].as_mut()
}

// Commands come from this file now; the caller sees that there is room.
pub fn enter(d: &mut Desk, file: File) {
    let depth = d.depth;
    if depth < 8 {
        d.files[depth] = Some(file);
        d.depth = depth + 1;
    }
}

// The end of where commands come from: of a file, back to what named it; of standard input, the end.
pub fn leave(rt: &impl Print, d: &mut Desk) {
    let depth = d.depth;
    if depth == 0 {
        if d.is_terminal {
            report::end(rt);
        }
        d.is_over = true;
        return;
    }
    if depth <= 8 {
        d.files[depth - 1] = None;
    }
    d.depth = depth - 1;
}

// What of a desk says, before a command, whether the command is to be recorded: the system's number of the file that commands are recorded in, and the depth.
#[derive(Clone, Copy)]
pub struct Mark {
    log: Option<i32>,
    depth: usize,
}

fn log_number(d: &Desk) -> Option<i32> {
    d.log.as_ref().map(|file| file.as_raw_fd())
}

pub fn marked(d: &Desk) -> Mark {
    Mark {
        log: log_number(d),
        depth: d.depth,
    }
}

// A command, given before and done after, into the file that commands are recorded in. Those of files are not, since their `do` is, nor is `history`.
pub fn log(before: Mark, after: &mut Desk, line: &[u8]) {
    if (before.depth != 0) | (before.log != log_number(after)) {
        return;
    }
    if let Some(file) = &mut after.log {
        let _ = file.write_all(line);
        let _ = file.write_all(b"\n");
    }
}
