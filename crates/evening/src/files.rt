// Files that are read whole, and what is wrong with them.
use console::files::{name, reason};
use console::values::Said;
use console::{arguments, values, words};
use night::notes;
use report::input::read_full;
use std::fs::File;
use std::io::{Error, ErrorKind, Read, Result as IoResult};

// Why a file could not be opened or read.
fn unread(rt: &HostRuntime, error: &Error, path: &[u8]) -> Said {
    let why = reason(
        error,
        b"this file may not be read by you",
        b"the file cannot be read",
    );
    notes::complain(rt, why, path);
    Said
}

fn too_long(rt: &HostRuntime, path: &[u8], most: usize) -> Said {
    notes::begin(rt);
    report::text(&rt.stderr(), b"the file has more than ");
    report::decimal(&rt.stderr(), most as u64);
    report::text(&rt.stderr(), b" bytes: ");
    values::show(&rt.stderr(), path);
    notes::end(rt);
    Said
}

// Whether nothing more is to be read. What a read cannot get is not the end, and its reason is told.
fn at_end(file: &mut File) -> IoResult<()> {
    let mut one = [0u8; 1];
    match file.read(&mut one) {
        Ok(0) => Ok(()),
        Ok(_) => Err(Error::from(ErrorKind::Other)),
        Err(e) => Err(e),
    }
}

// All of an open file: how many bytes. The room has one byte more than the file may have.
fn contents(rt: &HostRuntime, file: &mut File, path: &[u8], out: &mut [u8]) -> Result<usize, Said> {
    let n = read_full(file, out);
    if n == out.len() {
        return Err(too_long(rt, path, n.saturating_sub(1)));
    }
    match at_end(file) {
        Ok(()) => Ok(n),
        Err(e) => Err(unread(rt, &e, path)),
    }
}

fn open(rt: &HostRuntime, path: &[u8]) -> IoResult<File> {
    File::open(rt, name(path)?)
}

fn read_path(rt: &HostRuntime, path: &[u8], out: &mut [u8]) -> Result<usize, Said> {
    match open(rt, path) {
        Ok(mut file) => contents(rt, &mut file, path, out),
        Err(e) => Err(unread(rt, &e, path)),
    }
}

// The bytes of the file that an argument names, in the room.
pub fn read<'a>(rt: &HostRuntime, argument: usize, out: &'a mut [u8]) -> Result<&'a [u8], Said> {
    let mut room = io::buffer();
    let path = arguments::argument(rt, argument, &mut room);
    if path.is_empty() {
        notes::say(rt, b"the name of a file is empty, or too long");
        return Err(Said);
    }
    let n = read_path(rt, path, out)?;
    Ok(words::front(out, n))
}

// What is said of the file that an argument names.
pub fn complain(rt: &HostRuntime, what: &[u8], argument: usize) {
    let mut room = io::buffer();
    let path = arguments::argument(rt, argument, &mut room);
    notes::complain(rt, what, path);
}

// A file of lines. One without lines is mentioned.
pub fn read_lines<'a>(
    rt: &HostRuntime,
    argument: usize,
    out: &'a mut [u8],
) -> Result<&'a [u8], Said> {
    let lines = read(rt, argument, out)?;
    if lines.is_empty() {
        complain(rt, b"the file is empty", argument);
    }
    Ok(lines)
}

// Whether lines can be written; where not, that is said.
pub fn is_output_open(rt: &HostRuntime) -> bool {
    if rt.write_some(b"").is_err() {
        notes::say(rt, b"standard output cannot be written");
        return false;
    }
    true
}
