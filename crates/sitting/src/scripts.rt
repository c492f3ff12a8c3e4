// do and history: commands from a file, and into one.
use crate::state;
use crate::state::Desk;
use console::values::Said;
use console::{files, paths, values, words};
use std::fs::{File, OpenOptions};
use std::io::{Result as IoResult, Seek, SeekFrom};
use std::rt::Files;

// Commands come from the file until it ends; then they come from where this one came from.
fn enter(rt: &(impl Print + Files<File = File>), d: &mut Desk, path: &[u8]) {
    if 8 <= d.depth {
        values::complain(rt, b"files of commands are nested more than 8 deep", path);
        return;
    }
    let Some(mut file) = files::open(rt, path) else {
        return;
    };
    if is_empty(&mut file) {
        files::empty(rt, file, path);
        return;
    }
    state::enter(d, file);
}

// Whether there is no byte to read. Where that can be told only by reading, as of a pipe, there is one.
fn is_empty(file: &mut impl Seek) -> bool {
    let size = file.seek(SeekFrom::End(0));
    let _ = file.seek(SeekFrom::Start(0));
    matches!(size, Ok(0))
}

// The only word after a command's name, as a file's name in `out`: its length.
fn alone(rt: &impl Print, line: &[u8], out: &mut [u8]) -> Result<usize, Said> {
    let (n, rest) = paths::name(rt, line, out)?;
    if values::is_end(rt, rest) {
        Ok(n)
    } else {
        Err(Said)
    }
}

// do FILE
pub fn follow(
    rt: &(impl Print + Files<File = File>),
    d: &mut Desk,
    line: &[u8],
) -> Result<(), Said> {
    let mut path = io::buffer();
    let n = alone(rt, line, &mut path)?;
    enter(rt, d, words::front(&path, n));
    Ok(())
}

// A file to append to; a new one where there is none.
fn open_log<R: Files>(rt: &R, path: &[u8]) -> IoResult<R::File> {
    let text = files::name(path)?;
    match OpenOptions::new().append(true).open(rt, text) {
        Ok(file) => Ok(file),
        Err(_) => OpenOptions::new()
            .write(true)
            .create_new(true)
            .open(rt, text),
    }
}

fn record(rt: &(impl Print + Files<File = File>), d: &mut Desk, path: &[u8]) {
    match open_log(rt, path) {
        Ok(file) => {
            report::text(rt, b"commands are recorded in ");
            values::show(rt, path);
            report::end(rt);
            d.log = Some(file);
        }
        Err(e) => files::unopened(rt, &e, path),
    }
}

// How many steps can be taken back.
fn told(rt: &impl Print, held: u16, slots: usize) {
    report::decimal(rt, u64::from(held));
    report::text(rt, b" of ");
    report::decimal(rt, slots as u64);
    report::text(rt, b" records held; commands are not recorded\n");
}

// history [FILE], where so many records are held of those that there is room for.
pub fn history(
    rt: &(impl Print + Files<File = File>),
    d: &mut Desk,
    line: &[u8],
    held: u16,
    slots: usize,
) -> Result<(), Said> {
    if words::next(line).is_none() {
        told(rt, held, slots);
        d.log = None;
        return Ok(());
    }
    let mut path = io::buffer();
    let n = alone(rt, line, &mut path)?;
    record(rt, d, words::front(&path, n));
    Ok(())
}
