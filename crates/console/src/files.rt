// What is wrong with a file, said by the reason that the system gives.
use crate::values;
use std::fs;
use std::io::{Error, ErrorKind, Read, Result};
use std::os::fd::{AsRawFd, IntoRawFd};
use std::rt::Files;

// The system's numbers of the reasons that have words of their own. An error's kind would not do: EPERM is of one kind with EACCES.
const ENOENT: i32 = 2;

const EACCES: i32 = 13;

const EISDIR: i32 = 21;

const STDERR_FILENO: i32 = 2;

// What is said of a file that cannot be used; two of the reasons are told by each in its own words.
pub fn reason<'a>(error: &Error, forbidden: &'a [u8], otherwise: &'a [u8]) -> &'a [u8] {
    match error.raw_os_error() {
        Some(ENOENT) => b"there is no such file",
        Some(EACCES) => forbidden,
        Some(EISDIR) => b"this is a folder, not a file",
        _ => otherwise,
    }
}

fn refused(rt: &impl Print, error: &Error, otherwise: &[u8], path: &[u8]) {
    let why = reason(error, b"this file may not be opened by you", otherwise);
    values::complain(rt, why, path);
}

// A file that was not opened, with the reason for that.
pub fn unopened(rt: &impl Print, error: &Error, path: &[u8]) {
    refused(rt, error, b"the file cannot be opened", path);
}

// A file's name as the system takes it from here, which is as text.
pub fn name(path: &[u8]) -> Result<&str> {
    str::from_utf8(path).map_err(|_| Error::from(ErrorKind::InvalidInput))
}

fn opened<R: Files>(rt: &R, path: &[u8]) -> Result<R::File> {
    fs::open(rt, name(path)?)
}

// A file opened for reading, or none where that is not possible, which is said.
pub fn open<R: Files + Print>(rt: &R, path: &[u8]) -> Option<R::File> {
    match opened(rt, path) {
        Ok(file) => readable(rt, file, path),
        Err(e) => {
            unopened(rt, &e, path);
            None
        }
    }
}

// The file, if no bytes can be read from it: a folder can be opened, and not read.
fn readable<F: Read + Drop>(rt: &impl Print, file: F, path: &[u8]) -> Option<F> {
    let mut file = file;
    let mut none = [0u8; 1];
    match file.read(&mut none[0..0]) {
        Ok(_) => Some(file),
        Err(e) => {
            refused(rt, &e, b"the file cannot be read", path);
            None
        }
    }
}

// A file without bytes, which is closed.
pub fn empty<F: Drop>(rt: &impl Print, file: F, path: &[u8]) {
    values::complain(rt, b"the file is empty", path);
    drop(file);
}

// Where a standard descriptor is closed, a file would be opened in its place, and written over: so the empty device is.
pub fn hold_standard<R: Files>(rt: &R)
where
    R::File: AsRawFd + IntoRawFd,
{
    for _ in 0..3 {
        if let Ok(file) = fs::open(rt, "/dev/null") {
            if STDERR_FILENO < file.as_raw_fd() {
                return;
            }
            let _ = file.into_raw_fd();
        }
    }
}
