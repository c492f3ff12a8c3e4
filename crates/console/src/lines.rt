// Lines from a file or a terminal.
use crate::rows::Row;
use std::io::Read;

// How many bytes are read of a line that does not end.
const MOST: usize = 1000000;

// Why a line is not handed on: it is longer than the room for it, or does not end.
#[derive(Clone, Copy)]
pub enum Unfit {
    TooLong,
    Endless,
}

// One byte; None at the end.
fn byte(file: &mut impl Read) -> Option<u8> {
    let mut one = [0u8; 1];
    match file.read(&mut one) {
        Ok(1) => Some(one[0]),
        _ => None,
    }
}

// How many bytes a line has that has ended, of which so many were read; a carriage return before its end is no part of it.
fn ended(line: &[u8], read: usize) -> Result<usize, Unfit> {
    if line.len() < read {
        return Err(Unfit::TooLong);
    }
    match line {
        [front @ .., b'\r'] => Ok(front.len()),
        _ => Ok(line.len()),
    }
}

// The next line, put at the start of `out` without its newline: how many bytes it has; None at the input's end. A line that does not end within a million
// bytes is endless.
pub fn read(file: &mut impl Read, out: &mut [u8]) -> Result<Option<usize>, Unfit> {
    let mut line = Row::new(out);
    for i in 0..MOST {
        match byte(file) {
            None if i == 0 => return Ok(None),
            None | Some(b'\n') => return Ok(Some(ended(line.bytes(), i)?)),
            Some(b) => line.put(b),
        }
    }
    Err(Unfit::Endless)
}
