// load and save: images in files.
ghost use Rattle.std.specs.Prelude.{◌≡◌, length};

use crate::{Order, stores};
use console::rows::Row;
use console::values::Said;
use console::{arguments, files, paths, values, words};
use image::header;
use report::input;
use std::env::Env;
use std::fs;
use std::io::{Read, Result as IoResult, Write};
use std::rt::Files;

// Room for a header, 65,536 bytes, and one more that says that the image is too long. Its `ensures` gives only the length, so that no proof writes the zeros out.
pub fn room() -> [u8; 65542]
    ensures { 65542 ≡ length result }
{
    [0u8; 65542]
}

// All of an open file, as far as there is room; that it has no bytes is said.
fn contents<'a, F: Read + Drop>(
    rt: &impl Print,
    file: F,
    path: &[u8],
    out: &'a mut [u8],
) -> Result<&'a [u8], Said> {
    let mut file = file;
    let n = input::read_full(&mut file, out);
    if n == 0 {
        files::empty(rt, file, path);
        return Err(Said);
    }
    Ok(words::front(out, n))
}

// An image's address, and its bytes, which stand in the room behind their header.
#[derive(Clone, Copy)]
struct Image<'a> {
    at: u16,
    bytes: &'a [u8],
}

fn checked<'a>(rt: &impl Print, read: &'a [u8], path: &[u8]) -> Result<Image<'a>, Said> {
    match header::read_header(read) {
        Some(at) => Ok(Image {
            at,
            bytes: read.get(5..).unwrap_or(b""),
        }),
        None => {
            values::complain(
                rt,
                b"no header of four hexadecimal digits and a newline",
                path,
            );
            Err(Said)
        }
    }
}

fn read_image<'a>(
    rt: &(impl Print + Files),
    path: &[u8],
    out: &'a mut [u8],
) -> Result<Image<'a>, Said> {
    let Some(file) = files::open(rt, path) else {
        return Err(Said);
    };
    let read = contents(rt, file, path, out)?;
    checked(rt, read, path)
}

// The image that is to go to RAM, at its own address or at one that is given.
fn placed<'a>(
    rt: &(impl Print + Files),
    path: &[u8],
    given: Option<u16>,
    ram: usize,
    out: &'a mut [u8],
) -> Result<Image<'a>, Said> {
    let image = read_image(rt, path, out)?;
    let at = given.unwrap_or(image.at);
    let n = image.bytes.len();
    if !stores::is_within(at, n, ram) {
        values::complain(rt, b"not all of its bytes would be in RAM", path);
        return Err(Said);
    }
    stores::tell(rt, b"loaded", n, at);
    Ok(Image {
        at,
        bytes: image.bytes,
    })
}

// The image that the desk is started with, if any, in memory before the machine starts.
pub fn start_image(
    rt: &(impl Print + Files + Env),
    argument: Option<usize>,
    ram: &mut [u8],
) -> Result<(), Said> {
    let Some(i) = argument else {
        return Ok(());
    };
    let mut path = io::buffer();
    let path = arguments::argument(rt, i, &mut path);
    let mut out = room();
    let image = placed(rt, path, None, ram.len(), &mut out)?;
    let mut row = Row::new(ram);
    row.to(image.at as usize);
    row.put_all(image.bytes);
    Ok(())
}

// load FILE [ADDR]
pub fn load<'a>(
    rt: &(impl Print + Files),
    line: &[u8],
    ram: usize,
    out: &'a mut [u8],
) -> Result<Order<'a>, Said> {
    let mut path = io::buffer();
    let (n, rest) = paths::name(rt, line, &mut path)?;
    let at = values::only(rt, rest)?;
    let image = placed(rt, words::front(&path, n), at, ram, out)?;
    Ok(Order::Pokes(image.at, image.bytes))
}

// The header and the bytes, into an open file.
fn write(file: &mut impl Write, at: u16, saved: &[u8]) -> IoResult<()> {
    let mut room = [0u8; 5];
    let mut header = Row::new(&mut room);
    header.put_hex(at, 4);
    header.put(b'\n');
    file.write_all(header.bytes())?;
    file.write_all(saved)
}

// A file to write to, without the bytes that it had.
fn created<R: Files>(rt: &R, path: &[u8]) -> IoResult<R::File> {
    fs::create(rt, files::name(path)?)
}

fn save_to(rt: &(impl Print + Files), path: &[u8], at: u16, saved: &[u8]) -> Result<(), Said> {
    let mut file = match created(rt, path) {
        Ok(file) => file,
        Err(e) => {
            files::unopened(rt, &e, path);
            return Err(Said);
        }
    };
    if write(&mut file, at, saved).is_err() {
        values::complain(rt, b"the file could not be written", path);
        return Err(Said);
    }
    stores::tell(rt, b"saved", saved.len(), at);
    Ok(())
}

// The size that has to stand after an address, and nothing behind it.
fn size_given(rt: &impl Print, line: &[u8]) -> Result<u16, Said> {
    let (size, rest) = values::needed(rt, line, b"a size is needed after the address")?;
    if values::is_end(rt, rest) {
        Ok(size)
    } else {
        Err(Said)
    }
}

// The bytes to save: without a size, or with the size 0, all up to the end of RAM.
fn stretch(ram: &[u8], at: u16, size: u16) -> Option<&[u8]> {
    let rest = ram.get(at as usize..)?;
    match size {
        0 => Some(rest),
        _ => rest.get(..size as usize),
    }
}

// save FILE [ADDR SIZE]
pub fn save(rt: &(impl Print + Files), line: &[u8], ram: &[u8]) -> Result<(), Said> {
    let mut path = io::buffer();
    let (n, rest) = paths::name(rt, line, &mut path)?;
    let path = words::front(&path, n);
    let (address, rest) = values::number(rt, rest)?;
    let (at, size) = match address {
        Some(at) => (at, size_given(rt, rest)?),
        None => (0, 0),
    };
    match stretch(ram, at, size) {
        Some(saved) => save_to(rt, path, at, saved),
        None => {
            values::complain(
                rt,
                b"not all of these addresses are RAM; nothing was saved",
                path,
            );
            Err(Said)
        }
    }
}
