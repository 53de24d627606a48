// A file replaced at once: the bytes are written to a new file beside it, which then takes its name, so that a crash leaves the old file or the new.

use crate::{LONGEST_WORD, Quit, cannot, no_name, path, word};
use arrayvec::ArrayString;
use std::env::Env;
use std::fmt::Write as _;
use std::fs::{self, File, OpenFile};
use std::io::{self, Error, ErrorKind, Write};
use std::rt::Files;

// What stands behind the name of the file beside, before its digit.
const MARK: &str = ".new";

type Name = ArrayString<LONGEST_WORD>;

// Makes the file of the name with the mark and that digit, where there is none.
fn create<R: Files>(rt: &R, name: &str, digit: u8) -> io::Result<(Name, R::File)> {
    let mut beside = Name::new();
    write!(beside, "{name}{MARK}{digit}").map_err(|_| Error::from(ErrorKind::InvalidFilename))?;
    let file = File::create_new(rt, beside.as_str())?;
    Ok((beside, file))
}

// The same with the first digit from 0 to 9 for which there is no such file.
fn create_free<R: Files>(rt: &R, name: &[u8]) -> io::Result<(Name, R::File)> {
    let name = path(name)?;
    let mut made = create(rt, name, 0);
    for digit in 1..=9 {
        match made {
            Err(why) if why.kind() == ErrorKind::AlreadyExists => made = create(rt, name, digit),
            _ => break,
        }
    }
    made
}

// Writes the bytes to the open file, sees that they have reached its device, and closes it.
fn put_all<F: Write + OpenFile + Drop>(mut file: F, bytes: &[u8]) -> io::Result<()> {
    file.write_all(bytes)?;
    file.sync_all()
}

// Why no file could be made beside the one named.
fn not_made<R: Eprint + Alloc>(rt: &R, name: &[u8], why: Error) -> Quit {
    let what = if why.kind() == ErrorKind::AlreadyExists {
        "cannot write, remove what broken runs left, named .new0 to .new9"
    } else {
        "cannot write, name a file that can be written"
    };
    cannot(rt, what, name, why)
}

fn rename<R: Files>(rt: &R, from: &str, to: &[u8]) -> io::Result<()> {
    fs::rename(rt, from, path(to)?)
}

// Makes the file that the i-th word names hold the bytes alone. They are written beside it first, so that a crash leaves the old file or the new; where that
// fails, the file beside is removed.
pub fn save<R: Files + Env + Eprint + Alloc>(rt: &R, i: usize, bytes: &[u8]) -> Result<(), Quit> {
    let mut buf = [0u8; LONGEST_WORD];
    let name = match word(rt, i, &mut buf) {
        Some(name) if !name.is_empty() && name.len() + MARK.len() < LONGEST_WORD => name,
        _ => return Err(no_name(rt)),
    };
    let (beside, file) = create_free(rt, name).map_err(|why| not_made(rt, name, why))?;
    let give_up = |what: &str, why: Error| {
        let _ = fs::remove_file(rt, beside.as_str());
        cannot(rt, what, name, why)
    };
    put_all(file, bytes).map_err(|why| give_up(
        "not written, and left as it was, make room and do it again",
        why,
    ))?;
    rename(rt, beside.as_str(), name).map_err(|why| give_up(
        "cannot be replaced, name a file that can be written",
        why,
    ))
}
