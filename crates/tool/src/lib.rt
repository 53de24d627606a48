// What the programs behind `./senghovai` share: the words of the command line, reading a circuit, coins or the tail of an archive, writing a record at the back
// of a file here and in a file's place in `replacing`, and how a program ends that cannot go on. Files are read up to a limit into arrays that the programs lend, so
// that an archive may have any size and no memory is asked for while all goes well.
#![tactic(auto)]

ghost use Rattle.std.specs.Prelude.{◌+◌, ◌*◌, ◌<◌, ◌≤◌, IfOk, IfSome, length};
ghost use Rattle.limits.specs.Limits.{most_operations, most_qubits};

mod replacing;

pub use replacing::save;
use std::env::Env;
use std::fs::{File, OpenOptions};
use std::io::{Error, ErrorKind, Read, Seek, SeekFrom, Write};
use std::rt::Files;
use std::{fs, io};

// Room for a word of the command line: the longest name of a file has 4,095 bytes.
pub const LONGEST_WORD: usize = 4096;

// One byte more than the longest circuit file, which tells that a file is longer.
pub const CIRCUIT_ROOM: usize = 131_073;

// One byte more than the longest coin file.
pub const COIN_ROOM: usize = 65_537;

// Why a program ends before its work is done: a line on standard error has said it, or reading or printing failed.
#[derive(Debug, Drop)]
pub enum Quit {
    Said,
    Failed(Error),
}

impl From<Error> for Quit {
    fn from(why: Error) -> Quit {
        Quit::Failed(why)
    }
}

// What `main` answers: where the reason was said, the program is at its end.
pub fn ended(done: Result<(), Quit>) -> io::Result<()> {
    match done {
        Err(Quit::Failed(why)) => Err(why),
        Ok(()) | Err(Quit::Said) => Ok(()),
    }
}

// The end that follows a line on standard error.
fn said(line: io::Result<()>) -> Quit {
    match line {
        Ok(()) => Quit::Said,
        Err(why) => Quit::Failed(why),
    }
}

fn no_name(rt: &impl Eprint) -> Quit {
    said(rt.eprintln("a file's name is missing or too long: ./senghovai prints the words to give"))
}

// What the system says of an error, without the number that std puts behind it.
fn words(told: &str) -> &str {
    told.split_once(" (os error ")
        .map_or(told, |(words, _)| words)
}

fn say_cannot<R: Eprint + Alloc>(rt: &R, what: &str, name: &[u8], why: Error) -> io::Result<()> {
    let name = String::from_utf8_lossy(rt.alloc(), name)?;
    let told = format!(in rt.alloc(); "{why}")?;
    let why = words(told.as_str());
    eprintln!(rt; "{what}: {name}: {why}")
}

// One line on standard error: what could not be done, to which file, and why.
fn cannot<R: Eprint + Alloc>(rt: &R, what: &str, name: &[u8], why: Error) -> Quit {
    said(say_cannot(rt, what, name, why))
}

// The i-th word of the command line, at the front of the lent buffer; none where it is missing or has no room there.
pub fn word<'b>(rt: &impl Env, i: usize, buf: &'b mut [u8]) -> Option<&'b [u8]>
    ensures { IfSome result (λ word. length word.now ≤ length buf.old) }
{
    let n = rt.arg(i, buf).ok()?;
    Some(&buf[..n])
}

// The name as a path of std, which has to be UTF-8.
fn path(name: &[u8]) -> io::Result<&str> {
    std::str::from_utf8(name).map_err(|_| Error::new(
        ErrorKind::InvalidFilename,
        "the name is not in UTF-8",
    ))
}

fn open_read<R: Files>(rt: &R, name: &[u8]) -> io::Result<R::File> {
    fs::open(rt, path(name)?)
}

// Goes to the start, reads a byte and goes back, which fails where a file cannot be read from any place.
fn read_one<F: Read + Seek>(file: &mut F) -> io::Result<()> {
    file.seek(SeekFrom::Start(0))?;
    file.read(&mut [0])?;
    file.seek(SeekFrom::Start(0))?;
    Ok(())
}

// The file that the i-th word names, for reading. Only a file that can be read from any place is taken.
pub fn open_word<R: Files + Env + Eprint + Alloc>(rt: &R, i: usize) -> Result<R::File, Quit> {
    let mut buf = [0u8; LONGEST_WORD];
    let name = word(rt, i, &mut buf).ok_or_else(|| no_name(rt))?;
    let mut file = open_read(rt, name).map_err(|why| cannot(
        rt,
        "cannot open, name a file that can be read",
        name,
        why,
    ))?;
    read_one(&mut file).map_err(|why| cannot(rt, "cannot read, name a regular file", name, why))?;
    Ok(file)
}

// Reads from the file's position until the buffer is full or the file ends, and closes it.
fn fill<F: Read + Drop>(mut file: F, buf: &mut [u8]) -> io::Result<&[u8]>
    ensures { IfOk result (λ bytes. length bytes.now ≤ length buf.old) }
{
    let mut done = 0;
    while done < buf.len() {
        let n = file.read(&mut buf[done..])?;
        if n == 0 {
            break;
        }
        done += n;
    }
    Ok(&buf[..done])
}

// The bytes of the file that the i-th word names, which has fewer than there is room for.
fn read_below<'b, R: Files + Env + Eprint + Alloc>(
    rt: &R,
    i: usize,
    room: &'b mut [u8],
    too_long: &str,
) -> Result<&'b [u8], Quit>
    requires { 0 < length room.old }
    ensures { IfOk result (λ bytes. length bytes.now < length room.old) }
{
    let file = open_word(rt, i)?;
    let most = room.len() - 1;
    let bytes = fill(file, room)?;
    if most < bytes.len() {
        return Err(said(eprintln!(rt; "{too_long}: give a file of at most {most} bytes")));
    }
    Ok(bytes)
}

// The circuit of the file that the first word names.
pub fn circuit<'b, R: Files + Env + Eprint + Alloc>(
    rt: &R,
    room: &'b mut [u8; CIRCUIT_ROOM],
) -> Result<&'b [u8], Quit>
    ensures { IfOk result (λ bytes. length bytes.now < CIRCUIT_ROOM) }
{
    read_below(rt, 1, room, "the circuit is too long")
}

// The coins of the file that the second word names.
pub fn coins<'b, R: Files + Env + Eprint + Alloc>(
    rt: &R,
    room: &'b mut [u8; COIN_ROOM],
) -> Result<&'b [u8], Quit>
    ensures { IfOk result (λ bytes. length bytes.now < COIN_ROOM) }
{
    read_below(rt, 2, room, "there are too many coins")
}

// As many bytes as the longest record has at the end of the file that the i-th word names, or all of it where there are fewer.
pub fn tail<'b, R: Files + Env + Eprint + Alloc>(
    rt: &R,
    i: usize,
    room: &'b mut [u8; limits::LONGEST_RECORD],
) -> Result<&'b [u8], Quit>
    ensures { IfOk result (λ bytes. length bytes.now ≤ most_operations + 2 * most_qubits * (1 + most_qubits) + 12) }
{
    let mut file = open_word(rt, i)?;
    if file
        .seek(SeekFrom::End(-(limits::LONGEST_RECORD as i64)))
        .is_err()
    {
        file.seek(SeekFrom::Start(0))?;
    }
    Ok(fill(file, room)?)
}

// Prints the bytes as a line.
pub fn print_line(rt: &impl Print, bytes: &[u8]) -> io::Result<()> {
    rt.write_all(bytes)?;
    rt.write_all(b"\n")
}

// The file of that name for writing at its back, made where it is missing.
fn open_back<R: Files>(rt: &R, name: &[u8]) -> io::Result<R::File> {
    let path = path(name)?;
    match OpenOptions::new().append(true).open(rt, path) {
        Ok(file) => Ok(file),
        Err(_) => File::create_new(rt, path),
    }
}

// Puts the bytes at the back of the file that the i-th word names.
pub fn append<R: Files + Env + Eprint + Alloc>(rt: &R, i: usize, bytes: &[u8]) -> Result<(), Quit> {
    let mut buf = [0u8; LONGEST_WORD];
    let name = word(rt, i, &mut buf).unwrap_or(b"");
    let mut file = open_back(rt, name).map_err(|why| cannot(
        rt,
        "cannot write, name a file that can be written",
        name,
        why,
    ))?;
    file.write_all(bytes).map_err(|why| cannot(
        rt,
        "written in part, make room and do it again",
        name,
        why,
    ))
}
