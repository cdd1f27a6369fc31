// Reading a file to its end and writing a text whole, by std's single reads and writes.
//
//   open(files, path)        opens a file for reading
//   read_whole(file, buf)    reads until the buffer is full or the input ends, or tells that a read failed
//   write_whole(file, text)  writes a text, or tells that a write failed
//   after_call(got, errno, buf)   tells what came of one call
//   argument(env, number, word)   an argument of the program, and argument_count(env) how many there are
//
// What a call does to a file of the system is in no contract of the kit, so of such a file no contract here says which bytes were read or written, nor which file it
// was: a program that reads or writes elsewhere, or makes no call, meets those of `open`, `read_whole` and `write_whole`. Of a reader or a writer that says which bytes
// it gives or holds, as one over memory does, they say that all of them came, in order, where they answer that the whole was read or written. What is made of a call's
// answer is an equation (`after_call`). The rest is tried by tests/command, with calls that fail or move one byte.
//
// A reader that takes a read that fails for the end of the input can't be used here: a block that was cut short must never
// look like a whole one. A call that a signal interrupts (EINTR) is made again; any other failure is told. `open` leaves that to std, which makes
// an interrupted open again.
#![tactic(auto)]

ghost use Rattle.std.specs.Prelude.{◌≡◌, ◌↔◌, length, pos, IsErrAnd};
ghost use Rattle.std.specs.IoError.{error_kind};
ghost use Rattle.std.specs.Io.{WritesAtMost};
ghost use Rattle.command_files.specs.Transfers.{turn_of, Answered, IsPrefixLen, Taken, Reads, Gone, Writes, Found};

use std::env::FillError;
use std::fs::File;
use std::io::{ErrorKind, Read, Write};
use std::rt::{Env, Files};
use std::{fs, io, str};

// The number of the error of a call that a signal interrupted, as the system has it.
const EINTR: i32 = 4;

// The number of an error of input or output: of any error that isn't the system's.
const EIO: i32 = 5;

// The most calls that are made for one file or text: far more than it has bytes, so only a call that is interrupted again and again reaches it.
const CALLS: u32 = 4000000000;

// An input that was not read to its end, or a text that was not written whole.
#[derive(Clone, Copy)]
pub struct Incomplete;

// What came of one call of read or write. A `Result` of an `Option` would say less plainly which of the four it was.
#[derive(Drop)]
pub enum Turn {
    // So many bytes at the front were moved.
    Moved(usize),
    // None was moved: the end of the input, or no room for more.
    Ended,
    // A signal came first: the call is to be made again.
    Interrupted,
    Failed,
}

// Tells what came of a call of read or write, by what it answered, errno and the bytes that it was handed.
#[tactic(auto, unfolding(crate::specs::Transfers::turn_of, crate::specs::Transfers::interrupted))]
pub fn after_call(got: isize, errno: i32, buf: &[u8]) -> Turn
    ensures { result ≡ turn_of got errno (length buf.now) }
{
    if got == 0 {
        return Turn::Ended;
    }
    if got < 0 {
        if errno == EINTR {
            return Turn::Interrupted;
        }
        return Turn::Failed;
    }
    let moved = got as usize;
    Turn::Moved(moved.min(buf.len()))
}

// The number of an error, by which `after_call` tells what came of the call.
fn number_of(error: &io::Error) -> i32
    ensures { result ≡ pos 4 ↔ error_kind error.now ≡ ErrorKind.Interrupted }
{
    if error.kind() == ErrorKind::Interrupted {
        return EINTR;
    }
    match error.raw_os_error() {
        Some(EINTR) => EIO,
        Some(number) => number,
        None => EIO,
    }
}

// Tells what came of a call of std's read or write, which was handed these bytes.
#[tactic(auto, unfolding(crate::specs::Transfers::turn_of, crate::specs::Transfers::interrupted))]
fn after_answer(answer: io::Result<usize>, buf: &[u8]) -> Turn
    requires { WritesAtMost answer buf.now }
    ensures answered { Answered answer result }
    ensures interrupted { result ≡ Turn.Interrupted ↔ IsErrAnd answer (λ e. error_kind e ≡ ErrorKind.Interrupted) }
{
    match answer {
        Ok(moved) => match isize::try_from(moved) {
            Ok(got) => after_call(got, 0, buf),
            Err(_) => Turn::Moved(moved),
        },
        Err(error) => after_call(-1, number_of(&error), buf),
    }
}

// Reads until the buffer is full or the input ends, and returns how many bytes stand at the front of the buffer. A read that fails is told, wherever it happens.
pub fn read_whole<R: Read>(file: &mut R, buf: &mut [u8]) -> Result<usize, Incomplete>
    ensures taken { Taken result buf.new }
    ensures bytes { Reads (R.remaining file.old) (R.remaining file.new) result buf.new }
{
    let mut done: usize = 0;
    for _ in 0..CALLS {
        if done >= buf.len() {
            return Ok(done);
        }
        let answer = file.read(&mut buf[done..]);
        match after_answer(answer, &buf[done..]) {
            Turn::Moved(n) => done += n,
            Turn::Ended => return Ok(done),
            Turn::Interrupted => {}
            Turn::Failed => return Err(Incomplete),
        }
    }
    Err(Incomplete)
}

// Writes a text whole; on an error some of it may have been written.
pub fn write_whole<W: Write>(file: &mut W, text: &[u8]) -> Result<(), Incomplete>
    ensures gone { Gone text.now result }
    ensures bytes { Writes (W.contents file.old) (W.contents file.new) text.now result }
{
    let mut done: usize = 0;
    for _ in 0..CALLS {
        if done >= text.len() {
            return Ok(());
        }
        let answer = file.write(&text[done..]);
        match after_answer(answer, &text[done..]) {
            Turn::Moved(n) => done += n,
            Turn::Ended => return Err(Incomplete),
            Turn::Interrupted => {}
            Turn::Failed => return Err(Incomplete),
        }
    }
    Err(Incomplete)
}

// Opens a file for reading, if there is one. A path is UTF-8, as std has it: of any other there is no file.
pub fn open(files: &impl Files<File = File>, path: &[u8]) -> Option<File>
    ensures { Found path.now result }
{
    if path.len() == 0 {
        return None;
    }
    let name = str::from_utf8(path).ok()?;
    fs::open(files, name).ok()
}

// Puts an argument at the front of the buffer, and returns how many bytes it has: none where it is missing or longer than the buffer.
pub fn argument(env: &impl Env, number: usize, word: &mut [u8]) -> usize
    ensures { IsPrefixLen result word.new }
{
    env.arg(number, word).unwrap_or(0)
}

// How many arguments there are, with the name of the program.
pub fn argument_count(env: &impl Env) -> usize {
    for number in 0..usize::MAX {
        if let Err(FillError::NotPresent) = env.arg(number, &mut []) {
            return number;
        }
    }
    usize::MAX
}
