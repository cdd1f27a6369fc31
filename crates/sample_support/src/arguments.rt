// What the arguments of a case name: files, and numbers of bytes. A line starts with the arguments of its case, so each is written to standard output before it
// is used.
//
//   read_file(rt, argument, buf)    writes the name of a file and a space, and reads it
//   room_of(rt, argument, most)     writes a number, and returns it, cut at the most
//   cases(count, size)              how many cases there are, each of so many arguments
//   put(rt, text)                   writes a text
//
// What went to standard output no contract can say, and a write that fails is not told: the line is then another one than is expected. Each takes any number of an
// argument; one that is missing, or longer than 4,096 bytes, is empty. A file whose name is not UTF-8 is not there, as std has it.
ghost use Rattle.std.specs.Prelude.{◌≡◌, ◌*◌, ◌-◌, ◌≤◌, IfSome};
ghost use Rattle.sample_support.specs.Samples.{cases, Front};

use std::io::Read;
use std::rt::{Env, Files};
use std::{fs, str};

// Writes a text to standard output.
pub fn put(rt: &impl Print, text: &[u8]) {
    let _ = rt.write_all(text);
}

// How many cases so many words make, the name of the program and its arguments, where each case has `size` arguments. What is left over is no case.
#[tactic(auto, unfolding(crate::specs::Samples::cases))]
pub fn cases(count: usize, size: usize) -> usize
    ensures value { result ≡ cases count size }
    ensures within { result * size ≤ count - 1 }
{
    if size == 0 {
        return 0;
    }
    count.saturating_sub(1) / size
}

// Reads until the buffer is full, the file ends or a read fails.
fn read_front<F: Read>(file: &mut F, buf: &mut [u8]) -> usize
    ensures { Front result buf.new }
{
    let mut done: usize = 0;
    for _ in 0..buf.len() {
        if done >= buf.len() {
            return done;
        }
        match file.read(&mut buf[done..]) {
            Ok(0) => return done,
            Ok(n) => done += n,
            Err(_) => return done,
        }
    }
    done
}

// Opens a file for reading.
fn open<R: Files>(rt: &R, path: &[u8]) -> Option<R::File> {
    let name = str::from_utf8(path).ok()?;
    fs::open(rt, name).ok()
}

// Reads the file that an argument names until the buffer is full, the file ends or a read fails, and returns how many of its bytes stand at the front of the buffer;
// `None` where there is no such file.
pub fn read_file<R: Env + Files + Print>(rt: &R, argument: usize, buf: &mut [u8]) -> Option<usize>
    ensures { IfSome result (λ n. Front n buf.new) }
{
    let mut path = super::buffers::line();
    let n = command_files::argument(rt, argument, &mut path);
    put(rt, &path[..n]);
    put(rt, b" ");
    let mut file = open(rt, &path[..n])?;
    Some(read_front(&mut file, buf))
}

// The number of bytes that an argument tells, at most so many.
pub fn room_of<R: Env + Print>(rt: &R, argument: usize, most: usize) -> usize
    ensures { result ≤ most }
{
    let mut text = super::buffers::line();
    let n = command_files::argument(rt, argument, &mut text);
    put(rt, &text[..n]);
    super::number_of(&text[..n], most)
}
