// Files by the arguments that name them.
ghost use Rattle.std.specs.Prelude.{◌≡◌, length, IfOk};
ghost use Rattle.io.specs.Counts.{IsPrefixLen};

use crate::arguments::{WORD, word_at};
use crate::failure::Said;
use reports::output::{put_error, put_system_error};
use std::fs::File;
use std::io::{Read, Write};
use std::{fs, io, str};

// One byte more than the longest record, and one more again, so that a buffer that is full means a file that is longer.
const FILE_SPACE: usize = 1048582;

// Room for a file. The `ensures` gives the length, which lending the array as a slice needs.
pub fn file_space() -> [u8; FILE_SPACE]
    ensures { 1048582 ≡ length result }
{
    [0; FILE_SPACE]
}

// Begins an error's line: `st62: FILE: `.
pub fn put_file_error(rt: &HostRuntime, argument: usize) {
    let mut path = [0u8; WORD];
    let length = word_at(rt, argument, &mut path);
    put_path(rt, &path[..length]);
}

fn put_path(rt: &HostRuntime, path: &[u8]) {
    put_error(rt, b"st62: ");
    put_error(rt, path);
    put_error(rt, b": ");
}

// Says why a call on a file failed: `st62: FILE: reason`.
pub fn put_failure(rt: &HostRuntime, path: &[u8], error: &io::Error) {
    put_path(rt, path);
    put_system_error(rt, error);
}

fn put_too_long(rt: &HostRuntime, path: &[u8]) {
    put_path(rt, path);
    put_error(rt, b"longer than any image or record\n");
}

// Reads until the file ends; how many bytes it has, which are fewer than the buffer.
// A loop: each turn goes on where the last read ended, which only that read tells.
fn read_rest(
    rt: &HostRuntime,
    file: &mut File,
    path: &[u8],
    buffer: &mut [u8],
) -> Result<usize, Said>
    ensures { IfOk result (λ done. IsPrefixLen done buffer.new) }
{
    let mut done = 0;
    while done < buffer.len() {
        match file.read(&mut buffer[done..]) {
            Err(error) => {
                put_failure(rt, path, &error);
                return Err(Said);
            }
            Ok(0) => return Ok(done),
            Ok(more) => done += more,
        }
    }
    put_too_long(rt, path);
    Err(Said)
}

// A path as the system's calls take it: text, or the error of one that is none.
fn path_of(path: &[u8]) -> io::Result<&str> {
    match str::from_utf8(path) {
        Ok(text) => Ok(text),
        Err(_) => Err(io::Error::new(io::ErrorKind::InvalidInput, "its name is not UTF-8")),
    }
}

fn open(rt: &HostRuntime, path: &[u8]) -> io::Result<File> {
    File::open(rt, path_of(path)?)
}

// Reads the file that an argument names; how many bytes it has.
pub fn read_file(rt: &HostRuntime, argument: usize, buffer: &mut [u8]) -> Result<usize, Said>
    ensures { IfOk result (λ done. IsPrefixLen done buffer.new) }
{
    let mut path = [0u8; WORD];
    let length = word_at(rt, argument, &mut path);
    match open(rt, &path[..length]) {
        Err(error) => {
            put_failure(rt, &path[..length], &error);
            Err(Said)
        }
        Ok(mut file) => read_rest(rt, &mut file, &path[..length], buffer),
    }
}

// Writes a new file whole, down to the disk, which tells what closing it would.
fn fill(file: &mut File, content: &[u8]) -> io::Result<()> {
    file.write_all(content)?;
    file.sync_all()
}

// Makes a file, and removes it again if it could not be written whole.
fn make_file(rt: &HostRuntime, path: &str, content: &[u8]) -> io::Result<()> {
    let mut file = File::create_new(rt, path)?;
    let filled = fill(&mut file, content);
    if filled.is_err() {
        let _ = fs::remove_file(rt, path);
    }
    filled
}

fn make_named(rt: &HostRuntime, path: &[u8], content: &[u8]) -> io::Result<()> {
    make_file(rt, path_of(path)?, content)
}

// Makes the file that an argument names. It takes no name that exists, so that it overwrites
// neither the image nor an older certificate; a file that could not be written whole is removed.
pub fn write_file(rt: &HostRuntime, argument: usize, content: &[u8]) -> Result<(), Said> {
    let mut path = [0u8; WORD];
    let length = word_at(rt, argument, &mut path);
    match make_named(rt, &path[..length], content) {
        Ok(()) => Ok(()),
        Err(error) => {
            put_failure(rt, &path[..length], &error);
            Err(Said)
        }
    }
}
