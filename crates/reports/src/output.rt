// Standard output and standard error.
ghost use Rattle.std.specs.Prelude.{◌≡◌, ℕ};
ghost use Rattle.reports.specs.Output.{code_of, exit_status};

use crate::Status;
use listing::Line;
use std::io;

// Where a text is written.
#[derive(Clone, Copy, Debug, PartialEq, Eq)]
pub enum Stream {
    Output,
    Error,
}

// A text could not be written. Of standard output, why has been said on standard error.
#[derive(Clone, Copy, Debug, PartialEq, Eq)]
pub struct NotWritten;

pub type Written = Result<(), NotWritten>;

// Writes a text to standard output or standard error.
pub fn put_to(rt: &HostRuntime, stream: Stream, text: &[u8]) -> Written {
    match stream {
        Stream::Output => put_text(rt, text),
        Stream::Error => rt.stderr().write_all(text).map_err(|_| NotWritten),
    }
}

// Writes a text to standard output. Why one could not be written is said on standard error.
pub fn put_text(rt: &HostRuntime, text: &[u8]) -> Written {
    match rt.stdout().write_all(text) {
        Ok(()) => Ok(()),
        Err(error) => {
            put_error(rt, b"st62: standard output: ");
            put_system_error(rt, &error);
            Err(NotWritten)
        }
    }
}

// Writes a line and its end.
pub fn put(rt: &HostRuntime, line: Line) -> Written {
    put_text(rt, line.bytes())?;
    put_text(rt, b"\n")
}

// Writes a text to standard error. One that cannot be written is lost: there is nowhere to say so.
pub fn put_error(rt: &HostRuntime, text: &[u8]) {
    let _ = rt.stderr().write_all(text);
}

// Ends a line on standard error with what the system says of an error, without its number.
pub fn put_system_error(rt: &HostRuntime, error: &io::Error) {
    match error.to_string(rt.alloc()) {
        Ok(text) => {
            let words = text.as_str();
            let reason = match words.split_once(" (os error ") {
                Some((before, _)) => before,
                None => words,
            };
            put_error(rt, reason.as_bytes());
        }
        Err(_) => put_error(rt, b"out of memory"),
    }
    put_error(rt, b"\n");
}

// How a program ends: by a status, or by any number.
pub trait StatusCode: Copy {
    ghost code: { Self → ℕ };

    // That not all of an answer could be written.
    fn failed() -> Self
        ensures { code result ≡ 2 };
}

impl StatusCode for Status {
    ghost code = { code_of };

    fn failed() -> Status {
        Status::Failed
    }
}

impl StatusCode for u8 {
    ghost code = { λ status. status };

    fn failed() -> u8 {
        u8::from(Status::Failed)
    }
}

// How the program ends: as the answer says, unless not all of it could be written.
pub fn finish<S: StatusCode>(status: S, written: Written) -> S
    ensures { S.code result ≡ exit_status (S.code status) written }
{
    match written {
        Ok(()) => status,
        Err(NotWritten) => S::failed(),
    }
}
