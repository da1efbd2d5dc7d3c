// The command `st62`: from an assembler's file to an answer. Every decision stands in a function on slices; what reads
// arguments and files, and what writes, is thin and at the rim (`arguments`, `files`, `reports::output`).
#![tactic(auto)]

mod arguments;
mod certify;
mod check;
mod failure;
mod files;
mod help;
mod image;
mod list;
mod marks;
mod play;
mod size;
mod trace;

use failure::Failure;
use options::places::PLACES;
use reports::Status;
use std::process::ExitCode;

// Does what the arguments ask for.
fn st62(rt: &HostRuntime) -> Result<Status, Failure> {
    let mut places = [0usize; PLACES];
    let command = arguments::read_arguments(rt, &mut places)?;
    arguments::run(rt, command, &places)
}

fn main(rt: HostRuntime) -> ExitCode {
    let status = match st62(&rt) {
        Ok(status) => status,
        Err(Failure::Usage(usage)) => help::put_usage(&rt, usage),
        Err(Failure::Said) => Status::Failed,
    };
    ExitCode::from(u8::from(status))
}
