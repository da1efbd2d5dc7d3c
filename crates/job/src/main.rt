// The job program: reads a job from standard input, and prints the line that answers it (document 01, "Job program").
#![tactic(auto)]

ghost use Rattle.std.specs.Prelude.{◌≤◌, IfOk, length};

use jobs::answer::answer;
use std::io;
use std::io::Read;

// Reads until the input ends or the buffer is full, and answers how much that is. The library's way to read to the end
// fills a Vec, and no heap is used.
fn read_job(rt: &HostRuntime, job: &mut [u8]) -> io::Result<usize>
    ensures { IfOk result (λ n. n ≤ length job.new) }
{
    let mut input = rt.stdin();
    let mut done = 0;
    while done < job.len() {
        match input.read(&mut job[done..])? {
            0 => return Ok(done),
            more => done += more,
        }
    }
    Ok(done)
}

fn print_answer(rt: &impl Print, job: &[u8]) -> io::Result<()> {
    let mut line = [0u8; 16];
    match answer(job, &mut line) {
        Ok(length) => rt.write_all(&line[..length]),
        Err(_) => Ok(()),
    }
}

fn main(rt: HostRuntime) -> io::Result<()> {
    // One byte more than the longest job, so that a longer one is seen to be too long.
    let mut job = [0u8; 8197];
    let length = read_job(&rt, &mut job)?;
    print_answer(&rt, &job[..length])
}
