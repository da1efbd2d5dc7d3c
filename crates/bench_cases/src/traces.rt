// Small programs, step by step: the cycles, where the byte came from that the step read, and the machine after it. Then
// again as one run, with its report.
use crate::programs;
use crate::programs::image_of;
use crate::states::{put_origin, put_report, put_state};
use data::Origin;
use machine::run::run;
use machine::state::fresh;
use machine::step::step;
use printing::put_refusal;
use std::io;

// Where the byte of a step's data operand came from, a dash where it read none.
fn put_read(rt: &impl Print, read: Option<Origin>) -> io::Result<()> {
    match read {
        Some(origin) => put_origin(rt, origin),
        None => print!(rt; "-"),
    }
}

// Each step's report, and the machine that it left. Past the list's end a step has no request.
pub fn put_steps(rt: &impl Print, image: &[u8], requests: &[u8], n: usize) -> io::Result<()> {
    let mut m = fresh();
    for i in 0..n {
        let stepped = step(image, m, requests.get(i).copied().unwrap_or(0));
        let report = stepped.report;
        m = stepped.machine;
        match report.answer {
            Ok(cycles) => {
                print!(rt; "{cycles}  ")?;
                put_read(rt, report.read)?;
                print!(rt; "  ")?;
                put_state(rt, m)?;
            }
            Err(refusal) => {
                put_refusal(rt, refusal)?;
                return println!(rt; "");
            }
        }
    }
    Ok(())
}

pub fn put_run(rt: &impl Print, image: &[u8], requests: &[u8], n: u32) -> io::Result<()> {
    let ran = run(image, fresh(), requests, n);
    print!(rt; "run: ")?;
    put_report(rt, ran.report)?;
    put_state(rt, ran.machine)
}

fn put_trace(rt: &impl Print, title: &str, code: &[u8], requests: &[u8], n: u16) -> io::Result<()> {
    let image = image_of(code);
    println!(rt; "{title}")?;
    put_steps(rt, &image, requests, n as usize)?;
    put_run(rt, &image, requests, n as u32)
}

pub fn put_traces(rt: &impl Print) -> io::Result<()> {
    put_trace(rt, "Arithmetic and flags", &programs::ARITHMETIC, &[], 14)?;
    put_trace(
        rt,
        "Data space, pointers and bits",
        &programs::DATA,
        &[],
        14,
    )?;
    put_trace(rt, "The ROM window", &programs::WINDOW, &[], 8)?;
    put_trace(
        rt,
        "Registers that cannot be read",
        &programs::WRITE_ONLY,
        &programs::ASKED_TWICE,
        15,
    )?;
    put_trace(rt, "Subroutines", &programs::SUBROUTINES, &[], 9)?;
    put_trace(rt, "A seventh level", &[0x01, 0x10], &[], 9)?;
    put_trace(rt, "RET on an empty stack", &[0xCD], &[], 3)?;
    put_trace(rt, "An undefined opcode", &[0x04, 0x05], &[], 4)?;
    put_trace(
        rt,
        "Requests, sleep and modes",
        &programs::REQUESTS,
        &programs::ASKED,
        20,
    )
}
