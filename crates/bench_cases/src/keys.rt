// Reset, host store and run pressed on one machine, for a small ST62 program.
use crate::sample::sample;
use crate::states::{put_report, put_state};
use bench::sequence::reset_store_run;
use machine::Machine;
use machine::state::fresh;
use std::io;

// The machine that the three keys leave, printed.
fn press(
    rt: &impl Print,
    what: &str,
    image: &[u8],
    m: Machine,
    address: u8,
    requests: &[u8],
    n: u32,
) -> io::Result<Machine> {
    let ran = reset_store_run(image, m, address, 0x30, requests, n);
    print!(rt; "{what}: ")?;
    put_report(rt, ran.report)?;
    put_state(rt, ran.machine)?;
    Ok(ran.machine)
}

pub fn put_keys(rt: &impl Print) -> io::Result<()> {
    let image = sample();
    let mut requests = [0u8; 10];
    requests[9] = 1;
    // STOP sleeps until NMI is requested at step 9. The second time the keys are pressed on the machine that the first
    // run left.
    let m = press(rt, "NMI wakes", &image, fresh(), 0x20, &requests, 12)?;
    press(rt, "again", &image, m, 0x20, &requests, 13)?;
    // A store to the ROM window is refused, and leaves the machine to the run as reset made it.
    press(rt, "store at 40h", &image, fresh(), 0x40, &requests, 4)?;
    Ok(())
}
