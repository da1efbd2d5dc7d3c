// Runs what no proof repeats: the manual's worked examples beside document 01's P1 to P12 (which
// specs/BenchCases.antt has, proved), small programs step by step and as a run, some of them in pages, bytes read with their origins, keys
// pressed on one machine, the lines that jobs print, the widths of programs for the gauge, certificates as they are
// made, and records played.
#![tactic(auto)]

mod examples;
mod jumps;
mod keys;
mod lines;
mod making;
mod pages;
mod parts;
mod playing;
mod programs;
mod readings;
mod sample;
mod sizing;
mod states;
mod traces;
mod widths;

use std::io;

fn main(rt: HostRuntime) -> io::Result<()> {
    examples::put_examples(&rt)?;
    jumps::put_jumps(&rt)?;
    traces::put_traces(&rt)?;
    pages::put_pages(&rt)?;
    readings::put_readings(&rt)?;
    keys::put_keys(&rt)?;
    lines::put_lines(&rt)?;
    widths::put_widths(&rt)?;
    making::put_making(&rt)?;
    playing::put_playings(&rt)
}
