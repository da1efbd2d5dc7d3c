// `st62 trace`: a fresh machine, step by step.
ghost use Rattle.std.specs.Prelude.{◌≤◌};

use crate::arguments::{argument_count, read_argument, read_as, value_of};
use crate::failure::Failure;
use crate::image::{image_start, load_image, subject_of};
use bench::services::{ended_request, latest_source};
use control::Control;
use isa::{Refusal, Source};
use listing::Line;
use listing::instruction::instruction;
use listing::pages::{choices_in, paged_address};
use machine::state::fresh;
use machine::step::step;
use machine::{Action, Machine, StepReport, Stepped, request_in};
use options::Command;
use options::by_number::Usage;
use options::image::SPACE;
use options::numbers::decimal_of;
use options::places::{AWAITED, PLACES, Place};
use options::wired::request_of;
use reports::Status;
use reports::answers::{Subject, put_end, refusal_line};
use reports::changes::changes;
use reports::explain::put_reason;
use reports::machine_lines::{bank_of, counted, read_name};
use reports::output::{Written, finish, put};

// A request byte for each step of the longest trace.
const MOST_STEPS: usize = 65536;

// The columns of a line, without those that an address with its page takes.
const PC: usize = 7;

const WHAT: usize = 12;

const READ: usize = 30;

const CHANGED: usize = 40;

// How many columns more an address has where there are several pages.
fn page_columns(length: usize) -> usize
    ensures { result ≤ 2 }
{
    if 1 < choices_in(length) { 2 } else { 0 }
}

fn source_name(line: Line, source: Source) -> Line {
    match source {
        Source::Nmi => line.word(b"nmi"),
        Source::First => line.letter(b'1'),
        Source::Second => line.letter(b'2'),
        Source::Third => line.letter(b'3'),
        Source::Fourth => line.letter(b'4'),
    }
}

// What a step does: it takes a request, sleeps on, or executes an instruction.
fn what(line: Line, action: Action, pc: u16) -> Line {
    match action {
        Action::Takes(source) => source_name(line.word(b"takes "), source),
        Action::Idles => line.word(b"sleeps"),
        Action::Executes(decoded) => instruction(line, decoded.instruction, pc),
        Action::Refused(_) => line,
    }
}

// The step's number, the address, and what it does.
fn begin_line(length: usize, m: Machine, action: Action, number: u16) -> Line {
    let c = m.control;
    let wide = page_columns(length);
    let line = Line::new().decimal(u32::from(number)).spaces_to(PC);
    let line = paged_address(line, length, bank_of(m), c.pc);
    what(line.spaces_to(WHAT + wide), action, c.pc)
}

// A step's line: its number, the address, what it does, where its data operand came from, levels, cycles, and what changed, which may be
// nothing or much.
fn step_line(
    begun: Line,
    length: usize,
    before: Machine,
    after: Machine,
    report: StepReport,
    cycles: u8,
) -> Line {
    let wide = page_columns(length);
    let told = read_name(
        begun.spaces_to(READ + wide),
        length,
        bank_of(before),
        report.read,
    );
    let line = told
        .spaces_to(CHANGED + wide)
        .word(b"levels ")
        .decimal(u32::from(after.control.levels))
        .word(b", ");
    changes(counted(line, u32::from(cycles), b"cycle"), before, after)
}

// Where a taken request will come back to, and which request's service a RETI ends. The address has no page: which one
// is in place is for the data byte at 0CAh to say, and a service may change it.
fn service_note(
    line: Line,
    before: Control,
    after: Control,
    taken: Option<Source>,
    latest: Source,
) -> Line {
    if taken.is_some() {
        return line.word(b"; comes back to ").address(before.pc);
    }
    match ended_request(before.mode, after.mode, latest) {
        Some(source) => source_name(line.word(b"; ends "), source),
        None => line,
    }
}

// Writes the line of a step that completed. `latest` is the source taken last.
fn put_step(
    rt: &HostRuntime,
    number: u16,
    length: usize,
    before: Machine,
    stepped: Stepped,
    latest: Source,
    cycles: u8,
) -> Written {
    let after = stepped.machine;
    let action = stepped.report.action;
    let begun = begin_line(length, before, action, number);
    let line = step_line(begun, length, before, after, stepped.report, cycles);
    let taken = request_in(action);
    put(
        rt,
        service_note(line, before.control, after.control, taken, latest),
    )
}

// Why a step was refused or stopped, after the job program's line of it. A stop leaves the machine as it was.
fn put_stop(
    rt: &HostRuntime,
    image: &[u8],
    subject: Subject,
    m: Machine,
    refusal: Refusal,
) -> Written {
    put(rt, refusal_line(Line::new(), refusal))?;
    if subject.quiet {
        return Ok(());
    }
    put_reason(rt, image, bank_of(m), b"", 0, refusal)?;
    put_end(rt, image, subject)
}

// The steps of a fresh machine, up to the first that stops, or whose line cannot be written.
fn put_steps(
    rt: &HostRuntime,
    image: &[u8],
    requests: &[u8; MOST_STEPS],
    steps: u16,
    subject: Subject,
) -> Status {
    let mut m = fresh();
    let mut latest = Source::Nmi;
    for i in 0..steps {
        let stepped = step(image, m, requests[usize::from(i)]);
        match stepped.report.answer {
            Ok(cycles) => {
                latest = latest_source(latest, request_in(stepped.report.action));
                let written = put_step(rt, i, image.len(), m, stepped, latest, cycles);
                if written.is_err() {
                    return finish(Status::Done, written);
                }
            }
            Err(refusal) => {
                return finish(
                    Status::Refused,
                    put_stop(rt, image, subject, stepped.machine, refusal),
                );
            }
        }
        m = stepped.machine;
    }
    finish(Status::Done, put_end(rt, image, subject))
}

// Reads an argument as the command line is read, and notes the request that it gives, if any: within the steps, where
// one is awaited.
fn note_request(
    rt: &HostRuntime,
    places: &mut [usize; PLACES],
    argument: usize,
    steps: u16,
    requests: &mut [u8; MOST_STEPS],
) -> Result<(), Usage> {
    let awaited = places[AWAITED];
    let _ = read_argument(rt, places, Command::Trace, argument);
    if awaited != Place::Request.number() {
        return Ok(());
    }
    match read_as(rt, argument, |word| request_of(word)) {
        Some((at, bit)) if at < steps => {
            requests[usize::from(at)] |= bit;
            Ok(())
        }
        _ => Err(Usage::BadValue {
            place: Place::Request.number(),
            argument,
        }),
    }
}

// The requests of all arguments, or the first that is none.
fn read_requests(
    rt: &HostRuntime,
    steps: u16,
    requests: &mut [u8; MOST_STEPS],
) -> Result<(), Usage> {
    let mut places = [0usize; PLACES];
    for argument in 2..argument_count(rt) {
        note_request(rt, &mut places, argument, steps, requests)?;
    }
    Ok(())
}

pub fn run(rt: &HostRuntime, places: &[usize; PLACES], file: &mut [u8]) -> Result<Status, Failure> {
    let steps = value_of(rt, places, Place::Steps, |word| decimal_of(word))?;
    let mut requests = [0u8; MOST_STEPS];
    read_requests(rt, steps, &mut requests)?;
    let mut space = [0u8; SPACE];
    let image = load_image(rt, places, file, &mut space)?;
    let subject = subject_of(places, image, 0, false);
    let first = image_start(image.found.rom);
    Ok(put_steps(rt, &space[first..], &requests, steps, subject))
}
