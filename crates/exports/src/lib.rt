// The boundary for tests from outside: functions on numbers and byte slices. Every answer is one number (`answers`), a
// machine is a state of 280 bytes (`states`), and an instruction is a row of fields (`fields`).
#![tactic(auto)]

mod answers;
mod clamp;
mod copying;
mod fields;
mod packing;
mod states;

ghost use Rattle.std.specs.Prelude.{◌≡◌};
ghost use Rattle.certificate.specs.Check.{check_of};
ghost use Rattle.isa.specs.Decode.{decode_in};
ghost use Rattle.exports.specs.Answers.{answer_word, width_word};
ghost use Rattle.exports.specs.Lent.{lent, lent_run, decode_lent, write_lent, reset_lent, store_lent, step_lent};
ghost use Rattle.exports.specs.Lent.{decoded_lent};
ghost use Rattle.exports.specs.Lent.{read_word, run_lent, play_lent, job_lent, MakeLent};

use answers::{
    answer_word, done, ending_word, invalid_state, is_refused, reading_word, refused, size_word,
    step_word,
};
use certificate::check::check;
use clamp::{clamp_address, clamp_byte};
use copying::put;
use fields::{put_row, read};
use gauge::width::width;
use isa::decode::decode;
use isa::write::write;
use isa::{Decoded, Refusal};
use jobs::answer::answer;
use machine::run::run_lent;
use machine::state::{host_store, reset};
use machine::step::step_lent;
use maker::make::make;
use packing::{pack, pack_parts, report_bytes};
use playback::Played;
use playback::play::play;
use states::{control_of, data_of, is_valid, pairs_of, stack_of, unpack};

// Decodes at an address of the image with a bank byte into `out`.
#[tactic(auto, using(crate::proofs::Clamping::decode_clamped), unfolding(crate::specs::Lent::decoded_lent))]
fn decode_with(image: &[u8], address: u32, bank: u8, out: &mut [u8]) -> u64
    ensures { lent result out.new
        ≡ decoded_lent out.old (decode_in image.now bank address) }
{
    match decode(image, bank, clamp_address(address)) {
        Err(refusal) => refused(refusal),
        Ok(
            Decoded {
                instruction,
                length,
                cycles,
            },
        ) => {
            if out.len() < 10 {
                return refused(Refusal::BufferLength);
            }
            put_row(out, instruction, length, cycles);
            done(length as u32)
        }
    }
}

// Decodes at an address of the image into `out`.
#[unsafe(no_mangle)]
#[tactic(auto, unfolding(crate::specs::Lent::decode_lent))]
pub extern "C" fn st62_decode(image: &[u8], address: u32, bank: u32, out: &mut [u8]) -> u64
    ensures { lent result out.new ≡ decode_lent image.now address bank out.old }
{
    if 255 < bank {
        return refused(Refusal::OperandRange);
    }
    decode_with(image, address, bank as u8, out)
}

// Writes the instruction of the first seven fields into `out`.
#[unsafe(no_mangle)]
#[tactic(auto, unfolding(crate::specs::Lent::write_lent))]
pub extern "C" fn st62_write(fields: &[u8], out: &mut [u8]) -> u64
    ensures { lent result out.new ≡ write_lent fields.now out.old }
{
    match read(fields) {
        Some(instruction) => answer_word(write(instruction, out)),
        None => refused(Refusal::OperandRange),
    }
}

#[unsafe(no_mangle)]
#[tactic(auto, using(crate::proofs::Pasting::valid_length), unfolding(crate::specs::Lent::reset_lent, crate::specs::States::unpacked))]
pub extern "C" fn st62_reset(state: &mut [u8]) -> u64
    ensures { lent result state.new ≡ reset_lent state.old }
{
    if !is_valid(state) {
        return refused(Refusal::IllFormedMachine);
    }
    let m = reset(unpack(state));
    pack(state, m);
    done(0)
}

// The host's store of a value at a data address.
#[unsafe(no_mangle)]
#[tactic(auto, using(crate::proofs::Pasting::valid_length), unfolding(crate::specs::Lent::store_lent, crate::specs::States::unpacked))]
pub extern "C" fn st62_store(state: &mut [u8], address: u32, value: u32) -> u64
    ensures { lent result state.new ≡ store_lent state.old address value }
{
    if 255 < address {
        return refused(Refusal::OperandRange);
    }
    if 255 < value {
        return refused(Refusal::OperandRange);
    }
    if !is_valid(state) {
        return refused(Refusal::IllFormedMachine);
    }
    let stored = host_store(unpack(state), address as u8, value as u8);
    pack(state, stored.machine);
    ending_word(stored.ending)
}

#[unsafe(no_mangle)]
#[tactic(auto, using(crate::proofs::Pasting::valid_length, crate::proofs::Clamping::step_lent_clamped), unfolding(crate::specs::Lent::step_lent, crate::specs::States::unpacked, crate::specs::States::machine_at))]
pub extern "C" fn st62_step(image: &[u8], state: &mut [u8], request: u32) -> u64
    ensures { lent result state.new ≡ step_lent image.now state.old request }
{
    if !is_valid(state) {
        return invalid_state(image);
    }
    let mut bytes = data_of(state);
    let mut stack = stack_of(state);
    let c = control_of(state);
    let f = pairs_of(state);
    let after = step_lent(image, &mut bytes, &mut stack, c, f, clamp_byte(request));
    let control = after.control;
    let flags = after.flags;
    let report = after.report;
    pack_parts(state, &bytes, &stack, control, flags);
    step_word(report)
}

// Reads a data byte of a machine, with its origin.
#[unsafe(no_mangle)]
#[tactic(auto, using(crate::proofs::Pasting::valid_length), unfolding(crate::specs::Lent::read_word, crate::specs::States::unpacked))]
pub extern "C" fn st62_read(image: &[u8], state: &[u8], address: u32) -> u64
    ensures { result ≡ read_word image.now state.now address }
{
    if 255 < address {
        return refused(Refusal::OperandRange);
    }
    if !is_valid(state) {
        return invalid_state(image);
    }
    reading_word(machine::reading::read(image, unpack(state), address as u8))
}

// A run of n steps. A refused one, and one without room for its report, leave state and report.
#[unsafe(no_mangle)]
#[tactic(auto, using(crate::proofs::Pasting::valid_length), unfolding(crate::specs::Lent::run_lent, crate::specs::Lent::ran_lent, crate::specs::Lent::report_bytes, crate::specs::States::unpacked, crate::specs::States::machine_at))]
pub extern "C" fn st62_run(
    image: &[u8],
    state: &mut [u8],
    requests: &[u8],
    n: u32,
    report: &mut [u8],
) -> u64
    ensures { lent_run result state.new report.new
        ≡ run_lent image.now state.old requests.now n report.old }
{
    if !is_valid(state) {
        return invalid_state(image);
    }
    let mut bytes = data_of(state);
    let mut stack = stack_of(state);
    let c = control_of(state);
    let f = pairs_of(state);
    let after = run_lent(image, &mut bytes, &mut stack, c, f, requests, n);
    let control = after.control;
    let flags = after.flags;
    let reported = after.report;
    let ending = reported.ending;
    if is_refused(ending) {
        return ending_word(ending);
    }
    if report.len() < 8 {
        return refused(Refusal::BufferLength);
    }
    let written = report_bytes(reported.steps, reported.cycles);
    pack_parts(state, &bytes, &stack, control, flags);
    put(report, 0, &written);
    ending_word(ending)
}

// Plays a session's record on a fresh machine, whatever the state held before. Where nothing is played, where the state
// has not 280 bytes, and where the report has fewer than eight, both are left.
#[unsafe(no_mangle)]
#[tactic(auto, unfolding(crate::specs::Lent::play_lent, crate::specs::Lent::played_lent, crate::specs::Lent::report_bytes))]
pub extern "C" fn st62_play(
    image: &[u8],
    recording: &[u8],
    state: &mut [u8],
    report: &mut [u8],
) -> u64
    ensures { lent_run result state.new report.new
        ≡ play_lent image.now recording.now state.old report.old }
{
    match play(image, recording) {
        Err(refusal) => refused(refusal),
        Ok(
            Played {
                machine,
                entries,
                cycles,
                ending,
            },
        ) => {
            if state.len() != 280 {
                return refused(Refusal::IllFormedMachine);
            }
            if report.len() < 8 {
                return refused(Refusal::BufferLength);
            }
            pack(state, machine);
            put(report, 0, &report_bytes(entries, cycles));
            ending_word(ending)
        }
    }
}

#[unsafe(no_mangle)]
#[tactic(auto, using(crate::proofs::Clamping::check_clamped))]
pub extern "C" fn st62_check(image: &[u8], certificate: &[u8], wired: u32) -> u64
    ensures { result ≡ answer_word (check_of image.now certificate.now wired) }
{
    answer_word(check(image, certificate, clamp_byte(wired)))
}

// Makes the least certificate of an image and its wired sources into `out`.
#[unsafe(no_mangle)]
pub extern "C" fn st62_make(image: &[u8], wired: u32, out: &mut [u8]) -> u64
    ensures { MakeLent image.now wired out.old (lent result out.new) }
{
    answer_word(make(image, clamp_byte(wired), out))
}

// The width that the gauge would show for a count.
#[unsafe(no_mangle)]
pub extern "C" fn st62_width(image: &[u8], certificate: &[u8], count: u32) -> u64
    ensures { result ≡ width_word image.now certificate.now count }
{
    if 255 < count {
        return refused(Refusal::OperandRange);
    }
    size_word(width(image, certificate, count as u8))
}

// Answers a job with its line, written into `line`.
#[unsafe(no_mangle)]
#[tactic(auto, unfolding(crate::specs::Lent::job_lent))]
pub extern "C" fn st62_job(job: &[u8], line: &mut [u8]) -> u64
    ensures { lent result line.new ≡ job_lent job.now line.old }
{
    match answer(job, line) {
        Ok(count) => done(count as u32),
        Err(refusal) => refused(refusal),
    }
}
