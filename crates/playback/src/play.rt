// Playing a record.
ghost use Rattle.std.specs.Prelude.{◌≤◌, ◌≡◌, true, length};
ghost use Rattle.isa.specs.Refusals.{done};
ghost use Rattle.playback.specs.Entries.{is_body, entries_of};
ghost use Rattle.playback.specs.Play.{playing_of, played_of, played_by, play_of};

use crate::entries::{first_entry, is_body};
use crate::header::find_body;
use crate::row::{ROW, gather};
use crate::{Entry, Played};
use bench::keys::{key_reset, key_run, key_store};
use isa::Refusal;
use isa::rom::is_image_length;
use machine::state::fresh;

// Plays the entries of a body: one machine is held here, and lent to the key of each entry, or of each row of steps,
// which is one run. The body is short enough for the sum of the cycles to have 32 bits.
fn play_entries(image: &[u8], body: &[u8]) -> Played
    requires { (is_body body.now ≡ true) × (length body.now ≤ 0xFFFFFF) }
    ensures { done (playing_of result) ≡ played_by image.now (entries_of body.now) }
{
    let mut machine = fresh();
    // Memory is fixed: one array serves all rows.
    let mut requests = [0u8; ROW];
    let mut rest = body;
    let mut entries: u32 = 0;
    let mut cycles: u32 = 0;
    // A loop: where the next entry begins only this one tells.
    while let Some((entry, size)) = first_entry(rest) {
        match entry {
            Entry::Step(request) => {
                let count = gather(&mut requests, request, rest);
                let report = key_run(&mut machine, image, &requests, count as u32);
                entries += report.steps;
                cycles += report.cycles;
                let ending = report.ending;
                if ending.is_err() {
                    return Played {
                        machine,
                        entries,
                        cycles,
                        ending,
                    };
                }
                rest = &rest[2 * count..];
            }
            Entry::Store(address, value) => {
                let ending = key_store(&mut machine, address, value);
                if ending.is_err() {
                    return Played {
                        machine,
                        entries,
                        cycles,
                        ending,
                    };
                }
                entries += 1;
                rest = &rest[size..];
            }
            Entry::Reset => {
                key_reset(&mut machine);
                entries += 1;
                rest = &rest[size..];
            }
        }
    }
    Played {
        machine,
        entries,
        cycles,
        ending: Ok(()),
    }
}

// Plays a session's record on a fresh machine. Refuses with 1, then as its header is refused (28, 27, 28, 30), then
// with 29, before the first entry is played.
pub fn play(image: &[u8], recording: &[u8]) -> Result<Played, Refusal>
    ensures { played_of result ≡ play_of image.now recording.now }
{
    if !is_image_length(image.len()) {
        return Err(Refusal::ImageLength);
    }
    let start = find_body(recording)?;
    let body = &recording[start..];
    if !is_body(body) {
        return Err(Refusal::RecordEntry);
    }
    Ok(play_entries(image, body))
}
