// `st62 play`: a session's record, played on a fresh machine.
use crate::arguments::argument_of;
use crate::failure::Failure;
use crate::files::read_file;
use crate::image::{image_start, load_image, subject_of};
use isa::Refusal;
use listing::Line;
use options::image::SPACE;
use options::places::{PLACES, Place};
use playback::Played;
use playback::play::play;
use reports::Status;
use reports::answers::{Subject, put_end, refusal_line};
use reports::explain::put_reason;
use reports::machine_lines::{bank_of, counted, put_machine};
use reports::output::{Written, finish, put};

// `5 entries played, 17 cycles`.
fn played_line(played: Played) -> Line {
    let line = Line::new().decimal(played.entries);
    let line = if played.entries == 1 {
        line.word(b" entry played, ")
    } else {
        line.word(b" entries played, ")
    };
    counted(line, played.cycles, b"cycle")
}

// The entry that ended the playing, why, and the machine before it.
fn put_ended(
    rt: &HostRuntime,
    image: &[u8],
    played: Played,
    refusal: Refusal,
    subject: Subject,
) -> Written {
    put(rt, refusal_line(Line::new(), refusal))?;
    if subject.quiet {
        return Ok(());
    }
    let line = Line::new()
        .word(b"entry ")
        .decimal(played.entries)
        .word(b" ended the playing");
    put(rt, line)?;
    put_reason(rt, image, bank_of(played.machine), b"", 0, refusal)?;
    put(rt, played_line(played))?;
    put_machine(rt, image.len(), played.machine)?;
    put_end(rt, image, subject)
}

// The whole record was played: the last machine.
fn put_whole(rt: &HostRuntime, image: &[u8], played: Played, subject: Subject) -> Written {
    put(rt, played_line(played))?;
    if subject.quiet {
        return Ok(());
    }
    put_machine(rt, image.len(), played.machine)?;
    put_end(rt, image, subject)
}

// A record that is refused before anything is played.
fn put_refused(rt: &HostRuntime, image: &[u8], refusal: Refusal, subject: Subject) -> Written {
    put(rt, refusal_line(Line::new(), refusal))?;
    if subject.quiet {
        return Ok(());
    }
    put_reason(rt, image, 0, b"", 0, refusal)?;
    put_end(rt, image, subject)
}

fn answer(rt: &HostRuntime, image: &[u8], recording: &[u8], subject: Subject) -> Status {
    match play(image, recording) {
        Ok(played) => match played.ending {
            Ok(()) => finish(Status::Done, put_whole(rt, image, played, subject)),
            Err(refusal) => {
                finish(
                    Status::Refused,
                    put_ended(rt, image, played, refusal, subject),
                )
            }
        },
        Err(refusal) => finish(Status::Refused, put_refused(rt, image, refusal, subject)),
    }
}

pub fn run(rt: &HostRuntime, places: &[usize; PLACES], file: &mut [u8]) -> Result<Status, Failure> {
    let mut space = [0u8; SPACE];
    let image = load_image(rt, places, file, &mut space)?;
    let subject = subject_of(places, image, 0, false);
    let first = image_start(image.found.rom);
    let record = argument_of(places, Place::Record)?;
    let length = read_file(rt, record, file)?;
    Ok(answer(rt, &space[first..], &file[..length], subject))
}
