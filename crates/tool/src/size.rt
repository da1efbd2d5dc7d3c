// `st62 size`: the width that the gauge would show for a slide count.
use crate::arguments::{is_given, value_of};
use crate::failure::Failure;
use crate::image::{image_start, load_image, marks_start, subject_of};
use crate::marks::{NoMarks, load_marks};
use gauge::Measured;
use gauge::width::width;
use isa::rom::PROGRAM_SPACE;
use listing::Line;
use options::by_number::bad_value;
use options::image::SPACE;
use options::numbers::decimal_of;
use options::places::{PLACES, Place};
use reports::Status;
use reports::answers::{Subject, put_end, put_refusal};
use reports::machine_lines::counted;
use reports::output::{Written, finish, put};

// Tenths of a millimetre as millimetres with one decimal, and the steps.
fn put_width(rt: &HostRuntime, image: &[u8], subject: Subject, measured: Measured) -> Written {
    let line = Line::new()
        .decimal(u32::from(measured.width / 10))
        .letter(b'.')
        .decimal(u32::from(measured.width % 10))
        .word(b" mm, ");
    put(rt, counted(line, u32::from(measured.steps), b"step"))?;
    put_end(rt, image, subject)
}

fn put_sizing(
    rt: &HostRuntime,
    image: &[u8],
    marks: &mut [u8],
    subject: Subject,
    count: u8,
) -> Status {
    match width(image, marks, count) {
        Ok(measured) => finish(Status::Done, put_width(rt, image, subject, measured)),
        Err(refusal) => put_refusal(rt, image, marks, subject, refusal),
    }
}

// An image with pages is the gauge's to refuse, before marks are read or made.
fn answer(
    rt: &HostRuntime,
    places: &[usize; PLACES],
    file: &mut [u8],
    image: &[u8],
    marks: &mut [u8],
    subject: Subject,
    count: u8,
) -> Status {
    if PROGRAM_SPACE < image.len() {
        return put_sizing(rt, image, marks, subject, count);
    }
    match load_marks(rt, places, file, image, 0, marks) {
        Ok(()) => put_sizing(rt, image, marks, subject, count),
        Err(NoMarks::Refused(refusal)) => put_refusal(rt, image, marks, subject, refusal),
        Err(NoMarks::Failed) => Status::Failed,
    }
}

pub fn run(rt: &HostRuntime, places: &[usize; PLACES], file: &mut [u8]) -> Result<Status, Failure> {
    let number = value_of(rt, places, Place::Count, |word| decimal_of(word))?;
    let Ok(count) = u8::try_from(number) else {
        return Err(Failure::Usage(bad_value(places, Place::Count.number())));
    };
    let mut space = [0u8; SPACE];
    let mut marks = [0u8; 4096];
    let image = load_image(rt, places, file, &mut space)?;
    let subject = subject_of(places, image, 0, !is_given(places, Place::Marks));
    let first = image_start(image.found.rom);
    let first_mark = marks_start(image.found.rom);
    Ok(answer(
        rt,
        places,
        file,
        &space[first..],
        &mut marks[first_mark..],
        subject,
        count,
    ))
}
