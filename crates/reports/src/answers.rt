// An answer on standard output: the job program's line, then what it is about, in words.
ghost use Rattle.isa.specs.Refusals.{numbered, refused};
ghost use Rattle.certificate.specs.Check.{accepted, check_of};
ghost use Rattle.listing.specs.Pieces.{Adds, Holds};
ghost use Rattle.reports.specs.Answers.{answer_text};
ghost use Rattle.reports.specs.Output.{Exits, Refuses, code_of};

use crate::Status;
use crate::attempt::attempt;
use crate::explain::put_reason;
use crate::image_line::put_image;
use crate::levels::{put_levels, put_wired};
use crate::output::{Written, finish, put, put_text};
use crate::page_found::page_found;
use certificate::check::check;
use intel_hex::crc::crc_32;
use isa::refusals::number_of;
use isa::rom::PROGRAM_SPACE;
use isa::{Number, Refusal};
use listing::Line;
use options::image::ImageFound;

// What an answer is about, and whether it is to be said in words.
#[derive(Clone, Copy)]
pub struct Subject {
    // The image's size, and by what that was chosen.
    pub found: ImageFound,
    // The byte where a HEX file names none.
    pub fill: u8,
    pub wired: u8,
    // Whether the marks were made, and not given.
    pub made: bool,
    pub quiet: bool,
}

// Adds the job program's line of a refusal, without its end.
pub fn refusal_line(line: Line, refusal: Refusal) -> Line
    ensures { Adds (answer_text (refused (numbered refusal))) line result }
{
    let begun = line.word(b"refused ");
    match number_of(refusal) {
        Number::Plain(number) => begun.decimal(u32::from(number)),
        Number::Located(number, address) => {
            begun
                .decimal(u32::from(number))
                .letter(b' ')
                .address(address)
        }
    }
}

// The job program's line of accepted marks, without its end.
fn accepted_line(levels: u8) -> Line
    ensures { Holds (answer_text (accepted levels)) result }
{
    Line::new().word(b"accepted ").decimal(u32::from(levels))
}

// The reason of a refusal by the check, with the page with which it was found.
fn put_found(rt: &HostRuntime, image: &[u8], marks: &[u8], wired: u8, refusal: Refusal) -> Written {
    let page = match number_of(refusal) {
        Number::Plain(_) => 0,
        Number::Located(_, address) => page_found(image, marks, wired, address),
    };
    put_reason(rt, image, page, marks, wired, refusal)
}

// What the check refuses of marks, after words, and why; nothing where it accepts them.
fn put_refused_marks(
    rt: &HostRuntime,
    image: &[u8],
    marks: &[u8],
    wired: u8,
    words: &[u8],
) -> Written {
    match check(image, marks, wired) {
        Ok(_) => Ok(()),
        Err(refusal) => {
            put(rt, refusal_line(Line::new().word(words), refusal))?;
            put_found(rt, image, marks, wired, refusal)
        }
    }
}

// Why no certificate exists: the first rule that the marks of what can be reached do not meet. The marks are the
// maker's, which left them all 00h.
fn put_no_certificate(rt: &HostRuntime, image: &[u8], marks: &mut [u8], wired: u8) -> Written {
    attempt(image, wired, marks);
    put_refused_marks(
        rt,
        image,
        marks,
        wired,
        b"no marks are accepted; those of all code that can be reached: ",
    )
}

// The gauge's 23: it takes no pages, or the check with nothing wired refused the marks.
fn put_unchecked(rt: &HostRuntime, image: &[u8], marks: &[u8]) -> Written {
    if PROGRAM_SPACE < image.len() {
        return put_text(rt, b"the gauge takes images of 2K and 4K only\n");
    }
    put_refused_marks(rt, image, marks, 0, b"the check with nothing wired: ")
}

// The reason of a refusal, in words.
fn put_why(
    rt: &HostRuntime,
    image: &[u8],
    marks: &mut [u8],
    wired: u8,
    refusal: Refusal,
) -> Written {
    match refusal {
        Refusal::NoCertificate => put_no_certificate(rt, image, marks, wired),
        Refusal::CheckRefused => put_unchecked(rt, image, marks),
        _ => put_found(rt, image, marks, wired, refusal),
    }
}

// Where the marks came from. Where they were to be made, a refusal has none, or is not about them.
fn put_marks(rt: &HostRuntime, made: bool, is_accepted: bool) -> Written {
    if !made {
        return put_text(rt, b"marks: as given\n");
    }
    if is_accepted {
        return put_text(rt, b"marks: made, the least that are accepted\n");
    }
    Ok(())
}

// What stands last: the image, with its size and by what that was chosen.
pub fn put_end(rt: &HostRuntime, image: &[u8], subject: Subject) -> Written {
    if subject.quiet {
        return Ok(());
    }
    put_image(rt, subject.found, subject.fill, crc_32(image))
}

// What the answer is about: the wired sources, the marks and the image.
fn put_subject(rt: &HostRuntime, image: &[u8], subject: Subject, is_accepted: bool) -> Written {
    put_wired(rt, subject.wired)?;
    put_marks(rt, subject.made, is_accepted)?;
    put_end(rt, image, subject)
}

fn put_refused(
    rt: &HostRuntime,
    image: &[u8],
    marks: &mut [u8],
    subject: Subject,
    refusal: Refusal,
) -> Written {
    put(rt, refusal_line(Line::new(), refusal))?;
    if subject.quiet {
        return Ok(());
    }
    put_why(rt, image, marks, subject.wired, refusal)?;
    put_subject(rt, image, subject, false)
}

// Writes a refusal, and answers how the program ends.
pub fn put_refusal(
    rt: &HostRuntime,
    image: &[u8],
    marks: &mut [u8],
    subject: Subject,
    refusal: Refusal,
) -> Status
    ensures { Refuses (code_of result) }
{
    finish(
        Status::Refused,
        put_refused(rt, image, marks, subject, refusal),
    )
}

fn put_levels_of(
    rt: &HostRuntime,
    image: &[u8],
    marks: &[u8],
    subject: Subject,
    levels: u8,
) -> Written {
    put(rt, accepted_line(levels))?;
    if subject.quiet {
        return Ok(());
    }
    put_levels(rt, marks, subject.wired)?;
    put_subject(rt, image, subject, true)
}

// Writes that marks are accepted, and answers how the program ends.
fn put_accepted(
    rt: &HostRuntime,
    image: &[u8],
    marks: &[u8],
    subject: Subject,
    levels: u8,
) -> Status
    ensures { Exits (accepted levels) (code_of result) }
{
    finish(
        Status::Done,
        put_levels_of(rt, image, marks, subject, levels),
    )
}

// Checks marks, writes the answer, and answers how the program ends.
pub fn put_checked(rt: &HostRuntime, image: &[u8], marks: &mut [u8], subject: Subject) -> Status
    ensures { Exits (check_of image.now marks.old subject.wired) (code_of result) }
{
    match check(image, marks, subject.wired) {
        Ok(levels) => put_accepted(rt, image, marks, subject, levels),
        Err(refusal) => put_refusal(rt, image, marks, subject, refusal),
    }
}
