// `st62 certify`: the least certificate, written to a file, or why there is none.
ghost use Rattle.reports.specs.Output.{ZeroMeansAccepted, code_of};

use crate::arguments::{argument_of, value_of};
use crate::failure::Failure;
use crate::files::write_file;
use crate::image::{image_start, load_image, marks_start, subject_of};
use maker::make::make;
use options::image::SPACE;
use options::places::{PLACES, Place};
use options::wired::wired_of;
use reports::Status;
use reports::answers::{Subject, put_checked, put_refusal};

// The file is written before the answer, and not touched where there is no certificate.
fn answer(
    rt: &HostRuntime,
    output: usize,
    image: &[u8],
    marks: &mut [u8],
    subject: Subject,
) -> Status
    ensures { ZeroMeansAccepted image.now subject.wired (code_of result) }
{
    if let Err(refusal) = make(image, subject.wired, marks) {
        return put_refusal(rt, image, marks, subject, refusal);
    }
    match write_file(rt, output, marks) {
        Ok(()) => put_checked(rt, image, marks, subject),
        Err(_) => Status::Failed,
    }
}

pub fn run(rt: &HostRuntime, places: &[usize; PLACES], file: &mut [u8]) -> Result<Status, Failure> {
    let wired = value_of(rt, places, Place::Wired, |word| wired_of(word))?;
    let mut space = [0u8; SPACE];
    let mut marks = [0u8; 4096];
    let image = load_image(rt, places, file, &mut space)?;
    let subject = subject_of(places, image, wired, true);
    let output = argument_of(places, Place::Output)?;
    let first = image_start(image.found.rom);
    let first_mark = marks_start(image.found.rom);
    Ok(answer(
        rt,
        output,
        &space[first..],
        &mut marks[first_mark..],
        subject,
    ))
}
