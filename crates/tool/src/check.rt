// `st62 check`: may the part be burned, how deep does it go, why not.
ghost use Rattle.reports.specs.Output.{ZeroMeansAccepted, code_of};

use crate::arguments::{is_given, value_of};
use crate::failure::Failure;
use crate::image::{image_start, load_image, marks_start, subject_of};
use crate::marks::{NoMarks, load_marks};
use options::image::SPACE;
use options::places::{PLACES, Place};
use options::wired::wired_of;
use reports::Status;
use reports::answers::{Subject, put_checked, put_refusal};

// The exit status 0 means that a certificate of the image is accepted.
// `list` and `size` have the same arms, but share only the loading: one function would state this clause of a closure.
fn answer(
    rt: &HostRuntime,
    places: &[usize; PLACES],
    file: &mut [u8],
    image: &[u8],
    marks: &mut [u8],
    subject: Subject,
) -> Status
    ensures { ZeroMeansAccepted image.now subject.wired (code_of result) }
{
    match load_marks(rt, places, file, image, subject.wired, marks) {
        Ok(()) => put_checked(rt, image, marks, subject),
        Err(NoMarks::Refused(refusal)) => put_refusal(rt, image, marks, subject, refusal),
        Err(NoMarks::Failed) => Status::Failed,
    }
}

// Not one function with `run` of `certify`, `list` and `size`: they share the loading, and hand on other things.
pub fn run(rt: &HostRuntime, places: &[usize; PLACES], file: &mut [u8]) -> Result<Status, Failure> {
    let wired = value_of(rt, places, Place::Wired, |word| wired_of(word))?;
    let mut space = [0u8; SPACE];
    let mut marks = [0u8; 4096];
    let image = load_image(rt, places, file, &mut space)?;
    let subject = subject_of(places, image, wired, !is_given(places, Place::Marks));
    let first = image_start(image.found.rom);
    let first_mark = marks_start(image.found.rom);
    Ok(answer(
        rt,
        places,
        file,
        &space[first..],
        &mut marks[first_mark..],
        subject,
    ))
}
