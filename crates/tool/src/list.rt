// `st62 list`: what is marked, an address to a line.
ghost use Rattle.std.specs.Prelude.{◌≤◌};

use crate::arguments::{is_given, value_of};
use crate::failure::Failure;
use crate::image::{image_start, load_image, marks_start, subject_of};
use crate::marks::{NoMarks, load_marks};
use certificate::marks::mark_at;
use listing::address_line::address_line;
use listing::pages::choices_in;
use options::image::SPACE;
use options::places::{PLACES, Place};
use options::wired::wired_of;
use reports::Status;
use reports::answers::{Subject, put_end, put_refusal};
use reports::output::{Written, finish, put};

fn put_address(rt: &HostRuntime, image: &[u8], page: u8, marks: &[u8], address: u16) -> Written {
    if mark_at(marks, address) == 0 {
        return Ok(());
    }
    put(rt, address_line(image, page, marks, address))
}

// The marked addresses of a half of program space, upward, with a page in place.
fn put_half(rt: &HostRuntime, image: &[u8], page: u8, marks: &[u8], first: u16) -> Written
    requires { first ≤ 2048 }
{
    for address in first..first + 2048 {
        put_address(rt, image, page, marks, address)?;
    }
    Ok(())
}

// All marked addresses, upward: page by page below 800h. Above it page 0 is in place, which shows only where an
// instruction goes on at 000h.
fn put_listing(rt: &HostRuntime, image: &[u8], marks: &[u8], subject: Subject) -> Written {
    for page in 0..choices_in(image.len()) {
        put_half(rt, image, page, marks, 0)?;
    }
    put_half(rt, image, 0, marks, 2048)?;
    put_end(rt, image, subject)
}

fn answer(
    rt: &HostRuntime,
    places: &[usize; PLACES],
    file: &mut [u8],
    image: &[u8],
    marks: &mut [u8],
    subject: Subject,
) -> Status {
    match load_marks(rt, places, file, image, subject.wired, marks) {
        Ok(()) => finish(Status::Done, put_listing(rt, image, marks, subject)),
        Err(NoMarks::Refused(refusal)) => put_refusal(rt, image, marks, subject, refusal),
        Err(NoMarks::Failed) => Status::Failed,
    }
}

pub fn run(rt: &HostRuntime, places: &[usize; PLACES], file: &mut [u8]) -> Result<Status, Failure> {
    let wired = if is_given(places, Place::Wired) {
        value_of(rt, places, Place::Wired, |word| wired_of(word))?
    } else {
        0
    };
    let mut space = [0u8; SPACE];
    let mut marks = [0u8; 4096];
    let image = load_image(rt, places, file, &mut space)?;
    let subject = subject_of(places, image, wired, !is_given(places, Place::Marks));
    let first = image_start(image.found.rom);
    let first_mark = marks_start(image.found.rom);
    Ok(answer(
        rt,
        places,
        file,
        &space[first..],
        &mut marks[first_mark..],
        subject,
    ))
}
