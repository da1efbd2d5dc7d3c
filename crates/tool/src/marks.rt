// The certificate that a command works with: from a file, or made.
use crate::failure::Said;
use crate::files::read_file;
use crate::image::put_fault;
use intel_hex::HexError;
use isa::Refusal;
use maker::make::make;
use options::image::is_hex;
use options::places::{PLACES, Place};

// Why there are no marks for the check to look at.
#[derive(Clone, Copy, Debug, PartialEq, Eq)]
pub enum NoMarks {
    Refused(Refusal),
    // A file failed, and why has been said on standard error.
    Failed,
}

impl From<Refusal> for NoMarks {
    fn from(refusal: Refusal) -> NoMarks {
        NoMarks::Refused(refusal)
    }
}

impl From<Said> for NoMarks {
    fn from(_: Said) -> NoMarks {
        NoMarks::Failed
    }
}

// Marks of a file's bytes: Intel HEX, each at the address that it marks, or raw, one for each byte of the image. No
// mark is 3Ah, so raw marks that may be accepted do not begin with a colon.
fn marks_of(
    rt: &HostRuntime,
    file: &[u8],
    argument: usize,
    marks: &mut [u8],
) -> Result<(), NoMarks> {
    if !is_hex(file, false) {
        if file.len() != marks.len() {
            return Err(NoMarks::Refused(Refusal::CertificateLength));
        }
        marks.copy_from_slice(file);
        return Ok(());
    }
    match intel_hex::read::read(file, 0, marks) {
        Ok(_) => Ok(()),
        Err(HexError::Line(at)) => {
            put_fault(rt, argument, at);
            Err(NoMarks::Failed)
        }
        Err(HexError::ImageLength) => Err(NoMarks::Refused(Refusal::ImageLength)),
    }
}

// Puts the marks that the arguments give, or else those that the maker makes, into a buffer.
pub fn load_marks(
    rt: &HostRuntime,
    places: &[usize; PLACES],
    file: &mut [u8],
    image: &[u8],
    wired: u8,
    marks: &mut [u8],
) -> Result<(), NoMarks> {
    let argument = places[Place::Marks.number()];
    if argument == 0 {
        make(image, wired, marks)?;
        return Ok(());
    }
    let length = read_file(rt, argument, file)?;
    marks_of(rt, &file[..length], argument, marks)
}
