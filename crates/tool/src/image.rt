// The image that the arguments ask for, read from its file.
ghost use Rattle.std.specs.Prelude.{◌≤◌};

use crate::arguments::{argument_of, is_given, value_of};
use crate::failure::Failure;
use crate::files::{put_file_error, read_file};
use certificate::check::marks_in;
use intel_hex::{Fault, LineFault};
use isa::rom::PROGRAM_SPACE;
use options::by_number::Usage;
use options::image::{Asked, ImageError, ImageFound, Rom, SPACE, asked_of, bytes_of, image_of};
use options::numbers::byte_of;
use options::places::{PLACES, Place};
use reports::answers::Subject;
use reports::output::put_error;

// What `--rom` asks for, if it is given.
fn asked_for(rt: &HostRuntime, places: &[usize; PLACES]) -> Result<Option<Asked>, Usage> {
    if !is_given(places, Place::Rom) {
        return Ok(None);
    }
    let asked = value_of(rt, places, Place::Rom, |word| asked_of(word))?;
    Ok(Some(asked))
}

// The byte that `--fill` gives, 00h where it is not given.
fn fill_of(rt: &HostRuntime, places: &[usize; PLACES]) -> Result<u8, Usage> {
    if !is_given(places, Place::Fill) {
        return Ok(0);
    }
    value_of(rt, places, Place::Fill, |word| byte_of(word))
}

// Why a HEX file's line was refused.
fn put_fault_text(rt: &HostRuntime, fault: Fault) {
    match fault {
        Fault::NoColon => put_error(rt, b"a record begins with a colon\n"),
        Fault::BadDigit => put_error(rt, b"a character that is no hexadecimal digit\n"),
        Fault::WrongLength => put_error(rt, b"its length does not fit its byte count or type\n"),
        Fault::BadChecksum => put_error(rt, b"the checksum is wrong\n"),
        Fault::UnknownType => put_error(rt, b"a record's type is 00, 01, 02 or 04\n"),
        Fault::NonZeroBase => put_error(rt, b"an address base that is not 0\n"),
        Fault::OutsideImage => put_error(rt, b"data outside the image\n"),
        Fault::DifferingData => put_error(rt, b"data for an address that has other data\n"),
        Fault::AfterEnd => put_error(rt, b"a record after the end record\n"),
        Fault::NoEnd => put_error(rt, b"the end record is missing\n"),
    }
}

// Ends the line of a HEX file that was refused: `line N: reason`.
fn put_line_fault(rt: &HostRuntime, at: LineFault) {
    put_error(rt, b"line ");
    let _ = rt.eprint(at.line);
    put_error(rt, b": ");
    put_fault_text(rt, at.fault);
}

// Says why a HEX file was refused: `st62: FILE: line N: reason`.
pub fn put_fault(rt: &HostRuntime, argument: usize, at: LineFault) {
    put_file_error(rt, argument);
    put_line_fault(rt, at);
}

// Says on standard error why there is no image.
fn put_image_error(rt: &HostRuntime, argument: usize, error: ImageError) {
    put_file_error(rt, argument);
    match error {
        ImageError::Fault(at) => put_line_fault(rt, at),
        ImageError::NoSize => put_error(
            rt,
            b"neither Intel HEX, which begins with a colon, nor a raw image of 1 to 10 halves of 2048 bytes\n",
        ),
        ImageError::OtherSize => {
            put_error(rt, b"a raw image of another size than --rom says\n");
        }
        ImageError::Unnamed => {
            put_error(rt, b"it names no address: say --rom 2K or --rom 4K\n");
        }
    }
}

// An image that was read, and the byte where a HEX file names none.
#[derive(Clone, Copy)]
pub struct Loaded {
    pub found: ImageFound,
    pub fill: u8,
}

// Reads the image that the arguments ask for.
pub fn load_image(
    rt: &HostRuntime,
    places: &[usize; PLACES],
    file: &mut [u8],
    space: &mut [u8],
) -> Result<Loaded, Failure> {
    let asked = asked_for(rt, places)?;
    let fill = fill_of(rt, places)?;
    let argument = argument_of(places, Place::Image)?;
    let length = read_file(rt, argument, file)?;
    match image_of(
        &file[..length],
        asked,
        fill,
        is_given(places, Place::Raw),
        space,
    ) {
        Ok(found) => Ok(Loaded { found, fill }),
        Err(error) => {
            put_image_error(rt, argument, error);
            Err(Failure::Said)
        }
    }
}

// Where an image begins in its space.
pub fn image_start(rom: Rom) -> usize
    ensures { result ≤ 20480 }
{
    let bytes = bytes_of(rom);
    if SPACE < bytes {
        return 0;
    }
    SPACE - bytes
}

// Where the marks of an image begin in theirs, which has one for each address.
pub fn marks_start(rom: Rom) -> usize
    ensures { result ≤ 4096 }
{
    let marks = marks_in(bytes_of(rom));
    if PROGRAM_SPACE < marks {
        return 0;
    }
    PROGRAM_SPACE - marks
}

// What an answer on an image is about.
pub fn subject_of(places: &[usize; PLACES], image: Loaded, wired: u8, made: bool) -> Subject {
    Subject {
        found: image.found,
        fill: image.fill,
        wired,
        made,
        quiet: is_given(places, Place::Quiet),
    }
}
