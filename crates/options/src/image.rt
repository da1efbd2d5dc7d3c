// The image that a file holds: Intel HEX, which begins with a colon, or raw bytes.
ghost use Rattle.std.specs.Prelude.{◌≡◌, true, length};
ghost use Rattle.isa.specs.Rom.{is_image};
ghost use Rattle.options.specs.Image.{bytes_of, error_of, got, hex_got, image_got, is_hex, may_be, raw_got, size_of};
ghost use Rattle.options.specs.Image.{sized_for, size_named};

use intel_hex::read::read;
use intel_hex::{HexError, LineFault};
use isa::rom::{HALF_SPACE, PROGRAM_SPACE, is_image_length, spaces_in};

// The bytes of the longest image: nine pages and the fixed half.
pub const SPACE: usize = 20480;

// Where an image of 2K, and one of 4K, begins in the space.
const SMALL: usize = 18432;

const LARGE: usize = 16384;

// The sizes: 2K, from 800h to FFFh; 4K; and paged, with how many pages there are to choose from, two or more.
#[derive(Clone, Copy, Debug, PartialEq, Eq)]
pub enum Rom {
    Small,
    Large,
    Paged(u8),
}

// What `--rom` asks for.
#[derive(Clone, Copy, Debug, PartialEq, Eq)]
pub enum Asked {
    Small,
    Large,
}

// By what the size was chosen: the option, the raw file's own size, or the lowest address that the HEX file names.
#[derive(Clone, Copy, Debug, PartialEq, Eq)]
pub enum ChosenBy {
    Option,
    Size,
    Lowest(u16),
}

// The image that a file holds. It stands in the last bytes of its space.
#[derive(Clone, Copy, Debug, PartialEq, Eq)]
pub struct ImageFound {
    pub rom: Rom,
    pub by: ChosenBy,
}

// Why a file holds none.
#[derive(Clone, Copy, Debug, PartialEq, Eq)]
pub enum ImageError {
    Fault(LineFault),
    // A raw file has not 1 to 10 halves of 2048 bytes.
    NoSize,
    // A raw file's size is not that which was asked for.
    OtherSize,
    // A HEX file names no address, and no size was asked for.
    Unnamed,
}

impl From<HexError> for ImageError {
    ghost from_gives = { λ hex e. e ≡ error_of hex };

    fn from(error: HexError) -> ImageError {
        match error {
            HexError::Line(fault) => ImageError::Fault(fault),
            HexError::ImageLength => ImageError::NoSize,
        }
    }
}

// Whether a file is Intel HEX.
#[tactic(auto, unfolding(crate::specs::Image::is_hex))]
pub fn is_hex(file: &[u8], raw: bool) -> bool
    ensures { result ≡ is_hex file.now raw }
{
    !raw && matches!(file, [b':', ..])
}

// The image of a HEX file, of the size for the lowest address that it names: 2K from 800h on, else 4K.
#[tactic(auto, unfolding(crate::specs::Image::sized_for))]
fn by_lowest(lowest: u16) -> Result<ImageFound, ImageError>
    ensures { result ≡ sized_for lowest }
{
    if PROGRAM_SPACE <= usize::from(lowest) {
        return Err(ImageError::Unnamed);
    }
    let rom = if HALF_SPACE <= usize::from(lowest) {
        Rom::Small
    } else {
        Rom::Large
    };
    Ok(ImageFound {
        rom,
        by: ChosenBy::Lowest(lowest),
    })
}

// A HEX file, read into the last bytes of the space, as many as the size has that is asked for.
fn hex_image(
    file: &[u8],
    asked: Option<Asked>,
    fill: u8,
    space: &mut [u8],
) -> Result<ImageFound, ImageError>
    requires { length space.old ≡ 20480 }
    ensures { got result space.new
        ≡ hex_got file.now asked fill space.old }
{
    match asked {
        Some(Asked::Small) => {
            read(file, fill, &mut space[SMALL..])?;
            Ok(ImageFound {
                rom: Rom::Small,
                by: ChosenBy::Option,
            })
        }
        Some(Asked::Large) => {
            read(file, fill, &mut space[LARGE..])?;
            Ok(ImageFound {
                rom: Rom::Large,
                by: ChosenBy::Option,
            })
        }
        None => by_lowest(read(file, fill, &mut space[LARGE..])?),
    }
}

// Whether a size may be that which is asked for. No word asks for pages.
fn may_be(asked: Option<Asked>, rom: Rom) -> bool
    ensures { result ≡ may_be asked rom }
{
    match asked {
        Some(Asked::Small) => rom == Rom::Small,
        Some(Asked::Large) => rom == Rom::Large,
        None => true,
    }
}

// The size of an image of so many bytes.
#[tactic(auto, unfolding(crate::specs::Image::size_of))]
fn size_of(length: usize) -> Rom
    requires { is_image length ≡ true }
    ensures { result ≡ size_of length }
{
    match length {
        HALF_SPACE => Rom::Small,
        PROGRAM_SPACE => Rom::Large,
        _ => Rom::Paged(spaces_in(length)),
    }
}

// How many bytes an image has.
pub fn bytes_of(rom: Rom) -> usize
    ensures { result ≡ bytes_of rom }
{
    match rom {
        Rom::Small => HALF_SPACE,
        Rom::Large => PROGRAM_SPACE,
        Rom::Paged(pages) => (usize::from(pages) + 1) * HALF_SPACE,
    }
}

// A raw file, in the last bytes of the space.
#[tactic(auto, unfolding(crate::specs::Image::raw_got))]
fn raw_image(file: &[u8], asked: Option<Asked>, space: &mut [u8]) -> Result<ImageFound, ImageError>
    requires { length space.old ≡ 20480 }
    ensures { got result space.new
        ≡ raw_got file.now asked space.old }
{
    let length = file.len();
    if !is_image_length(length) {
        return Err(ImageError::NoSize);
    }
    let rom = size_of(length);
    if !may_be(asked, rom) {
        return Err(ImageError::OtherSize);
    }
    space[SPACE - length..].copy_from_slice(file);
    Ok(ImageFound {
        rom,
        by: ChosenBy::Size,
    })
}

// The image of a file's bytes; where no size is asked for, of that for the lowest address.
#[tactic(auto, unfolding(crate::specs::Image::image_got))]
pub fn image_of(
    file: &[u8],
    asked: Option<Asked>,
    fill: u8,
    raw: bool,
    space: &mut [u8],
) -> Result<ImageFound, ImageError>
    ensures { got result space.new
        ≡ image_got file.now asked fill raw space.old }
{
    if space.len() != SPACE {
        return Err(ImageError::NoSize);
    }
    if is_hex(file, raw) {
        hex_image(file, asked, fill, space)
    } else {
        raw_image(file, asked, space)
    }
}

// What `--rom` asks for by a word.
#[tactic(auto, unfolding(crate::specs::Image::size_named))]
pub fn asked_of(word: &[u8]) -> Option<Asked>
    ensures { result ≡ size_named word.now }
{
    match word {
        b"2K" => Some(Asked::Small),
        b"4K" => Some(Asked::Large),
        _ => None,
    }
}
