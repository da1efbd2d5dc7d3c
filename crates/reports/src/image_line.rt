// The line of an image: its size, by what it was chosen, and its checksum.
use crate::output::{Written, put};
use listing::Line;
use options::image::{ChosenBy, ImageFound, Rom};

fn size_text(line: Line, rom: Rom) -> Line {
    match rom {
        Rom::Small => line.word(b"2K, 800 to FFF"),
        Rom::Large => line.word(b"4K, 000 to FFF"),
        Rom::Paged(pages) => line
            .decimal((u32::from(pages) + 1) * 2)
            .word(b"K, ")
            .decimal(u32::from(pages))
            .word(b" pages and the fixed half"),
    }
}

// By what the size was chosen, and, of a HEX file, the byte where it names none.
fn choice_text(line: Line, by: ChosenBy, fill: u8) -> Line {
    match by {
        ChosenBy::Option => line.word(b", as --rom says; fill ").byte(fill),
        ChosenBy::Size => line.word(b", by the file's size"),
        ChosenBy::Lowest(lowest) => line
            .word(b", by the lowest address named, ")
            .address(lowest)
            .word(b"; fill ")
            .byte(fill),
    }
}

// A checksum in eight hexadecimal digits.
fn checksum_text(line: Line, checksum: u32) -> Line {
    let [first, second, third, fourth] = checksum.to_be_bytes();
    line.word(b"; CRC-32 ")
        .byte(first)
        .byte(second)
        .byte(third)
        .byte(fourth)
}

// Writes the line of an image.
pub fn put_image(rt: &HostRuntime, found: ImageFound, fill: u8, checksum: u32) -> Written {
    let sized = size_text(Line::new().word(b"image: "), found.rom);
    let chosen = choice_text(sized, found.by, fill);
    put(rt, checksum_text(chosen, checksum))
}
