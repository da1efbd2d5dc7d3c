// The line of an address in a listing.
ghost use Rattle.std.specs.Prelude.{◌≡◌};
ghost use Rattle.isa.specs.Refusals.{numbered};
ghost use Rattle.isa.specs.Decode.{answer_of};
ghost use Rattle.listing.specs.Pieces.{Adds};
ghost use Rattle.listing.specs.AddressLine.{address_line, byte_text, call_text, code_text, length_of, mark_text};
ghost use Rattle.listing.specs.AddressLine.{need_text, operand_byte_text, refusal_text, standing_text};

use crate::Line;
use crate::instruction::instruction;
use crate::kinds::kind_name;
use crate::pages::{page_text, rom_in};
use certificate::marks::{kind_of, mark_at, need_at, need_of};
use isa::control_flow::flow_of;
use isa::decode::decode;
use isa::displacement::forward;
use isa::refusals::number_of;
use isa::{Decoded, Flow, Number, Refusal};

// The columns where the instruction and the mark begin, after the page.
const TEXT_COLUMN: usize = 15;

const MARK_COLUMN: usize = 33;

// A ROM byte, nothing outside ROM.
#[tactic(auto, unfolding(crate::specs::AddressLine::byte_text))]
fn rom_text(line: Line, byte: Option<u8>) -> Line
    ensures { Adds (byte_text byte) line result }
{
    match byte {
        Some(n) => line.byte(n),
        None => line.word(b""),
    }
}

// The byte of an instruction at an offset from its address, nothing where the instruction is shorter.
#[tactic(auto, unfolding(crate::specs::AddressLine::operand_byte_text))]
fn operand_text(line: Line, image: &[u8], bank: u8, address: u16, offset: u8, length: u8) -> Line
    ensures { Adds (operand_byte_text image.now bank address offset length) line result }
{
    if length <= offset {
        return line.word(b"");
    }
    rom_text(
        line.letter(b' '),
        rom_in(image, bank, forward(address, offset)),
    )
}

// The bytes of an instruction of the given length.
fn code(line: Line, image: &[u8], bank: u8, address: u16, length: u8) -> Line
    ensures { Adds (code_text image.now bank address length) line result }
{
    let opcode = rom_text(line, rom_in(image, bank, address));
    let first = operand_text(opcode, image, bank, address, 1, length);
    operand_text(first, image, bank, address, 2, length)
}

// How many bytes to show: one where nothing decodes.
fn length_of(decoded: Result<Decoded, Refusal>) -> u8
    ensures { result ≡ length_of (answer_of decoded) }
{
    match decoded {
        Ok(d) => d.length,
        Err(_) => 1,
    }
}

// Why nothing decodes.
fn refusal_text(line: Line, refusal: Refusal) -> Line
    ensures { Adds (refusal_text (numbered refusal)) line result }
{
    match number_of(refusal) {
        Number::Plain(_) => line.word(b"outside ROM"),
        Number::Located(number, _) => {
            if number == 5 {
                line.word(b"undefined opcode")
            } else {
                line.word(b"outside ROM")
            }
        }
    }
}

// The instruction, or why there is none.
fn standing_text(line: Line, decoded: Result<Decoded, Refusal>, address: u16) -> Line
    ensures { Adds (standing_text address (answer_of decoded)) line result }
{
    match decoded {
        Ok(d) => instruction(line, d.instruction, address),
        Err(refusal) => refusal_text(line, refusal),
    }
}

// What the target of a CALL needs; nothing for another instruction.
fn call_text(
    line: Line,
    certificate: &[u8],
    decoded: Result<Decoded, Refusal>,
    address: u16,
) -> Line
    ensures { Adds (call_text certificate.now address (answer_of decoded)) line result }
{
    let Ok(d) = decoded else {
        return line.word(b"");
    };
    let Flow::Call(target) = flow_of(d.instruction, address) else {
        return line.word(b"");
    };
    let need = need_at(certificate, target);
    line.word(b"; its target needs ").decimal(need as u32)
}

// The need of a mark, and of a CALL's target; nothing where the mark has no kind.
#[tactic(auto, unfolding(crate::specs::AddressLine::need_text))]
fn need_text(
    line: Line,
    certificate: &[u8],
    decoded: Result<Decoded, Refusal>,
    address: u16,
    mark: u8,
) -> Line
    ensures { Adds (need_text certificate.now address (answer_of decoded) mark) line result }
{
    let Some(_) = kind_of(mark) else {
        return line.word(b"");
    };
    let need = need_of(mark);
    let needs = line.word(b", needs ").decimal(need as u32);
    call_text(needs, certificate, decoded, address)
}

// The mark as a byte and in words.
fn mark_text(
    line: Line,
    certificate: &[u8],
    decoded: Result<Decoded, Refusal>,
    address: u16,
) -> Line
    ensures { Adds (mark_text certificate.now address (answer_of decoded)) line result }
{
    let mark = mark_at(certificate, address);
    let named = kind_name(line.byte(mark).word(b"  "), mark);
    need_text(named, certificate, decoded, address, mark)
}

// The line of an address, without line end, with a bank byte: its bytes, its instruction and its mark.
pub fn address_line(image: &[u8], bank: u8, certificate: &[u8], address: u16) -> Line
    ensures { result ≡ address_line image.now bank certificate.now address }
{
    let decoded = decode(image, bank, address);
    let paged = page_text(Line::new(), image.len(), bank, address);
    let wide = paged.length();
    let begun = paged.address(address).word(b"  ");
    let coded = code(begun, image, bank, address, length_of(decoded));
    let text = standing_text(coded.spaces_to(wide + TEXT_COLUMN), decoded, address);
    mark_text(
        text.spaces_to(wide + MARK_COLUMN),
        certificate,
        decoded,
        address,
    )
}
