// The bytes of the instruction at an address: the opcode and the two bytes that follow, of which it may have none.
ghost use Rattle.std.specs.Prelude.{◌≡◌, ◌<◌};
ghost use Rattle.isa.specs.Rom.{IsWhole, bytes_in};
ghost use Rattle.isa.specs.Decode.{decode_of, code_as};

use crate::rom::{HALF_SPACE, Space};
use crate::table::timing_by_map;

// The bytes one by one: an instruction at the end of a half goes on in the other one.
fn code_across(space: Space, address: u16) -> Option<(u8, u8, u8)>
    ensures { IsWhole space.entry → address < 4096
        → code_as address result ≡ decode_of (bytes_in space.entry) address }
{
    let opcode = space.byte(address)?;
    let timing = timing_by_map(opcode);
    let first = space.operand_byte(address, 1, timing.length)?;
    let second = space.operand_byte(address, 2, timing.length)?;
    Some((opcode, first, second))
}

// The bytes of the instruction at an address, for a caller that has tested the address; none where one of them lies
// outside ROM. Three bytes are read at once, whatever the instruction's length, where the half has them.
pub fn code_at(space: Space, address: u16) -> Option<(u8, u8, u8)>
    ensures { IsWhole space.entry → address < 4096
        → code_as address result ≡ decode_of (bytes_in space.entry) address }
{
    let half = space.half(address);
    let at = address as usize % HALF_SPACE;
    if half.len() < at + 3 {
        return code_across(space, address);
    }
    Some((half[at], half[at + 1], half[at + 2]))
}
