// Where the instruction at an address continues, straight from its bytes: the answer of decoding followed by `flow_of`,
// without making the instruction. The certificate check asks nothing else, at every address.
#![tactic(auto, unfolding(crate::specs::Map::form_of, crate::specs::Map::form_as, crate::specs::Map::entry_of, crate::specs::ControlFlow::flow_of))]

ghost use Rattle.std.specs.Prelude.{◌≡◌, ℕ, ◌%◌, ◌<◌};
ghost use Rattle.isa.specs.Rom.{IsImage, space_of, IsWhole, bytes_in};
ghost use Rattle.isa.specs.Map.{form_of};
ghost use Rattle.isa.specs.Decode.{decode_of};
ghost use Rattle.isa.specs.FlowAt.{flow_as, continuation_of, continuation_from};

use crate::code::code_at;
use crate::control_flow::{long, short};
use crate::displacement::{forward, long_displacement, short_displacement};
use crate::map::{bit_number, extended_target};
use crate::parts::space_in;
use crate::rom::{HALF_SPACE, Space};
use crate::table::timing_by_map;
use crate::{Condition, Continuation, Flow, Refusal};

// Column 3: a branch on a bit, JRR in the even rows, JRS in the odd ones.
fn column_3(opcode: u8, first: u8, second: u8, at: u16) -> Flow
    requires { opcode % 16 ≡ 3 }
    ensures { result ≡ flow_as (form_of opcode first second) at }
{
    let condition = Condition::Bit {
        address: first,
        bit: bit_number(opcode),
        value: opcode / 16 % 2 == 1,
    };
    long(condition, at, long_displacement(second))
}

// Column D: the returns, STOP and WAIT; the others go on at the next address.
fn column_d(opcode: u8) -> Flow
    requires { opcode % 16 ≡ 13 }
    ensures { (first second at : ℕ) → result ≡ flow_as (form_of opcode first second) at }
{
    match opcode {
        0x4D => Flow::ReturnFromInterrupt,
        0x6D | 0xED => Flow::Sleep,
        0xCD => Flow::Return,
        _ => Flow::Next,
    }
}

// Where an opcode with the two bytes that follow it continues. It becomes part of each caller, as `flow_at` does: shared
// with the maker they cost the check, which asks at every address, twice its time.
#[inline(always)]
fn flow_by(opcode: u8, first: u8, second: u8, at: u16) -> Flow
    ensures { result ≡ flow_as (form_of opcode first second) at }
{
    match opcode % 16 {
        0 | 8 => short(Condition::Zero(false), at, short_displacement(opcode)),
        2 | 10 => short(Condition::Carry(false), at, short_displacement(opcode)),
        4 | 12 => short(Condition::Zero(true), at, short_displacement(opcode)),
        6 | 14 => short(Condition::Carry(true), at, short_displacement(opcode)),
        1 => Flow::Call(extended_target(opcode, first)),
        9 => Flow::Jump(extended_target(opcode, first)),
        3 => column_3(opcode, first, second, at),
        13 => column_d(opcode),
        _ => Flow::Next,
    }
}

// Where the instruction at an address continues, for a caller that has tested the image's length and the address. An
// undefined opcode has length 0.
#[inline(always)]
pub fn flow_at(space: Space, address: u16) -> Result<Continuation, Refusal>
    ensures { IsWhole space.entry → address < 4096
        → continuation_of result
        ≡ continuation_from address (decode_of (bytes_in space.entry) address) }
{
    let Some((opcode, first, second)) = code_at(space, address) else {
        return Err(Refusal::OutsideRom(address));
    };
    let timing = timing_by_map(opcode);
    if timing.length == 0 {
        return Err(Refusal::UndefinedOpcode(address));
    }
    Ok(Continuation {
        flow: flow_by(opcode, first, second, address),
        next: forward(address, timing.length),
    })
}

// The same of an image with a bank byte, for the maker.
pub fn flow_in(image: &[u8], bank: u8, address: u16) -> Result<Continuation, Refusal>
    ensures { IsImage image.now → address < 4096
        → continuation_of result ≡ continuation_from address (decode_of (space_of image.now bank) address) }
{
    if image.len() < HALF_SPACE {
        return Err(Refusal::ImageLength);
    }
    flow_at(space_in(image, bank), address)
}
