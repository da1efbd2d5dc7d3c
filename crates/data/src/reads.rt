// Which data operand an instruction reads, and where its byte comes from.
ghost use Rattle.std.specs.Prelude.{◌≡◌};
ghost use Rattle.isa.specs.Rom.{IsImage};
ghost use Rattle.data.specs.Space.{program_of};
ghost use Rattle.data.specs.Reads.{operand_read_of, origin_read_of};

use crate::Origin;
use crate::space::{address, origin};
use isa::{Instruction, Operand};

// The data operand that an instruction reads, by its form.
#[tactic(auto, unfolding(crate::specs::Reads::operand_read_of))]
fn operand_read(instruction: Instruction) -> Option<Operand>
    ensures { result ≡ operand_read_of instruction }
{
    match instruction {
        Instruction::LoadA(o)
        | Instruction::Add(o)
        | Instruction::Sub(o)
        | Instruction::And(o)
        | Instruction::Cp(o)
        | Instruction::Inc(o)
        | Instruction::Dec(o) => Some(o),
        Instruction::Set(_, at)
        | Instruction::Res(_, at)
        | Instruction::Jrr(_, at, _)
        | Instruction::Jrs(_, at, _) => Some(Operand::Direct(at)),
        _ => None,
    }
}

// The origin of the data operand that an instruction reads, if it reads one.
#[tactic(auto, unfolding(crate::specs::Reads::origin_read_of))]
pub fn origin_read(image: &[u8], bytes: &[u8; 256], instruction: Instruction) -> Option<Origin>
    ensures { IsImage image.now
        → result ≡ origin_read_of (program_of image.now bytes.now) bytes.now instruction }
{
    let o = operand_read(instruction)?;
    Some(origin(image, bytes, address(bytes, o)))
}
