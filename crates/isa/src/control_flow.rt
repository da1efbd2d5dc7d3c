// Where an instruction continues.
ghost use Rattle.std.specs.Prelude.{◌≡◌};
ghost use Rattle.isa.specs.ControlFlow.{short_of, long_of, flow_of};

use crate::displacement::{long_target, short_target};
use crate::{Condition, Flow, Instruction};

// A branch by a short displacement, counted from the next address. This and `long` stay two functions: given the
// function of the target, one for both would make no call shorter.
pub fn short(condition: Condition, address: u16, displacement: i8) -> Flow
    ensures { result ≡ short_of condition address displacement }
{
    Flow::Branch {
        condition,
        target: short_target(address, displacement),
    }
}

// A branch by a long displacement, counted from the opcode's address plus 2.
pub fn long(condition: Condition, address: u16, displacement: i8) -> Flow
    ensures { result ≡ long_of condition address displacement }
{
    Flow::Branch {
        condition,
        target: long_target(address, displacement),
    }
}

// Where the instruction at an address continues.
#[tactic(auto, unfolding(crate::specs::ControlFlow::flow_of))]
pub fn flow_of(i: Instruction, at: u16) -> Flow
    ensures { result ≡ flow_of i at }
{
    match i {
        Instruction::Jrnz(e) => short(Condition::Zero(false), at, e),
        Instruction::Jrnc(e) => short(Condition::Carry(false), at, e),
        Instruction::Jrz(e) => short(Condition::Zero(true), at, e),
        Instruction::Jrc(e) => short(Condition::Carry(true), at, e),
        Instruction::Call(target) => Flow::Call(target),
        Instruction::Jp(target) => Flow::Jump(target),
        Instruction::Jrr(bit, address, displacement) => long(
            Condition::Bit {
                address,
                bit,
                value: false,
            },
            at,
            displacement,
        ),
        Instruction::Jrs(bit, address, displacement) => long(
            Condition::Bit {
                address,
                bit,
                value: true,
            },
            at,
            displacement,
        ),
        Instruction::Ret => Flow::Return,
        Instruction::Reti => Flow::ReturnFromInterrupt,
        Instruction::Stop => Flow::Sleep,
        Instruction::Wait => Flow::Sleep,
        _ => Flow::Next,
    }
}
