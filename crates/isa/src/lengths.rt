// The length of an instruction on a data operand.
ghost use Rattle.std.specs.Prelude.{◌≡◌};
ghost use Rattle.isa.specs.Lengths.{length_with};

use crate::Operand;

// A direct operand takes a byte more.
pub fn length_with(operand: Operand) -> u8
    ensures { result ≡ length_with operand }
{
    match operand {
        Operand::Direct(_) => 2,
        Operand::Short(_) | Operand::ThroughX | Operand::ThroughY => 1,
    }
}
