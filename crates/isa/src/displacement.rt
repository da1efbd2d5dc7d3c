// Signed displacements of relative jumps, and the addresses that they reach.
ghost use Rattle.std.specs.Prelude.{◌≡◌};
ghost use Rattle.isa.specs.Displacement.{short_displacement, long_displacement, modulo};
ghost use Rattle.isa.specs.Displacement.{forward_of, target_of, short_target, long_target};
ghost use Rattle.isa.specs.Encode.{in_field};

// The opcode's top five bits, signed, by the formula `short_formula` (specs/ShortDisplacement): no comparison and no
// branch.
pub fn short_displacement(opcode: u8) -> i8
    ensures { result ≡ short_displacement opcode }
{
    ((opcode / 8 + 16) % 32) as i8 - 16
}

// A byte, signed.
pub fn long_displacement(byte: u8) -> i8
    ensures { result ≡ long_displacement byte }
{
    (((byte as u16 + 128) % 256) as i16 - 128) as i8
}

// A displacement modulo 4096.
fn residue(displacement: i8) -> u16
    ensures { result ≡ modulo 4096 displacement }
{
    (displacement as i16 + 4096) as u16 % 4096
}

// The byte of a long displacement.
pub fn long_byte(displacement: i8) -> u8
    ensures { result ≡ modulo 256 displacement }
{
    (residue(displacement) % 256) as u8
}

// The five bits of a short displacement.
pub fn short_field(displacement: i8) -> u8
    ensures { result ≡ modulo 32 displacement }
{
    (residue(displacement) % 32) as u8
}

// The address so many bytes on, modulo 4096.
pub fn forward(address: u16, count: u8) -> u16
    ensures { result ≡ forward_of address count }
{
    ((address as u32 + count as u32) % 4096) as u16
}

// The address that lies a displacement away, modulo 4096.
pub fn target(address: u16, displacement: i8) -> u16
    ensures { result ≡ target_of address displacement }
{
    (address % 4096 + residue(displacement)) % 4096
}

// The target of a short displacement, counted from the address after the branch.
pub fn short_target(address: u16, displacement: i8) -> u16
    ensures { result ≡ short_target address displacement }
{
    target(forward(address, 1), displacement)
}

// The target of a long displacement, counted from the branch's address plus 2.
pub fn long_target(address: u16, displacement: i8) -> u16
    ensures { result ≡ long_target address displacement }
{
    target(forward(address, 2), displacement)
}

// Whether a displacement lies in -16 to 15.
pub fn is_short(displacement: i8) -> bool
    ensures { result ≡ in_field 5 displacement }
{
    (-16..=15).contains(&displacement)
}
