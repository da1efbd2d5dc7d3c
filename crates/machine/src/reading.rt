// Reading a data byte of a machine, with its origin.
ghost use Rattle.std.specs.Prelude.{◌≡◌};
ghost use Rattle.isa.specs.Refusals.{answered};
ghost use Rattle.machine.specs.Reading.{reading_of};

use crate::Machine;
use control::well_formed::is_well_formed;
use data::Origin;
use data::space::origin;
use isa::Refusal;
use isa::rom::is_image_length;

// A data byte, with its origin.
#[derive(Clone, Copy, Debug, PartialEq, Eq)]
pub struct Reading {
    pub byte: u8,
    pub origin: Origin,
}

// Refuses with 1, then 2.
#[tactic(auto, unfolding(crate::specs::Reading::reading_of))]
pub fn read(image: &[u8], m: Machine, address: u8) -> Result<Reading, Refusal>
    ensures { answered result ≡ reading_of image.now m address }
{
    if !is_image_length(image.len()) {
        return Err(Refusal::ImageLength);
    }
    if !is_well_formed(&m.stack, m.control) {
        return Err(Refusal::IllFormedMachine);
    }
    Ok(Reading {
        byte: data::space::read(image, &m.bytes, address),
        origin: origin(image, &m.bytes, address),
    })
}
