// The certificate maker (document 02, W-202): the least certificate that the check accepts for an image and its wired
// sources, or that there is none.
#![tactic(auto)]

mod graph;
pub mod make;
mod marking;
mod sources;
mod spread;
mod sweep;

ghost use Rattle.std.specs.Prelude.{◌≡◌};
ghost use Rattle.isa.specs.declared.Refusal.TheVariants.{NoCertificate};

use certificate::marks::Kind;
use certificate::successors::Successors;
use isa::Refusal;

// No certificate can meet the demands.
#[derive(Clone, Copy, Debug, PartialEq, Eq)]
pub struct Impossible;

impl From<Impossible> for Refusal {
    ghost from_gives = { λ _ refusal. refusal ≡ NoCertificate };

    fn from(_impossible: Impossible) -> Refusal {
        Refusal::NoCertificate
    }
}

// Whether a part of the work raised marks: where it did not, they meet its demands.
pub type Change = Result<bool, Impossible>;

// What a visit to an address did, and where its instruction leads.
#[derive(Clone, Copy)]
pub struct Visit {
    pub changed: bool,
    pub successors: Successors<Kind>,
}
