// Sweeps over all marks, until the check accepts them.
ghost use Rattle.std.specs.Prelude.{◌≡◌, true, ◌≤◌, length};
ghost use Rattle.isa.specs.Refusals.{answered};
ghost use Rattle.isa.specs.Rom.{IsImage};
ghost use Rattle.isa.specs.Sources.{names_only_sources};
ghost use Rattle.maker.specs.Making.{Sound, VisitedEach, Swept, Worked, Finished};
ghost use Rattle.maker.specs.Make.{Completed};

use crate::Change;
use crate::marking::visit;
use crate::sources::seed;
use certificate::check::check;
use isa::Refusal;
use isa::rom::{PROGRAM_SPACE, spaces_in};

// Visits an address with each page in place. `explore_at` notes edges too: one function for both would take a closure, and
// promise what each of its calls does to the graph.
fn visit_each(image: &[u8], certificate: &mut [u8], address: u16) -> Change
    requires { IsImage image.now }
    ensures { VisitedEach image.now certificate.old certificate.new address result }
{
    let mut changed = false;
    for page in 0..spaces_in(image.len()) {
        changed |= visit(image, page, certificate, address)?.changed;
    }
    Ok(changed)
}

// Visits all addresses, upward.
fn sweep(image: &[u8], certificate: &mut [u8]) -> Change
    requires { IsImage image.now × (length certificate.old ≤ 4096) }
    ensures { Swept image.now certificate.old certificate.new result }
{
    let mut changed = false;
    for address in PROGRAM_SPACE - certificate.len()..PROGRAM_SPACE {
        changed |= visit_each(image, certificate, address as u16)?;
    }
    Ok(changed)
}

// All demands once: those of the vectors, then those of all addresses.
fn pass(image: &[u8], certificate: &mut [u8], wired: u8) -> Change
    requires { Sound image.now wired certificate.old }
    ensures { Worked image.now wired (Finished image.now wired)
        certificate.old certificate.new result }
{
    let seeded = seed(certificate, wired)?;
    let swept = sweep(image, certificate)?;
    Ok(seeded | swept)
}

// Raises the marks until the check accepts them, or no certificate can be accepted. Where nothing was left out before,
// the first check decides, or a single pass after it: the levels can still be too many. A loop: how many passes it takes
// only the check tells.
pub fn settle(image: &[u8], certificate: &mut [u8], wired: u8) -> Result<u8, Refusal>
    requires { Sound image.now wired certificate.old × (names_only_sources wired ≡ true) }
    ensures { Completed image.now wired certificate.new (answered result) }
{
    loop {
        if let Ok(levels) = check(image, certificate, wired) {
            return Ok(levels);
        }
        if !pass(image, certificate, wired)? {
            return Err(Refusal::NoCertificate);
        }
    }
}
