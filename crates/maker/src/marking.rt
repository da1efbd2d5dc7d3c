// Marks are raised until they meet what an instruction demands of them.
ghost use Rattle.std.specs.Prelude.{◌≡◌, ◌≤◌, [], ◌∷◌, Some, MatchOption};
ghost use Rattle.isa.specs.Rom.{IsImage};
ghost use Rattle.certificate.specs.Marks.{kind_number, kind_at};
ghost use Rattle.certificate.specs.Successors.{successor_of, listed};
ghost use Rattle.certificate.specs.Links.{Every};
ghost use Rattle.maker.specs.Making.{Outside, IsPlace, Small, Demanded, Followed, Visited};

use crate::{Change, Impossible, Visit};
use certificate::marks::{Kind, KindNumber, MOST_LEVELS, kind_at, need_at};
use certificate::successors::{Successor, Successors, is_placed, successors_of};
use isa::flow_at::flow_in;
use isa::rom::PROGRAM_SPACE;

// Where an address has its mark.
fn place_of(certificate: &[u8], address: u16) -> Option<usize>
    ensures { MatchOption result (Outside certificate.now address)
        (IsPlace certificate.now address) }
{
    let at = address as usize;
    let end = at + certificate.len();
    if PROGRAM_SPACE <= at || end < PROGRAM_SPACE {
        return None;
    }
    Some(end - PROGRAM_SPACE)
}

// Demands a kind and at least a need at an address.
pub fn demand<K: KindNumber>(certificate: &mut [u8], address: u16, kind: K, need: u8) -> Change
    requires { K.number kind ≤ 4 }
    ensures { Demanded certificate.old certificate.new address (K.number kind) need result }
{
    let Some(at) = place_of(certificate, address) else {
        return Err(Impossible);
    };
    if MOST_LEVELS < need {
        return Err(Impossible);
    }
    let mark = certificate[at];
    let digit = kind.number();
    if mark != 0 && mark / 16 != digit {
        return Err(Impossible);
    }
    let wanted = digit * 16 + need;
    if wanted <= mark {
        return Ok(false);
    }
    certificate[at] = wanted;
    Ok(true)
}

// Raises the need of an address that has a kind to at least a need.
pub fn raise_at(certificate: &mut [u8], address: u16, need: u8) -> Change
    ensures { Demanded certificate.old certificate.new address
        (kind_at certificate.old address) need result }
{
    let Some(at) = place_of(certificate, address) else {
        return Err(Impossible);
    };
    let mark = certificate[at];
    if need <= mark % 16 {
        return Ok(false);
    }
    if MOST_LEVELS < need {
        return Err(Impossible);
    }
    certificate[at] = mark / 16 * 16 + need;
    Ok(true)
}

// Follows the way from an address, in code of a kind, to a successor: this has its kind, and the need here suffices
// for it.
fn follow(certificate: &mut [u8], address: u16, kind: Kind, successor: Successor<Kind>) -> Change
    requires { Small (successor_of successor) }
    ensures { Followed certificate.old certificate.new address (kind_number (Some kind))
        (successor_of successor ∷ []) result }
{
    let marked = demand(certificate, successor.address, successor.kind, 0)?;
    let need = need_at(certificate, successor.address) + successor.levels;
    // Where no level is needed nothing is demanded here: the most common case, as an address is found.
    if need == 0 {
        return Ok(marked);
    }
    let raised = demand(certificate, address, kind, need)?;
    Ok(marked | raised)
}

// Follows the ways to all successors.
fn follow_all(
    certificate: &mut [u8],
    address: u16,
    kind: Kind,
    successors: Successors<Kind>,
) -> Change
    requires { Every Small (listed successors) }
    ensures { Followed certificate.old certificate.new address (kind_number (Some kind))
        (listed successors) result }
{
    match successors {
        Successors::None => Ok(false),
        Successors::One(successor) => follow(certificate, address, kind, successor),
        Successors::Two(first, second) => {
            let changed = follow(certificate, address, kind, first)?;
            Ok(changed | follow(certificate, address, kind, second)?)
        }
    }
}

// Visits an address with a page in place: where it is marked, an instruction stands there that may stand in code of its
// kind, and its successors are followed.
pub fn visit(
    image: &[u8],
    page: u8,
    certificate: &mut [u8],
    address: u16,
) -> Result<Visit, Impossible>
    requires { IsImage image.now }
    ensures { Visited image.now certificate.old certificate.new page address result }
{
    let Some(kind) = kind_at(certificate, address) else {
        return Ok(Visit {
            changed: false,
            successors: Successors::None,
        });
    };
    let Ok(way) = flow_in(image, page, address) else {
        return Err(Impossible);
    };
    if !is_placed(kind, way.flow) {
        return Err(Impossible);
    }
    let successors = successors_of(kind, way.flow, way.next);
    let changed = follow_all(certificate, address, kind, successors)?;
    Ok(Visit {
        changed,
        successors,
    })
}
