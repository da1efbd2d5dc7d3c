// The rules of one instruction: where it may stand, where it leads, and what the marks there must be.
ghost use Rattle.std.specs.Prelude.{◌≡◌, Some, true, false, MatchResult};
ghost use Rattle.isa.specs.Refusals.{answered, located, unless};
ghost use Rattle.certificate.specs.Marks.{mark_at, kind_number};
ghost use Rattle.certificate.specs.Findings.{passes, fault};
ghost use Rattle.certificate.specs.Successors.{placed, continues_at, successors_of, successor_by, listed_by};
ghost use Rattle.certificate.specs.Successors.{has_kind, covers_mark, successors_found};

use crate::marks::{Kind, KindNumber, kind_digit, mark_at, need_of};
use isa::{Flow, Refusal};

// A successor of an instruction or the target of a CALL: the kind that its mark must have, and the levels that going
// there takes.
#[derive(Clone, Copy, Debug, PartialEq, Eq)]
pub struct Successor<K> {
    pub address: u16,
    pub kind: K,
    pub levels: u8,
}

// The successors of an instruction, in the order in which the check looks: up to two, so no Option; an array with a count
// would be gone through in a loop, and the time of the check is measured.
#[derive(Clone, Copy, Debug, PartialEq, Eq)]
pub enum Successors<K> {
    None,
    One(Successor<K>),
    Two(Successor<K>, Successor<K>),
}

// Whether an instruction may stand in code of a kind: RET only in subroutines, RETI only in start-up and services.
#[tactic(auto, unfolding(crate::specs::Successors::placed))]
pub fn is_placed<K: KindNumber>(kind: K, flow: Flow) -> bool
    ensures { result ≡ placed (K.number kind) flow }
{
    match flow {
        Flow::Return => kind.number() == Kind::Subroutine.number(),
        Flow::ReturnFromInterrupt => {
            kind.number() == Kind::StartUp.number() || kind.number() == Kind::Service.number()
        }
        _ => true,
    }
}

// A successor in code of a kind, which takes no level.
fn continues_at<K: KindNumber>(address: u16, kind: K) -> Successor<K>
    ensures { successor_by K.number result ≡ continues_at address (K.number kind) }
{
    Successor {
        address,
        kind,
        levels: 0,
    }
}

// Where an instruction in code of a kind leads. Only RETI leaves its kind: start-up code ends, and main code begins.
#[tactic(auto, unfolding(crate::specs::Successors::successors_of))]
pub fn successors_of<K: KindNumber>(kind: K, flow: Flow, next: u16) -> Successors<K>
    ensures { listed_by K.number result ≡ successors_of (K.number kind) flow next }
{
    match flow {
        Flow::Next | Flow::Sleep => Successors::One(continues_at(next, kind)),
        Flow::Jump(target) => Successors::One(continues_at(target, kind)),
        Flow::Branch {
            condition: _,
            target,
        } => Successors::Two(continues_at(target, kind), continues_at(next, kind)),
        // The pushed return address takes a level.
        Flow::Call(target) => Successors::Two(
            Successor {
                address: target,
                kind: K::of(Kind::Subroutine),
                levels: 1,
            },
            continues_at(next, kind),
        ),
        Flow::Return => Successors::None,
        Flow::ReturnFromInterrupt => {
            if kind.number() == Kind::StartUp.number() {
                Successors::One(continues_at(next, K::of(Kind::Main)))
            } else {
                Successors::None
            }
        }
    }
}

// 16: the mark of a successor, where it has the kind that it must have.
#[tactic(auto, unfolding(crate::specs::Marks::kind_at))]
fn check_kind<K: KindNumber>(
    certificate: &[u8],
    address: u16,
    successor: Successor<K>,
) -> Result<u8, Refusal>
    ensures { MatchResult result
        (λ mark. (mark ≡ mark_at certificate.now successor.address)
        × (has_kind certificate.now (successor_by K.number successor) ≡ true))
        (λ refusal. (refusal ≡ Refusal.SuccessorKind address)
        × (has_kind certificate.now (successor_by K.number successor) ≡ false)) }
{
    let mark = mark_at(certificate, successor.address);
    if kind_digit(mark) == successor.kind.number() {
        Ok(mark)
    } else {
        Err(Refusal::SuccessorKind(address))
    }
}

// 17: whether a need covers that of a successor's mark, with the levels that going there takes. In 32 bits, which the
// processor compares with fewer instructions than 16.
fn check_need(address: u16, need: u8, mark: u8, levels: u8) -> Result<(), Refusal>
    ensures { answered result ≡ unless (covers_mark need mark levels) (fault (located 17 address)) passes }
{
    if need_of(mark) as u32 + levels as u32 <= need as u32 {
        Ok(())
    } else {
        Err(Refusal::NeedTooSmall(address))
    }
}

// 16 and 17 of the instruction at an address with a need: the 16 of either successor comes before the 17 of either. Each
// mark is looked up once.
#[tactic(auto, unfolding(crate::specs::Successors::successors_found, crate::specs::Successors::all_have_kind, crate::specs::Successors::covers_all, crate::specs::Marks::need_at))]
pub fn check_successors<K: KindNumber>(
    certificate: &[u8],
    address: u16,
    need: u8,
    successors: Successors<K>,
) -> Result<(), Refusal>
    ensures { answered result ≡ successors_found certificate.now address need
        (listed_by K.number successors) }
{
    match successors {
        Successors::None => Ok(()),
        Successors::One(successor) => {
            let mark = check_kind(certificate, address, successor)?;
            check_need(address, need, mark, successor.levels)
        }
        Successors::Two(first, second) => {
            let first_mark = check_kind(certificate, address, first)?;
            let second_mark = check_kind(certificate, address, second)?;
            check_need(address, need, first_mark, first.levels)?;
            check_need(address, need, second_mark, second.levels)
        }
    }
}
