// Where no certificate exists: marks that come as far as they can. What the check first refuses of them is the first
// rule that cannot be met.
use certificate::marks::{Kind, MOST_LEVELS, kind_at, mark_at, need_at};
use certificate::successors::{Successor, Successors, is_placed, successors_of};
use isa::flow_at::flow_at;
use isa::rom::{PROGRAM_SPACE, Space};
use isa::sources::{RESET_VECTOR, SOURCES, names, vector_of};
use listing::pages::choices_in;

// More passes than there are marks to raise.
const MOST_PASSES: u32 = 32768;

// Sets the mark of an address in ROM.
fn set_mark(certificate: &mut [u8], address: u16, mark: u8) {
    let at = usize::from(address);
    let end = at + certificate.len();
    if PROGRAM_SPACE <= at || end < PROGRAM_SPACE {
        return;
    }
    certificate[end - PROGRAM_SPACE] = mark;
}

// Marks an address with a kind, unless it is marked: the first kind to come stays.
fn begin(certificate: &mut [u8], address: u16, kind: Kind) -> bool {
    if mark_at(certificate, address) != 0 {
        return false;
    }
    set_mark(certificate, address, mark_of(kind, 0));
    mark_at(certificate, address) != 0
}

// The mark of a kind and a need, of which a mark has six at most.
fn mark_of(kind: Kind, need: u8) -> u8 {
    u8::from(kind) * 16 + need.min(MOST_LEVELS)
}

// Raises the need of an address in code of a kind, as far as a mark can have it, to what a successor asks for.
fn raise(certificate: &mut [u8], address: u16, kind: Kind, successor: Successor<Kind>) -> bool {
    if kind_at(certificate, successor.address) != Some(successor.kind) {
        return false;
    }
    let asked = need_at(certificate, successor.address).saturating_add(successor.levels);
    let need = asked.min(MOST_LEVELS);
    if need <= need_at(certificate, address) {
        return false;
    }
    set_mark(certificate, address, mark_of(kind, need));
    true
}

fn follow(certificate: &mut [u8], address: u16, kind: Kind, successor: Successor<Kind>) -> bool {
    let begun = begin(certificate, successor.address, successor.kind);
    let raised = raise(certificate, address, kind, successor);
    begun || raised
}

// Follows an instruction to where it leads in a program space; whether a mark changed.
fn visit(space: Space, certificate: &mut [u8], address: u16) -> bool {
    let Some(kind) = kind_at(certificate, address) else {
        return false;
    };
    let Ok(continuation) = flow_at(space, address) else {
        return false;
    };
    if !is_placed(kind, continuation.flow) {
        return false;
    }
    match successors_of(kind, continuation.flow, continuation.next) {
        Successors::None => false,
        Successors::One(successor) => follow(certificate, address, kind, successor),
        Successors::Two(first, second) => {
            let changed = follow(certificate, address, kind, first);
            let later = follow(certificate, address, kind, second);
            changed || later
        }
    }
}

// Visits all addresses, downward: most instructions lead upward, and needs come back from there.
fn pass(space: Space, certificate: &mut [u8]) -> bool {
    let mut changed = false;
    for address in (0..4096u16).rev() {
        changed |= visit(space, certificate, address);
    }
    changed
}

// A pass with each page in place: what can be reached with any of them is reached.
fn pass_pages(image: &[u8], certificate: &mut [u8]) -> bool {
    let mut changed = false;
    for page in 0..choices_in(image.len()) {
        changed |= pass(Space::of(image, page), certificate);
    }
    changed
}

fn begin_vectors(certificate: &mut [u8], wired: u8) {
    begin(certificate, RESET_VECTOR, Kind::StartUp);
    for source in SOURCES {
        if names(wired, source) {
            begin(certificate, vector_of(source), Kind::Service);
        }
    }
}

// Marks, in marks that are all 00h, what can be reached.
pub fn attempt(image: &[u8], wired: u8, certificate: &mut [u8]) {
    begin_vectors(certificate, wired);
    for _ in 0..MOST_PASSES {
        if !pass_pages(image, certificate) {
            return;
        }
    }
}
