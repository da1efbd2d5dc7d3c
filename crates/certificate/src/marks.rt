// Marks: the kind in the high digit, the need in the low one.
ghost use Rattle.std.specs.Prelude.{◌≡◌, ℕ, Some};
ghost use Rattle.certificate.specs.Marks.{mark_at, kind_of, kind_number, need_of, kind_at, need_at};

use isa::rom::PROGRAM_SPACE;

// What an address is code of.
#[derive(Clone, Copy, Debug, PartialEq, Eq)]
pub enum Kind {
    StartUp = 1,
    Main = 2,
    Service = 3,
    Subroutine = 4,
}

// A kind's digit in a mark.
impl From<Kind> for u8 {
    ghost from_gives = { λ kind r. r ≡ kind_number (Some kind) };

    fn from(kind: Kind) -> u8 {
        kind as u8
    }
}

// A kind as a rule of successors is asked about it: one of the four, or any number. A number that is no kind has rules
// too: it may stand anywhere but where a return needs one of the four, and it goes on as what it is.
pub trait KindNumber: Copy {
    ghost number: { Self → ℕ };

    fn number(self) -> u8
        ensures { result ≡ number self };

    // The kind that a rule names.
    fn of(kind: Kind) -> Self
        ensures { number result ≡ kind_number (Some kind) };
}

impl KindNumber for Kind {
    ghost number = { λ kind. kind_number (Some kind) };

    fn number(self) -> u8 {
        self as u8
    }

    fn of(kind: Kind) -> Self {
        kind
    }
}

impl KindNumber for u8 {
    ghost number = { λ kind. kind };

    fn number(self) -> u8 {
        self
    }

    fn of(kind: Kind) -> Self {
        u8::from(kind)
    }
}

// The levels of the stack: no need, and no certificate's levels, may be more.
pub const MOST_LEVELS: u8 = 6;

// The mark of a program address. Outside ROM it is 0 and not None: the paper counts such an address as unmarked. The
// last mark is that of FFFh.
#[tactic(auto, unfolding(crate::specs::Marks::mark_at))]
pub fn mark_at(certificate: &[u8], address: u16) -> u8
    ensures { result ≡ mark_at certificate.now address }
{
    let at = address as usize;
    let end = at + certificate.len();
    if PROGRAM_SPACE <= at || end < PROGRAM_SPACE {
        return 0;
    }
    certificate[end - PROGRAM_SPACE]
}

// The kind of a mark; none where there is no mark or it is malformed.
pub fn kind_of(mark: u8) -> Option<Kind>
    ensures { kind_number result ≡ kind_of mark }
{
    if MOST_LEVELS < mark % 16 {
        return None;
    }
    match mark / 16 {
        1 => Some(Kind::StartUp),
        2 => Some(Kind::Main),
        3 => Some(Kind::Service),
        4 => Some(Kind::Subroutine),
        _ => None,
    }
}

// The number of a mark's kind, 0 where there is no mark or it is malformed.
pub fn kind_digit(mark: u8) -> u8
    ensures { result ≡ kind_of mark }
{
    match kind_of(mark) {
        Some(kind) => kind.number(),
        None => 0,
    }
}

// The need of a mark.
pub fn need_of(mark: u8) -> u8
    ensures { result ≡ need_of mark }
{
    mark % 16
}

// The kind of an address; none where it is outside ROM, unmarked or malformed.
#[tactic(auto, unfolding(crate::specs::Marks::kind_at))]
pub fn kind_at(certificate: &[u8], address: u16) -> Option<Kind>
    ensures { kind_number result ≡ kind_at certificate.now address }
{
    kind_of(mark_at(certificate, address))
}

// The need of an address.
#[tactic(auto, unfolding(crate::specs::Marks::need_at))]
pub fn need_at(certificate: &[u8], address: u16) -> u8
    ensures { result ≡ need_at certificate.now address }
{
    need_of(mark_at(certificate, address))
}
