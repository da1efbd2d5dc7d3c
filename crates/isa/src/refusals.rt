// Refusals by the papers' numbers.
ghost use Rattle.std.specs.Prelude.{◌≡◌};
ghost use Rattle.isa.specs.Refusals.{as_numbered, numbered};

use crate::{Number, Refusal};

// The number of a refusal, with the address where the papers give one.
pub fn number_of(refusal: Refusal) -> Number
    ensures { as_numbered result ≡ numbered refusal }
{
    match refusal {
        Refusal::ImageLength => Number::Plain(1),
        Refusal::IllFormedMachine => Number::Plain(2),
        Refusal::AddressRange => Number::Plain(3),
        Refusal::OutsideRom(a) => Number::Located(4, a),
        Refusal::UndefinedOpcode(a) => Number::Located(5, a),
        Refusal::StackFull(a) => Number::Located(6, a),
        Refusal::StackEmpty(a) => Number::Located(7, a),
        Refusal::OperandRange => Number::Plain(8),
        Refusal::BufferLength => Number::Plain(9),
        Refusal::WindowAddress => Number::Plain(10),
        Refusal::UnknownSource => Number::Plain(11),
        Refusal::StepCount => Number::Plain(12),
        Refusal::CertificateLength => Number::Plain(13),
        Refusal::MalformedMark(a) => Number::Located(14, a),
        Refusal::MisplacedReturn(a) => Number::Located(15, a),
        Refusal::SuccessorKind(a) => Number::Located(16, a),
        Refusal::NeedTooSmall(a) => Number::Located(17, a),
        Refusal::VectorKind(a) => Number::Located(18, a),
        Refusal::TooManyLevels => Number::Plain(19),
        Refusal::JobTooShort => Number::Plain(20),
        Refusal::JobVersion => Number::Plain(21),
        Refusal::JobLength => Number::Plain(22),
        Refusal::CheckRefused => Number::Plain(23),
        Refusal::NoSleep => Number::Plain(24),
        Refusal::CertificateBuffer => Number::Plain(25),
        Refusal::NoCertificate => Number::Plain(26),
        Refusal::RecordVersion => Number::Plain(27),
        Refusal::RecordLength => Number::Plain(28),
        Refusal::RecordEntry => Number::Plain(29),
        Refusal::RecordTooLong => Number::Plain(30),
    }
}
