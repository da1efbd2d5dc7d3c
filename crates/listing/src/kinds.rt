// The kinds of marks in words.
ghost use Rattle.listing.specs.Pieces.{Adds};
ghost use Rattle.listing.specs.Kinds.{kind_name};

use crate::Line;
use certificate::marks::{Kind, kind_of};

// Adds the name of a mark's kind.
#[tactic(auto, unfolding(crate::specs::Kinds::kind_name))]
pub fn kind_name(line: Line, mark: u8) -> Line
    ensures { Adds (kind_name mark) line result }
{
    if mark == 0 {
        return line.word(b"unmarked");
    }
    match kind_of(mark) {
        Some(Kind::StartUp) => line.word(b"start-up"),
        Some(Kind::Main) => line.word(b"main"),
        Some(Kind::Service) => line.word(b"service"),
        Some(Kind::Subroutine) => line.word(b"subroutine"),
        None => line.word(b"malformed"),
    }
}
