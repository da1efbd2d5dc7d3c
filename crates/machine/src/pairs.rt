// The flag pair of a mode. By tests, since a match on five modes is compiled into a jump through a table in every step.
ghost use Rattle.std.specs.Prelude.{◌≡◌};
ghost use Rattle.machine.specs.Pairs.{pair_of, with_pair_of};

use crate::FlagPairs;
use alu::Flags;
use control::Mode;

// The pair in use in a mode.
pub fn pair(pairs: FlagPairs, mode: Mode) -> Flags
    ensures { result ≡ pair_of pairs mode }
{
    if mode == Mode::Normal {
        return pairs.normal;
    }
    if mode == Mode::Interrupt {
        return pairs.interrupt;
    }
    pairs.nmi
}

// The pairs with another one in use in a mode.
pub fn with_pair(pairs: FlagPairs, mode: Mode, flags: Flags) -> FlagPairs
    ensures { result ≡ with_pair_of pairs mode flags }
{
    if mode == Mode::Normal {
        return FlagPairs {
            normal: flags,
            ..pairs
        };
    }
    if mode == Mode::Interrupt {
        return FlagPairs {
            interrupt: flags,
            ..pairs
        };
    }
    FlagPairs {
        nmi: flags,
        ..pairs
    }
}
