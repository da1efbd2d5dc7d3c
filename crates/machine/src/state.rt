// The machine as a whole: reset, a fresh machine, and host store.
ghost use Rattle.std.specs.Prelude.{◌≡◌};
ghost use Rattle.isa.specs.Refusals.{numbered, done, refused};
ghost use Rattle.machine.specs.State.{
  with_byte,
  stored_of,
  reset_control,
  cleared_pairs,
  reset_of,
  fresh_of,
  host_stored,
  host_store_of,
};

use crate::{FlagPairs, Machine, Stored};
use alu::Flags;
use control::well_formed::is_well_formed;
use control::{Control, Mode};
use data::space::{BANK, INTERRUPT_OPTION, ROM_WINDOW, is_window};
use isa::Refusal;
use isa::sources::RESET_VECTOR;

// Control after reset.
fn reset_control() -> Control
    ensures { result ≡ reset_control }
{
    Control {
        pc: RESET_VECTOR,
        levels: 0,
        mode: Mode::Reset,
        asleep: false,
    }
}

// Six flags cleared. No Default: a flag pair by itself has none.
fn cleared_pairs() -> FlagPairs
    ensures { result ≡ cleared_pairs }
{
    let cleared = Flags {
        zero: false,
        carry: false,
    };
    FlagPairs {
        normal: cleared,
        interrupt: cleared,
        nmi: cleared,
    }
}

// Reset keeps all data but 0C8h, 0C9h and 0CAh. The slots of the stack are cleared too, so that a fresh machine is one
// value.
#[tactic(auto, unfolding(crate::specs::State::reset_of))]
pub fn reset(m: Machine) -> Machine
    ensures { result ≡ reset_of m }
{
    let mut bytes = m.bytes;
    bytes[INTERRUPT_OPTION] = 0;
    bytes[ROM_WINDOW] = 0;
    bytes[BANK] = 0;
    Machine {
        control: reset_control(),
        stack: [0; 6],
        flags: cleared_pairs(),
        bytes,
    }
}

// A fresh machine: a reset one with all data 0.
#[tactic(auto, unfolding(crate::specs::State::fresh_of))]
pub fn fresh() -> Machine
    ensures { result ≡ fresh_of }
{
    reset(Machine {
        control: reset_control(),
        stack: [0; 6],
        flags: cleared_pairs(),
        bytes: [0; 256],
    })
}

fn stored(m: Machine, address: u8, value: u8) -> Stored
    ensures { stored_of result ≡ host_stored (with_byte m address value) (done tt) }
{
    let mut machine = m;
    data::space::store(&mut machine.bytes, address, value);
    Stored {
        machine,
        ending: Ok(()),
    }
}

fn refused_store(m: Machine, refusal: Refusal) -> Stored
    ensures { stored_of result ≡ host_stored m (refused (numbered refusal)) }
{
    Stored {
        machine: m,
        ending: Err(refusal),
    }
}

// Refuses an ill-formed machine, then an address in the ROM window.
#[tactic(auto, unfolding(crate::specs::State::host_store_of))]
pub fn host_store(m: Machine, address: u8, value: u8) -> Stored
    ensures { stored_of result ≡ host_store_of m address value }
{
    if !is_well_formed(&m.stack, m.control) {
        return refused_store(m, Refusal::IllFormedMachine);
    }
    if is_window(address) {
        return refused_store(m, Refusal::WindowAddress);
    }
    stored(m, address, value)
}
