// Well-formedness: what every operation on a machine asks of its control and stack.
ghost use Rattle.std.specs.Prelude.{◌≡◌, ◌≤◌, ◌<◌, ◌↔◌, IsTrue, EachIndex, slice_index};
ghost use Rattle.control.specs.WellFormed.{addresses_fit, well_formed};

use crate::Control;
use crate::stack::LEVELS;

// Whether each of these return addresses is at most FFFh.
fn all_fit(addresses: &[u16]) -> bool
    ensures { IsTrue result ↔ EachIndex addresses.now (λ k. slice_index addresses.now k < 4096) }
{
    addresses.iter().all(|address| *address < 0x1000)
}

// Whether each return address in use is at most FFFh.
fn addresses_fit(stack: &[u16; 6], levels: u8) -> bool
    requires { levels ≤ 6 }
    ensures { result ≡ addresses_fit stack.now levels }
{
    all_fit(&stack[..levels as usize])
}

// Whether control and its stack are well formed.
#[tactic(auto, unfolding(crate::specs::WellFormed::well_formed))]
pub fn is_well_formed(stack: &[u16; 6], c: Control) -> bool
    ensures { result ≡ well_formed stack.now c }
{
    let levels = c.levels;
    if 0x1000 <= c.pc || LEVELS < levels {
        return false;
    }
    addresses_fit(stack, levels)
}
