// From the machine to its state's bytes, and a run's report.
ghost use Rattle.std.specs.Prelude.{◌≡◌, length};
ghost use Rattle.machine.specs.State.{machine_of};
ghost use Rattle.exports.specs.States.{control_bytes, stack_bytes, packed};
ghost use Rattle.exports.specs.Lent.{report_bytes};

use crate::copying::put;
use control::Control;
use machine::{FlagPairs, Machine};

// The twelve bytes of control and flags.
#[tactic(auto, unfolding(crate::specs::States::control_bytes))]
fn control_bytes(c: Control, f: FlagPairs) -> [u8; 12]
    ensures { result ≡ control_bytes c f }
{
    let [low, high] = c.pc.to_le_bytes();
    [
        low,
        high,
        c.levels,
        u8::from(c.mode),
        u8::from(c.asleep),
        u8::from(f.normal.zero),
        u8::from(f.normal.carry),
        u8::from(f.interrupt.zero),
        u8::from(f.interrupt.carry),
        u8::from(f.nmi.zero),
        u8::from(f.nmi.carry),
        0,
    ]
}

#[tactic(auto, unfolding(crate::specs::States::stack_bytes))]
fn stack_bytes(stack: &[u16; 6]) -> [u8; 12]
    ensures { result ≡ stack_bytes stack.now }
{
    let [a, b] = stack[0].to_le_bytes();
    let [c, d] = stack[1].to_le_bytes();
    let [e, f] = stack[2].to_le_bytes();
    let [g, h] = stack[3].to_le_bytes();
    let [i, j] = stack[4].to_le_bytes();
    let [k, l] = stack[5].to_le_bytes();
    [a, b, c, d, e, f, g, h, i, j, k, l]
}

// The parts of a machine as a state.
pub fn pack_parts(
    state: &mut [u8],
    bytes: &[u8; 256],
    stack: &[u16; 6],
    c: Control,
    flags: FlagPairs,
)
    requires { length state.old ≡ 280 }
    ensures { state.new
        ≡ packed (machine_of c stack.now flags bytes.now) }
{
    let control = control_bytes(c, flags);
    let returns = stack_bytes(stack);
    put(state, 0, bytes);
    put(state, 256, &control);
    put(state, 268, &returns);
}

// The machine as a state.
pub fn pack(state: &mut [u8], m: Machine)
    requires { length state.old ≡ 280 }
    ensures { state.new ≡ packed m }
{
    pack_parts(state, &m.bytes, &m.stack, m.control, m.flags);
}

// A run's report: steps and cycles, four bytes each.
#[tactic(auto, unfolding(crate::specs::Lent::report_bytes))]
pub fn report_bytes(steps: u32, cycles: u32) -> [u8; 8]
    ensures { result ≡ report_bytes steps cycles }
{
    let [a, b, c, d] = steps.to_le_bytes();
    let [e, f, g, h] = cycles.to_le_bytes();
    [a, b, c, d, e, f, g, h]
}
