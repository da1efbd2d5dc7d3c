// Requests: which one a step takes, and what taking it does.
ghost use Rattle.std.specs.Prelude.{◌≡◌};
ghost use Rattle.control.specs.Stack.{transfer_of};
ghost use Rattle.control.specs.Requests.{can_take, is_taken, requested_of, nmi_over, service_mode, serving_of, take_of};

use crate::stack::push;
use crate::{Control, Mode, Stop};
use isa::Source;
use isa::sources::{SOURCES, names, vector_of};

// Whether a mode takes a source's request.
fn takes(mode: Mode, enabled: bool, source: Source) -> bool
    ensures { result ≡ can_take mode enabled source }
{
    match mode {
        Mode::Normal => source == Source::Nmi || enabled,
        Mode::Interrupt => source == Source::Nmi,
        Mode::Reset => false,
        Mode::NmiOverNormal => false,
        Mode::NmiOverInterrupt => false,
    }
}

// Whether a request byte asks for a source that the mode takes.
fn is_taken(mode: Mode, enabled: bool, request: u8, source: Source) -> bool
    ensures { result ≡ is_taken mode enabled request source }
{
    names(request, source) && takes(mode, enabled, source)
}

// The request that a step takes: the lowest number wins among those that can be taken now.
pub fn requested(mode: Mode, enabled: bool, request: u8) -> Option<Source>
    ensures { result ≡ requested_of mode enabled request }
{
    // Most steps have no request.
    if request == 0 {
        return None;
    }
    for source in SOURCES {
        if is_taken(mode, enabled, request, source) {
            return Some(source);
        }
    }
    None
}

// The mode of NMI's service over a mode.
fn nmi_over(mode: Mode) -> Mode
    ensures { result ≡ nmi_over mode }
{
    match mode {
        Mode::Reset | Mode::Normal | Mode::NmiOverNormal => Mode::NmiOverNormal,
        Mode::Interrupt | Mode::NmiOverInterrupt => Mode::NmiOverInterrupt,
    }
}

// The mode of a source's service over a mode.
fn service_mode(source: Source, mode: Mode) -> Mode
    ensures { result ≡ service_mode source mode }
{
    match source {
        Source::Nmi => nmi_over(mode),
        Source::First | Source::Second | Source::Third | Source::Fourth => Mode::Interrupt,
    }
}

// Control at the start of a source's service, awake.
#[tactic(auto, unfolding(crate::specs::Requests::serving_of))]
fn serving(c: Control, source: Source) -> Control
    ensures { result ≡ serving_of c source }
{
    c.with_pc(vector_of(source))
        .with_mode(service_mode(source, c.mode))
        .with_sleep(false)
}

// Taking a request pushes PC: a stop on six levels.
#[tactic(auto, unfolding(crate::specs::Requests::take_of))]
pub fn take(stack: &mut [u16; 6], c: Control, source: Source) -> Result<Control, Stop>
    ensures { transfer_of stack.new (serving_of c source) result ≡ take_of stack.old c source }
{
    let pushed = push(stack, c, c.pc)?;
    Ok(serving(pushed, source))
}
