// What a step is about to do.
ghost use Rattle.std.specs.Prelude.{◌≡◌, List, ℕ, ◌<◌};
ghost use Rattle.isa.specs.Rom.{IsImage};
ghost use Rattle.isa.specs.Decode.{decode_at};
ghost use Rattle.data.specs.Space.{program_of};
ghost use Rattle.machine.specs.declared.FlagPairs.{FlagPairs};
ghost use Rattle.machine.specs.State.{machine_of};
ghost use Rattle.machine.specs.Actions.{action_as, decoded_action, due_of, request_in};

use crate::Action;
use crate::advance::is_enabled;
use control::Control;
use control::requests::requested;
use data::space::BANK;
use isa::Source;
use isa::decode::decode_in_range;

// The instruction at PC, or why there is none.
fn at_pc(image: &[u8], bytes: &[u8; 256], c: Control) -> Action
    requires { IsImage image.now × (c.pc < 4096) }
    ensures { action_as result
        ≡ decoded_action (decode_at (program_of image.now bytes.now) c.pc) }
{
    match decode_in_range(image, bytes[BANK], c.pc) {
        Ok(decoded) => Action::Executes(decoded),
        Err(reason) => Action::Refused(reason),
    }
}

// Where 1, 2 and 11 do not apply: a request, sleep, or the instruction at PC.
#[tactic(auto, unfolding(crate::specs::Actions::due_of, crate::specs::Actions::unrequested_action))]
pub fn due(image: &[u8], bytes: &[u8; 256], c: Control, request: u8) -> Action
    requires { IsImage image.now × (c.pc < 4096) }
    ensures { (stack : List ℕ) (flags : FlagPairs) → action_as result
        ≡ due_of (program_of image.now bytes.now)
        (machine_of c stack flags bytes.now) request }
{
    match requested(c.mode, is_enabled(bytes), request) {
        Some(source) => Action::Takes(source),
        None => {
            if c.asleep {
                return Action::Idles;
            }
            at_pc(image, bytes, c)
        }
    }
}

// The request that an action takes, if any.
pub fn request_in(action: Action) -> Option<Source>
    ensures { result ≡ request_in (action_as action) }
{
    match action {
        Action::Takes(source) => Some(source),
        _ => None,
    }
}
