// A machine run without requests until it sleeps.
ghost use Rattle.std.specs.Prelude.{◌≡◌};
ghost use Rattle.isa.specs.Refusals.{answered};
ghost use Rattle.gauge.specs.Sleep.{width_shown, size_of, Ready, SleepsWithin, SleepsFirst};

use crate::Measured;
use isa::Refusal;
use machine::Machine;
use machine::run::run;
use machine::step::step;

// 51 runs of 1,285 steps are the 65,535 steps in which the machine must sleep. A run begins by clearing a store, in the
// time of some 60 steps, so runs are long.
const RUNS: u16 = 51;

const RUN_STEPS: u16 = 1285;

// The data address of the width's high byte; the low byte follows it.
const WIDTH: usize = 0x84;

// The width that a machine shows.
fn width_shown(m: Machine) -> u16
    ensures { result ≡ width_shown m }
{
    u16::from_be_bytes([m.bytes[WIDTH], m.bytes[WIDTH + 1]])
}

// The first sleep of a machine that is known to sleep within a run, step by step.
fn first_sleep(image: &[u8], m: Machine) -> Measured
    requires { SleepsWithin image.now m 1285 }
    ensures { SleepsFirst image.now m 1285 result.width result.steps }
{
    let mut held = m;
    for steps in 0..RUN_STEPS {
        if held.control.asleep {
            return Measured {
                width: width_shown(held),
                steps,
            };
        }
        held = step(image, held, 0).machine;
    }
    Measured {
        width: width_shown(held),
        steps: RUN_STEPS,
    }
}

// The first sleep of an awake machine, or 24. A sleeping machine without requests stays as it is, so it is enough to
// look after every run, and to take the steps of the last one again. No step stops (demand 3), so the reports say
// nothing new.
pub fn measure(image: &[u8], m: Machine) -> Result<Measured, Refusal>
    requires { Ready image.now m }
    ensures { answered result ≡ size_of image.now m }
{
    let mut held = m;
    for i in 0..RUNS {
        let after = run(image, held, &[], RUN_STEPS as u32).machine;
        if after.control.asleep {
            let slept = first_sleep(image, held);
            return Ok(Measured {
                width: slept.width,
                steps: i * RUN_STEPS + slept.steps,
            });
        }
        held = after;
    }
    Err(Refusal::NoSleep)
}
