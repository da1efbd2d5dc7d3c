// The keys of the bench. A key is lent the one machine by `&mut`, calls the operation on values and stores the machine
// of its answer. So the machine that a key leaves, with what it returns, is what the operation on values answers, also
// where it refuses. Four functions: one for all would take the operation as a closure, longer than the lines it spares.
ghost use Rattle.std.specs.Prelude.{◌≡◌};
ghost use Rattle.isa.specs.Refusals.{answered};
ghost use Rattle.machine.specs.State.{reset_of, host_store_of};
ghost use Rattle.machine.specs.Actions.{action_as};
ghost use Rattle.machine.specs.Step.{action_of, step_of};
ghost use Rattle.machine.specs.Run.{report_of, run_of};
ghost use Rattle.machine.specs.Operands.{step_read_of};

use isa::Refusal;
use machine::run::run;
use machine::state::{host_store, reset};
use machine::step::step;
use machine::{Machine, Report, StepReport};

pub fn key_step(m: &mut Machine, image: &[u8], request: u8) -> StepReport
    ensures { (record { machine = m.new; answer = answered result.answer }
        ≡ step_of image.now m.old request)
        × (result.read ≡ step_read_of image.now m.old request)
        × (action_as result.action ≡ action_of image.now m.old request) }
{
    let after = step(image, *m, request);
    *m = after.machine;
    after.report
}

pub fn key_run(m: &mut Machine, image: &[u8], requests: &[u8], n: u32) -> Report
    ensures { record { machine = m.new; report = report_of result }
        ≡ run_of image.now m.old requests.now n }
{
    let after = run(image, *m, requests, n);
    *m = after.machine;
    after.report
}

pub fn key_reset(m: &mut Machine)
    ensures { m.new ≡ reset_of m.old }
{
    *m = reset(*m);
}

pub fn key_store(m: &mut Machine, address: u8, value: u8) -> Result<(), Refusal>
    ensures { record { machine = m.new; ending = answered result }
        ≡ host_store_of m.old address value }
{
    let after = host_store(*m, address, value);
    *m = after.machine;
    after.ending
}
