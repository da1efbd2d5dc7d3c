// Keys pressed in turn: the bench holds one machine, and lends it to one key after the other.
ghost use Rattle.std.specs.Prelude.{◌≡◌};
ghost use Rattle.machine.specs.State.{reset_of, host_store_of};
ghost use Rattle.machine.specs.Run.{ran_of, run_of};

use crate::keys::{key_reset, key_run, key_store};
use machine::{Machine, Ran};

// Reset, a host store, a run. A store that is refused leaves the machine to the run as reset made it.
pub fn reset_store_run(
    image: &[u8],
    m: Machine,
    address: u8,
    value: u8,
    requests: &[u8],
    n: u32,
) -> Ran
    ensures { ran_of result
        ≡ run_of image.now (host_store_of (reset_of m) address value).machine requests.now n }
{
    let mut held = m;
    key_reset(&mut held);
    let _ = key_store(&mut held, address, value);
    let report = key_run(&mut held, image, requests, n);
    Ran {
        machine: held,
        report,
    }
}
