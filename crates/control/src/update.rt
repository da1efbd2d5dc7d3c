// Control with one part changed. Nothing else in this crate names all its fields.
ghost use Rattle.std.specs.Prelude.{◌≡◌};
ghost use Rattle.control.specs.Update.{with_pc, with_levels, with_mode, with_sleep};

use crate::{Control, Mode};

impl Control {
    pub fn with_pc(self, pc: u16) -> Self
        ensures { result ≡ with_pc self pc }
    {
        Control { pc, ..self }
    }

    pub fn with_levels(self, levels: u8) -> Self
        ensures { result ≡ with_levels self levels }
    {
        Control { levels, ..self }
    }

    pub fn with_mode(self, mode: Mode) -> Self
        ensures { result ≡ with_mode self mode }
    {
        Control { mode, ..self }
    }

    pub fn with_sleep(self, asleep: bool) -> Self
        ensures { result ≡ with_sleep self asleep }
    {
        Control { asleep, ..self }
    }
}
