// What the command `st62` writes: the answer's line, the reason in words, levels as they add up, machines and steps.
#![tactic(auto)]

ghost use Rattle.std.specs.Prelude.{◌≡◌};
ghost use Rattle.reports.specs.Output.{code_of};

pub mod answers;
mod attempt;
pub mod changes;
pub mod explain;
mod image_line;
pub mod levels;
pub mod machine_lines;
pub mod output;
mod page_found;

// How the program ends.
#[derive(Clone, Copy, Debug, PartialEq, Eq)]
pub enum Status {
    // Accepted, or done.
    Done,
    // Refused, or stopped.
    Refused,
    // Wrong usage, or input or output that failed.
    Failed,
}

// The exit status.
impl From<Status> for u8 {
    ghost from_gives = { λ status code. code ≡ code_of status };

    fn from(status: Status) -> u8 {
        status as u8
    }
}
