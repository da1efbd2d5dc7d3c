// Why a command has no answer.
use options::by_number::Usage;

// Why something failed has been said on standard error.
#[derive(Clone, Copy, Debug, PartialEq, Eq)]
pub struct Said;

#[derive(Clone, Copy, Debug, PartialEq, Eq)]
pub enum Failure {
    // What is wrong with the command line, which is still to be said.
    Usage(Usage),
    // Why has been said on standard error.
    Said,
}

impl From<Said> for Failure {
    fn from(_: Said) -> Failure {
        Failure::Said
    }
}

impl From<Usage> for Failure {
    fn from(usage: Usage) -> Failure {
        Failure::Usage(usage)
    }
}
