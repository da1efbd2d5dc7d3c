// The gauge on the bench: the width that the gauge would show for a slide count (document 02, W-201). It stands above the
// chip, and uses only what `machine`, `certificate` and `bench` promise.
#![tactic(auto)]

mod sleep;
pub mod width;

// What the gauge shows: the width in tenths of a millimetre, and the steps until the machine slept.
#[derive(Clone, Copy, Debug, PartialEq, Eq)]
pub struct Measured {
    pub width: u16,
    pub steps: u16,
}
