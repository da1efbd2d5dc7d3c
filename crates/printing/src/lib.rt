// Numbers, addresses, refusals and modes on standard output, as the papers write them: for the programs that print
// what they ran.
#![tactic(auto)]

use control::Mode;
use isa::refusals::number_of;
use isa::{Number, Refusal};
use std::io;

pub fn put(rt: &impl Print, text: &[u8]) -> io::Result<()> {
    rt.write_all(text)
}

// A program address in three hexadecimal digits: its twelve bits.
pub fn put_address(rt: &impl Print, n: u16) -> io::Result<()> {
    let address = n % 0x1000;
    print!(rt; "{address:03X}")
}

// A refusal's number, and the address where there is one. No Display: that would stand in isa, which prints nothing.
pub fn put_refusal(rt: &impl Print, refusal: Refusal) -> io::Result<()> {
    match number_of(refusal) {
        Number::Plain(number) => print!(rt; "refused {number}"),
        Number::Located(number, address) => {
            print!(rt; "refused {number} ")?;
            put_address(rt, address)
        }
    }
}

// No Display: that would stand in control, which prints nothing.
pub fn put_mode(rt: &impl Print, mode: Mode) -> io::Result<()> {
    rt.print(match mode {
        Mode::Reset => "reset",
        Mode::Normal => "normal",
        Mode::Interrupt => "interrupt",
        Mode::NmiOverNormal => "NMI over normal",
        Mode::NmiOverInterrupt => "NMI over interrupt",
    })
}
