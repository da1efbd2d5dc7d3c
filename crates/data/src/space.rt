// Data space: the one read and the one store of a data byte, where a byte comes from, and where an operand stands. The
// bytes are lent, by data address; those under the ROM window (40h-7Fh) are never read and never change. 0C8h and 0C9h
// read 0; the bytes stored there drive the interrupt enable and the ROM window.
ghost use Rattle.std.specs.Prelude.{◌≡◌, List, ℕ, ◌≤◌, ◌<◌, get_or};
ghost use Rattle.isa.specs.Rom.{IsImage, rom_at};
ghost use Rattle.data.specs.Space.{in_window, is_write_only, shown_of, window_address, held_of, read_of, origin_of};
ghost use Rattle.data.specs.Space.{program_of};
ghost use Rattle.data.specs.Space.{store_of, address_of, operand_of};

use crate::Origin;
use isa::Operand;
use isa::rom::Space;

// Data addresses that the paper names: X, Y, A, the interrupt option register, the ROM window register and the bank
// register.
pub const X: usize = 0x80;

pub const Y: usize = 0x81;

pub const A: u8 = 0xFF;

pub const INTERRUPT_OPTION: usize = 0xC8;

pub const ROM_WINDOW: usize = 0xC9;

pub const BANK: usize = 0xCA;

// Whether an address lies in the ROM window.
pub fn is_window(address: u8) -> bool
    ensures { result ≡ in_window address }
{
    0x40 <= address && address < 0x80
}

// Whether an address is one of the two registers that a program cannot read.
fn is_write_only(address: u8) -> bool
    ensures { result ≡ is_write_only address }
{
    let at = address as usize;
    at == INTERRUPT_OPTION || at == ROM_WINDOW
}

// The program address that the ROM window shows at an address in it, by the byte stored in its register.
fn window_address(bytes: &[u8; 256], address: u8) -> u16
    requires { (0x40 ≤ address) × (address < 0x80) }
    ensures { (result ≡ window_address bytes.now address) × (result < 4096) }
{
    let window = bytes[ROM_WINDOW];
    64 * ((window % 64) as u16) + ((address - 0x40) as u16)
}

// The byte of program space, as it stands, that the ROM window shows at an address in it.
#[tactic(auto, unfolding(isa::specs::Rom::space_of), using(isa::proofs::Halves::halves))]
fn window_byte(image: &[u8], bytes: &[u8; 256], address: u8) -> Option<u8>
    requires { (0x40 ≤ address) × (address < 0x80) }
    ensures { IsImage image.now
        → result ≡ rom_at (program_of image.now bytes.now)
        (window_address bytes.now address) }
{
    let at = window_address(bytes, address);
    Space::of(image, bytes[BANK]).byte(at)
}

// What the ROM window shows: a byte, 0 where the image has none.
fn shown(byte: Option<u8>) -> u8
    ensures { result ≡ shown_of byte }
{
    byte.unwrap_or(0)
}

// The byte that stands at a data address, whether a program can read it or not.
fn held(image: &[u8], bytes: &[u8; 256], address: u8) -> u8
    ensures { IsImage image.now
        → result ≡ held_of (program_of image.now bytes.now) bytes.now address }
{
    let at = address as usize;
    if !is_window(address) {
        return bytes[at];
    }
    shown(window_byte(image, bytes, address))
}

// The one read of a data byte.
#[tactic(auto, unfolding(crate::specs::Space::read_of))]
pub fn read(image: &[u8], bytes: &[u8; 256], address: u8) -> u8
    ensures { IsImage image.now
        → result ≡ read_of (program_of image.now bytes.now) bytes.now address }
{
    if is_write_only(address) {
        return 0;
    }
    held(image, bytes, address)
}

// Where the byte that `read` gives at an address comes from.
#[tactic(auto, unfolding(crate::specs::Space::origin_of))]
pub fn origin(image: &[u8], bytes: &[u8; 256], address: u8) -> Origin
    ensures { IsImage image.now
        → result ≡ origin_of (program_of image.now bytes.now) bytes.now address }
{
    if is_window(address) {
        let at = window_address(bytes, address);
        return match window_byte(image, bytes, address) {
            Some(_) => Origin::Rom(at),
            None => Origin::NoRom,
        };
    }
    if 0x80 <= address {
        Origin::Register
    } else {
        Origin::Ram
    }
}

// The one store of a data byte. In the ROM window it does nothing.
#[tactic(auto, unfolding(crate::specs::Space::store_of))]
pub fn store(bytes: &mut [u8; 256], address: u8, value: u8)
    ensures { bytes.new ≡ store_of bytes.old address value }
{
    let at = address as usize;
    if !is_window(address) {
        bytes[at] = value;
    }
}

// The data address of an operand.
#[tactic(auto, unfolding(crate::specs::Space::address_of))]
pub fn address(bytes: &[u8; 256], operand: Operand) -> u8
    ensures { result ≡ address_of bytes.now operand }
{
    address_by(bytes[X], bytes[Y], operand)
}

// The same, for a caller that has read X and Y: a run reads them before it knows the instruction.
#[tactic(auto, unfolding(crate::specs::Space::address_of))]
pub fn address_by(x: u8, y: u8, operand: Operand) -> u8
    ensures { (bytes : List ℕ) → x ≡ get_or bytes 128 0 → y ≡ get_or bytes 129 0
        → result ≡ address_of bytes operand }
{
    match operand {
        Operand::Direct(a) => a,
        Operand::Short(n) => 0x80 + n % 4,
        Operand::ThroughX => x,
        Operand::ThroughY => y,
    }
}

// The byte of an operand.
#[tactic(auto, unfolding(crate::specs::Space::operand_of))]
pub fn operand(image: &[u8], bytes: &[u8; 256], o: Operand) -> u8
    ensures { IsImage image.now
        → result ≡ operand_of (program_of image.now bytes.now) bytes.now o }
{
    read(image, bytes, address(bytes, o))
}

// The same, for a caller that has read X and Y: a run reads them before it knows the instruction.
#[tactic(auto, unfolding(crate::specs::Space::operand_of))]
pub fn operand_by(image: &[u8], bytes: &[u8; 256], x: u8, y: u8, o: Operand) -> u8
    ensures { IsImage image.now → x ≡ get_or bytes.now 128 0
        → y ≡ get_or bytes.now 129 0
        → result ≡ operand_of (program_of image.now bytes.now) bytes.now o }
{
    read(image, bytes, address_by(x, y, o))
}
