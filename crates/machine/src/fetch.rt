// The instruction at an address with a bank byte, decoded where it is first met: its number is kept in a lent store. A
// number has the bank byte and the address with which it was decoded, so that it is right in whatever slot it is found;
// many addresses share a slot, which holds the last of them. Store and image are no struct: in place of each fact that
// the store is coherent, one would owe that it still has the same image.
ghost use Rattle.std.specs.Prelude.{◌≡◌, ◌<◌, ◌≤◌, length};
ghost use Rattle.isa.specs.Rom.{IsImage, space_of};
ghost use Rattle.isa.specs.Decode.{decode_of};
ghost use Rattle.machine.specs.Fetch.{fetched_as, Coherent};

use isa::Refusal;
use isa::decode::decode_in_range;
use isa::predecoded::{has_tag, predecode};

// The slot of an address with a bank byte: of a store whose length is a power of two all of them are used. The factor
// keeps the same address of two pages in two slots.
fn slot(store: &[u64], bank: u8, address: u16) -> usize
    requires { 0 < length store.now }
    ensures { result < length store.now }
{
    (address as usize + 397 * bank as usize) & (store.len() - 1)
}

// Decodes the instruction at an address, and keeps its number in a slot.
fn decoded(
    image: &[u8],
    store: &mut [u64],
    at: usize,
    bank: u8,
    address: u16,
) -> Result<u64, Refusal>
    requires { IsImage image.now × (address < 4096)
        × (at < length store.old) × Coherent image.now store.old }
    ensures { (fetched_as result ≡ decode_of (space_of image.now bank) address)
        × Coherent image.now store.new }
{
    let found = decode_in_range(image, bank, address)?;
    let word = predecode(found.instruction, found.cycles, bank, address);
    store[at] = word;
    Ok(word)
}

// The number of the instruction at an address (isa's `predecoded`), or why there is none.
pub fn fetch(image: &[u8], store: &mut [u64], bank: u8, address: u16) -> Result<u64, Refusal>
    requires { IsImage image.now × (address < 4096)
        × (0 < length store.old) × Coherent image.now store.old }
    ensures { (fetched_as result ≡ decode_of (space_of image.now bank) address)
        × Coherent image.now store.new }
{
    let at = slot(store, bank, address);
    let known = store[at];
    if has_tag(known, bank, address) {
        return Ok(known);
    }
    decoded(image, store, at, bank, address)
}
