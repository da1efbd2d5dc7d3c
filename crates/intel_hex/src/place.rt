// The bytes of a data record put to their addresses.
ghost use Rattle.std.specs.Prelude.{◌≡◌};
ghost use Rattle.intel_hex.specs.Digits.{byte_at, bytes_of};
ghost use Rattle.intel_hex.specs.Place.{agrees, data_of, address_of, is_inside, placed};
ghost use Rattle.intel_hex.specs.Take.{step_of};

use crate::Fault;
use crate::record::Record;

// Whether an image that begins at `first` has an address.
fn is_inside(first: usize, address: usize) -> bool
    ensures { result ≡ is_inside first address }
{
    first <= address && address < 4096
}

// Whether a cell may be named with a byte: it is not named, or it holds that byte.
fn cell_agrees(cell: Option<u8>, byte: u8) -> bool
    ensures { result ≡ agrees cell byte }
{
    match cell {
        Some(named) => named == byte,
        None => true,
    }
}

// Names the cells from the record's address on with its data.
pub fn place_data(
    record: Record,
    first: usize,
    memory: &mut [Option<u8>; 4096],
) -> Result<bool, Fault>
    ensures { step_of result memory.new
        ≡ placed first (address_of (bytes_of record.entry.digits.now)) memory.old
        (data_of (byte_at record.entry.digits.now 0) (bytes_of record.entry.digits.now)) }
{
    let start = record.address();
    for k in 0..record.count() {
        let address = start + k;
        if !is_inside(first, address) {
            return Err(Fault::OutsideImage);
        }
        let byte = record.byte(4 + k);
        if !cell_agrees(memory[address], byte) {
            return Err(Fault::DifferingData);
        }
        memory[address] = Some(byte);
    }
    Ok(false)
}
