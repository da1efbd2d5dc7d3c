// A record's header: its version, and the count of the bytes after it.
ghost use Rattle.std.specs.Prelude.{◌≤◌, ◌≡◌, length, get_or};
ghost use Rattle.playback.specs.Record.{BodyFound, count_of, long_count_of};

use isa::Refusal;

// The version with a count of two bytes.
const VERSION: u8 = 1;

// The version with a count of three bytes, for what two cannot count.
const LONG_VERSION: u8 = 2;

// Version and count.
const HEADER_BYTES: usize = 3;

// Version and count of LONG_VERSION.
const LONG_HEADER_BYTES: usize = 4;

// The least count of LONG_VERSION: one more than VERSION's greatest.
const LEAST_LONG: usize = 65_536;

// The greatest count of LONG_VERSION.
const MOST_LONG: usize = 1_048_576;

// The count in a record's second and third byte, the high one first.
fn count_of(recording: &[u8]) -> usize
    requires { 3 ≤ length recording.now }
    ensures { result ≡ count_of recording.now }
{
    u16::from_be_bytes([recording[1], recording[2]]) as usize
}

// The same with the fourth byte, the lowest.
fn long_count_of(recording: &[u8]) -> usize
    requires { 4 ≤ length recording.now }
    ensures { result ≡ long_count_of recording.now }
{
    u32::from_be_bytes([0, recording[1], recording[2], recording[3]]) as usize
}

// Finds the body of a record of LONG_VERSION. Refuses with 28 one under four bytes, a wrong count and a count below the
// least, then with 30 a count above the greatest. It is no instance of `find_body`: limits and refusals differ.
fn find_long_body(recording: &[u8]) -> Result<usize, Refusal>
    requires { (3 ≤ length recording.now) × (get_or recording.now 0 0 ≡ 2) }
    ensures { BodyFound recording.now result }
{
    if recording.len() < LONG_HEADER_BYTES {
        return Err(Refusal::RecordLength);
    }
    let count = long_count_of(recording);
    if recording.len() - LONG_HEADER_BYTES != count {
        return Err(Refusal::RecordLength);
    }
    if count < LEAST_LONG {
        return Err(Refusal::RecordLength);
    }
    if count > MOST_LONG {
        return Err(Refusal::RecordTooLong);
    }
    Ok(LONG_HEADER_BYTES)
}

// Finds the body, by the version. Refuses with 28 a record under three bytes, then with 27 a version that is neither of
// the two, then with 28 a wrong count; one of LONG_VERSION as `find_long_body` does.
pub fn find_body(recording: &[u8]) -> Result<usize, Refusal>
    ensures { BodyFound recording.now result }
{
    if recording.len() < HEADER_BYTES {
        return Err(Refusal::RecordLength);
    }
    if recording[0] == LONG_VERSION {
        return find_long_body(recording);
    }
    if recording[0] != VERSION {
        return Err(Refusal::RecordVersion);
    }
    if recording.len() - HEADER_BYTES != count_of(recording) {
        return Err(Refusal::RecordLength);
    }
    Ok(HEADER_BYTES)
}
