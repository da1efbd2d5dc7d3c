// The image made of what was named.
ghost use Rattle.std.specs.Prelude.{◌+◌, ◌≡◌, length};
ghost use Rattle.intel_hex.specs.Image.{filled, lowest_in};

// The lowest address that is named; 4096 where none is.
pub fn lowest_of(memory: &[Option<u8>; 4096]) -> u16
    ensures { result ≡ lowest_in memory.now }
{
    match memory.iter().position(|cell| cell.is_some()) {
        Some(address) => address as u16,
        None => 4096,
    }
}

// Writes the cells from `first` on to the image, which they fill: those that are not named as the fill.
pub fn fill_image(memory: &[Option<u8>; 4096], first: usize, fill: u8, image: &mut [u8])
    requires { first + length image.old ≡ 4096 }
    ensures { image.new
        ≡ filled fill memory.now first (length image.old) }
{
    for (i, byte) in image.iter_mut().enumerate() {
        *byte = memory[first + i].unwrap_or(fill);
    }
}
