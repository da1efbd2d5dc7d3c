// Bytes into lent slices.
ghost use Rattle.std.specs.Prelude.{◌≡◌, ◌+◌, ◌≤◌, length};
ghost use Rattle.std.proofs.Math.Seq.{paste};

// Copies a part into a slice, from an index on.
pub fn put(out: &mut [u8], at: usize, part: &[u8])
    requires { at + length part.now ≤ length out.old }
    ensures { out.new ≡ paste out.old at part.now (length part.now) }
{
    out[at..at + part.len()].copy_from_slice(part);
}
