// Bytes put among others.
ghost use Rattle.std.specs.Prelude.{◌≡◌, ◌+◌, ◌≤◌, length};
ghost use Rattle.std.proofs.Math.Seq.{paste};

// Puts these bytes into the part, from `at` on.
pub fn put(part: &mut [u8], at: usize, bytes: &[u8])
    requires { at + length bytes.now ≤ length part.old }
    ensures { part.new ≡ paste part.old at bytes.now (length bytes.now) }
{
    part[at..at + bytes.len()].copy_from_slice(bytes);
}
