// The storage that a receiver is lent: each of its places owns a stretch of it.
ghost use Rattle.std.specs.Prelude.{◌≡◌, ◌+◌, ◌*◌, ◌≤◌, length};
ghost use Rattle.std.proofs.Math.Seq.{paste};
ghost use Rattle.places.specs.Places.{place_count};
ghost use Rattle.places.specs.Telling.{part_at};

use crate::bytes;

// The places of a receiver.
pub const PLACES: usize = 8;

// Keeps these bytes in the stretch of place `at`, from its byte `offset` on. What puts them there is lent the storage from
// the place's start on.
#[tactic(auto, using(crate::proofs::Stretch::paste_part))]
pub fn keep(storage: &mut [u8], stretch: usize, at: usize, offset: usize, bytes: &[u8])
    requires { stretch * at + offset + length bytes.now ≤ length storage.old }
    ensures { storage.new ≡ paste storage.old (stretch * at + offset) bytes.now (length bytes.now) }
{
    let from = stretch * at;
    bytes::put(&mut storage[from..], offset, bytes);
}

// The first `size` bytes of the stretch of place `at`; none where there is no such place, or it has fewer.
pub fn part(storage: &[u8], stretch: usize, at: usize, size: usize) -> &[u8]
    requires { place_count * stretch ≤ length storage.now }
    ensures { result.now ≡ part_at stretch storage.now at size }
{
    if PLACES <= at || stretch < size {
        return &storage[..0];
    }
    let from = stretch * at;
    &storage[from..from + size]
}
