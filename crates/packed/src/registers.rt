// A register over bytes: P records in given order.
ghost use Rattle.std.specs.Prelude.{◌≡◌, ℕ, ◌<◌, slice_index};

mod walk;

#[derive(Drop)]
pub struct Packed<'a> {
    bytes: &'a [u8],
    // What the walk has not read yet.
    rest: &'a [u8],
    // The records that it has read; stays at the highest number.
    index: u32,
    // The day of the last unit that it told.
    latest: u32,
    ghost fit: { (k : ℕ) → slice_index bytes.now k < 256 },
}
