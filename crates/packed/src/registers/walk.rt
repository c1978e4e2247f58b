// Making a packed register, and its walk.
ghost use Rattle.std.specs.Prelude.{◌≡◌, ℕ, ◌<◌, slice_index};
ghost use Rattle.model.specs.Course.{told_course};
ghost use Rattle.model.specs.History.{foreign};
ghost use Rattle.model.specs.Packed.{packed_course};
ghost use Rattle.packed.specs.Ranges.{falling as falling_bytes, ranged as ranged_bytes};
ghost use Rattle.packed.specs.Walks.{coming, contents};

use super::super::records::read;
use super::Packed;
use model::{PowerUnit, RECORD_SIZE, RegisterFault};
use register::Register;

// No day is later than the first unit's may be.
const ANY_DAY: u32 = u32::MAX;

impl<'a> Packed<'a> {
    pub fn new(bytes: &'a [u8]) -> Packed<'a>
        ensures contents { contents result ≡ foreign (packed_course bytes.now) }
        ensures restarted { coming result ≡ told_course (packed_course bytes.now) }
        ensures bytes { result.bytes.now ≡ bytes.now }
    {
        Packed {
            bytes,
            rest: bytes,
            index: 0,
            latest: ANY_DAY,
        }
    }

    // The bytes that the register was made of.
    pub fn bytes(&self) -> &'a [u8]
        ensures contents { contents self.now ≡ foreign (packed_course result.now) }
        ensures bytes { result.now ≡ self.now.bytes.now }
    {
        self.bytes
    }
}

impl Register for Packed<'_> {
    ghost contents = { λ p. contents p };

    ghost coming = { λ p. coming p };

    ghost ranged = { λ p. ranged_bytes p.bytes.now p.fit };

    ghost falling = { λ p. falling_bytes p.bytes.now p.fit };

    ghost alive = { λ p. tt };

    fn restart(&mut self) {
        self.rest = self.bytes;
        self.index = 0;
        self.latest = ANY_DAY;
    }

    fn next(&mut self) -> Result<Option<PowerUnit>, RegisterFault> {
        if self.rest.is_empty() {
            return Ok(None);
        }
        let (record, later) = self.rest.split_at(self.rest.len().min(RECORD_SIZE));
        let unit = read(self.index, self.latest, record)?;
        self.rest = later;
        self.index = self.index.saturating_add(1);
        self.latest = unit.day;
        Ok(Some(unit))
    }
}
