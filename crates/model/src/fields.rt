// The numbers in a record's bytes, and in any bytes, the highest byte first. Past the end every byte counts as zero.
ghost use Rattle.std.specs.Prelude.{◌≡◌, ◌≤◌, length, MatchOption};
ghost use Rattle.model.specs.Packed.{huge};
ghost use Rattle.model.specs.Records.{all_zero, byte, bytes_from, long, word, zeros};

use std::array;

// The bytes of a record.
pub const RECORD_SIZE: usize = 32;

// A record of 32 bytes: its letter, its second byte (a class, a year or a method, by the letter), and all of them. Places count
// from the letter on, which has place 0.
#[derive(Clone, Copy)]
pub struct RecordBytes<'a> {
    pub kind: u8,
    pub second: u8,
    bytes: &'a [u8],
    ghost long: { length bytes.now ≡ 32 },
    ghost letter: { kind ≡ byte bytes.now 0 },
    ghost next: { second ≡ byte bytes.now 1 },
}

impl<'a> RecordBytes<'a> {
    // None of another length.
    pub fn new(bytes: &'a [u8]) -> Option<RecordBytes<'a>>
        ensures { MatchOption result (length bytes.now ≡ 32 → ⊥) (λ r. r.bytes.now ≡ bytes.now) }
    {
        let [kind, second, fields @ ..] = bytes else {
            return None;
        };
        if fields.len() != RECORD_SIZE - 2 {
            return None;
        }
        Some(RecordBytes {
            kind: *kind,
            second: *second,
            bytes,
        })
    }
}

fn byte_at(bytes: &[u8], at: usize) -> u8
    ensures { result ≡ byte bytes.now at }
{
    bytes.get(at).copied().unwrap_or(0)
}

// N bytes from `at` on.
fn bytes_from<const N: usize>(bytes: &[u8], at: u8) -> [u8; N]
    requires { N ≤ 8 }
    ensures { result ≡ bytes_from bytes.now at N }
{
    array::from_fn(|i| byte_at(bytes, usize::from(at) + i))
}

// Two bytes from `at` on.
pub fn word_at(bytes: &[u8], at: u8) -> u16
    ensures { result ≡ word bytes.now at }
{
    u16::from_be_bytes(bytes_from(bytes, at))
}

// Four bytes from `at` on.
pub fn long_at(bytes: &[u8], at: u8) -> u32
    ensures { result ≡ long bytes.now at }
{
    u32::from_be_bytes(bytes_from(bytes, at))
}

// Eight bytes from `at` on.
pub fn huge_at(bytes: &[u8], at: u8) -> u64
    ensures { result ≡ huge bytes.now at }
{
    u64::from_be_bytes(bytes_from(bytes, at))
}

pub fn all_zero(part: &[u8]) -> bool
    ensures { result ≡ all_zero part.now }
{
    part.iter().all(|byte| *byte == 0)
}

// The same of a record's bytes.
impl RecordBytes<'_> {
    pub fn byte(&self, at: u8) -> u8
        ensures { result ≡ byte self.now.bytes.now at }
    {
        byte_at(self.bytes, usize::from(at))
    }

    pub fn word(&self, at: u8) -> u16
        ensures { result ≡ word self.now.bytes.now at }
    {
        word_at(self.bytes, at)
    }

    pub fn long(&self, at: u8) -> u32
        ensures { result ≡ long self.now.bytes.now at }
    {
        long_at(self.bytes, at)
    }

    pub fn huge(&self, at: u8) -> u64
        ensures { result ≡ huge self.now.bytes.now at }
    {
        huge_at(self.bytes, at)
    }

    // So many bytes from `at` on are zero.
    pub fn zeros(&self, at: u8, count: u8) -> bool
        ensures { result ≡ zeros self.now.bytes.now at count }
    {
        let later = self.bytes.get(usize::from(at)..).unwrap_or(&[]);
        all_zero(later.get(..usize::from(count)).unwrap_or(later))
    }
}
