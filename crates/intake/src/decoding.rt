// A record's bytes taken apart.
ghost use Rattle.std.specs.Prelude.{◌≡◌};
ghost use Rattle.model.specs.Records.{burn_record, fuel_record, load_record, question_record, record_of, strike_record, unit_record, yearly_record};

use model::{BurnEntry, Fuel, LoadGroup, Question, Record, RecordBytes, UnitEntry, YearlyPair};

fn fuel(bytes: &RecordBytes<'_>) -> Option<Record>
    ensures { result ≡ fuel_record bytes.now.bytes.now }
{
    if !bytes.zeros(1, 1) || !bytes.zeros(12, 20) {
        return None;
    }
    Some(Record::Fuel(Fuel {
        code: bytes.word(2),
        heat_content: bytes.long(4),
        carbon_factor: bytes.long(8),
    }))
}

fn unit(bytes: &RecordBytes<'_>) -> Option<Record>
    ensures { result ≡ unit_record bytes.now.bytes.now }
{
    if !bytes.zeros(16, 16) {
        return None;
    }
    Some(Record::Unit(UnitEntry {
        code: bytes.word(2),
        class: bytes.second,
        day: bytes.long(4),
        generation: bytes.long(8),
        efficiency: bytes.word(12),
        default_efficiency: bytes.word(14),
    }))
}

fn burn(bytes: &RecordBytes<'_>) -> Option<Record>
    ensures { result ≡ burn_record bytes.now.bytes.now }
{
    if !bytes.zeros(1, 1) || !bytes.zeros(6, 2) || !bytes.zeros(12, 20) {
        return None;
    }
    Some(Record::Burn(BurnEntry {
        unit: bytes.word(2),
        fuel: bytes.word(4),
        quantity: bytes.long(8),
    }))
}

fn strike(bytes: &RecordBytes<'_>) -> Option<Record>
    ensures { result ≡ strike_record bytes.now.bytes.now }
{
    if !bytes.zeros(1, 1) || !bytes.zeros(4, 28) {
        return None;
    }
    Some(Record::Strike(bytes.word(2)))
}

fn load(bytes: &RecordBytes<'_>) -> Option<Record>
    ensures { result ≡ load_record bytes.now.bytes.now }
{
    if !bytes.zeros(1, 1) || !bytes.zeros(4, 4) {
        return None;
    }
    Some(Record::Load(LoadGroup {
        group: bytes.word(2),
        loads: [
            bytes.long(8),
            bytes.long(12),
            bytes.long(16),
            bytes.long(20),
            bytes.long(24),
            bytes.long(28),
        ],
    }))
}

fn yearly(bytes: &RecordBytes<'_>) -> Option<Record>
    ensures { result ≡ yearly_record bytes.now.bytes.now }
{
    if !bytes.zeros(2, 2) || !bytes.zeros(12, 20) {
        return None;
    }
    Some(Record::Yearly(YearlyPair {
        year: bytes.second,
        low_cost: bytes.long(4),
        all: bytes.long(8),
    }))
}

fn question(bytes: &RecordBytes<'_>) -> Option<Record>
    ensures { result ≡ question_record bytes.now.bytes.now }
{
    if !bytes.zeros(8, 24) {
        return None;
    }
    Some(Record::Question(Question {
        method: bytes.second,
        operating_weight: bytes.byte(2),
        build_weight: bytes.byte(3),
        reference: bytes.long(4),
    }))
}

// What the bytes say; nothing where they are short, of another kind, or have a filler byte that is not zero.
pub fn decode(bytes: &[u8]) -> Option<Record>
    ensures { result ≡ record_of bytes.now }
{
    let record = RecordBytes::new(bytes)?;
    match record.kind {
        b'F' => fuel(&record),
        b'U' => unit(&record),
        b'B' => burn(&record),
        b'S' => strike(&record),
        b'H' => load(&record),
        b'Y' => yearly(&record),
        b'Q' => question(&record),
        _ => None,
    }
}
