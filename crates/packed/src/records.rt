// A P record: what refuses it, and the unit that it tells.
ghost use Rattle.std.specs.Prelude.{◌≡◌, ◌==◌};
ghost use Rattle.model.specs.Packed.{day_fits, emits_too_much, numbers_fit, packed_class, packed_fault, packed_unit, record_fault};
ghost use Rattle.model.specs.Units.{told};
ghost use Rattle.packed.specs.Reading.{read_as};

use model::{
    Class, Day, Fault, Layer, MOST_EMISSION, MOST_GENERATION, PowerUnit, RecordBytes,
    RegisterFault, Rule,
};

// Each layer has its own: one for all would need a trait with an impl as long as this for each fault type.
fn refusal(rule: Rule, index: u32) -> RegisterFault
    ensures { result.fault ≡ packed_fault rule index }
{
    RegisterFault {
        fault: Fault::new(rule, Layer::Packed, index),
    }
}

fn is_import(bytes: &RecordBytes<'_>) -> bool
    ensures { result ≡ (packed_class bytes.now.bytes.now == 4) }
{
    Class::try_from(bytes.second) == Ok(Class::Import)
}

fn day_fits(bytes: &RecordBytes<'_>) -> bool
    ensures { result ≡ day_fits bytes.now.bytes.now }
{
    let day = bytes.long(4);
    if is_import(bytes) {
        day == 0
    } else {
        Day::new(day).is_some()
    }
}

fn numbers_fit(bytes: &RecordBytes<'_>) -> bool
    ensures { result ≡ numbers_fit bytes.now.bytes.now }
{
    let generation = bytes.long(8);
    let flag = bytes.byte(12);
    Class::try_from(bytes.second).is_ok()
        && generation >= 1
        && generation <= MOST_GENERATION
        && flag <= 1
        && (flag == 1 || bytes.huge(24) == 0)
        && !(flag == 1 && is_import(bytes))
}

fn emits_too_much(bytes: &RecordBytes<'_>) -> bool
    ensures { result ≡ emits_too_much bytes.now.bytes.now }
{
    let most = u64::from(MOST_EMISSION) * u64::from(bytes.long(8));
    bytes.huge(16) > most || bytes.huge(24) > most
}

// The first fault of a record of 32 bytes, in checking order.
fn check(index: u32, latest: u32, bytes: &RecordBytes<'_>) -> Result<(), RegisterFault>
    ensures { result ≡ read_as (record_fault index latest bytes.now.bytes.now) tt }
{
    if bytes.kind != b'P' || !bytes.zeros(13, 3) {
        return Err(refusal(Rule::ShortOrForeignRecord, index));
    }
    if bytes.word(2) == 0 {
        return Err(refusal(Rule::ZeroCode, index));
    }
    if !day_fits(bytes) {
        return Err(refusal(Rule::NoSuchDay, index));
    }
    if !numbers_fit(bytes) {
        return Err(refusal(Rule::OutOfRange, index));
    }
    if emits_too_much(bytes) {
        return Err(refusal(Rule::EmissionTooHigh, index));
    }
    if bytes.long(4) > latest {
        return Err(refusal(Rule::LaterDay, index));
    }
    Ok(())
}

// No `From`: both types are model's.
fn unit(bytes: &RecordBytes<'_>) -> PowerUnit
    ensures { result ≡ told (packed_unit bytes.now.bytes.now) }
{
    PowerUnit {
        code: bytes.word(2),
        day: bytes.long(4),
        // As the unit of any bytes is defined; `check` has refused a class that is none.
        class: Class::try_from(bytes.second).unwrap_or(Class::Import),
        generation: bytes.long(8),
        grams: bytes.huge(16),
        default_grams: (bytes.byte(12) == 1).then_some(bytes.huge(24)),
    }
}

// The unit of the record with the index, after a unit of the day `latest`.
pub fn read(index: u32, latest: u32, bytes: &[u8]) -> Result<PowerUnit, RegisterFault>
    ensures { result ≡ read_as (record_fault index latest bytes.now) (told (packed_unit bytes.now)) }
{
    let Some(bytes) = RecordBytes::new(bytes) else {
        return Err(refusal(Rule::ShortOrForeignRecord, index));
    };
    check(index, latest, &bytes)?;
    Ok(unit(&bytes))
}
