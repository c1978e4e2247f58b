// Packing: one P record for each unit of a register, into the caller's buffer.
ghost use Rattle.std.specs.Prelude.{◌≡◌, ◌*◌, ◌≤◌, ◌++◌, map, length, take, drop, IfOk};
ghost use Rattle.model.specs.Course.{proper, tail, told_course};
ghost use Rattle.model.specs.History.{Rewound, listed};
ghost use Rattle.model.specs.Packed.{flag_of, packed_buffer, packed_bytes, packed_course, packed_record, packing_answer};
ghost use Rattle.model.specs.Units.{told};
ghost use Rattle.packed.specs.Reading.{first_unit};

use model::{Fault, Layer, PackingFault, PowerUnit, RECORD_SIZE, Rule};
use register::{Passing, Register, walk};

// The first half of a unit's record: all but its two figures.
fn head(unit: &PowerUnit) -> [u8; 16]
    ensures { result ≡ take 16 (packed_record unit.now) }
{
    let code = unit.code.to_be_bytes();
    let day = unit.day.to_be_bytes();
    let generation = unit.generation.to_be_bytes();
    [
        b'P',
        u8::from(unit.class),
        code[0],
        code[1],
        day[0],
        day[1],
        day[2],
        day[3],
        generation[0],
        generation[1],
        generation[2],
        generation[3],
        u8::from(unit.default_grams.is_some()),
        0,
        0,
        0,
    ]
}

// Writes the P record of a unit.
fn write_record(unit: &PowerUnit, part: &mut [u8])
    requires { length part.old ≡ 32 }
    ensures { part.new ≡ packed_record unit.now }
{
    part[0..16].copy_from_slice(&head(unit));
    part[16..24].copy_from_slice(&unit.grams.to_be_bytes());
    part[24..32].copy_from_slice(&unit.default_grams.unwrap_or(0).to_be_bytes());
}

// The next unit of a list that is known to end properly, so that a fault is no more than its end.
fn next_unit<R: Register>(register: &mut R) -> Option<PowerUnit>
    ensures contents { R.Register.contents register.new ≡ R.Register.contents register.old }
    ensures units { (R.Register.coming register.new).units ≡ tail (R.Register.coming register.old).units }
    ensures answer { result ≡ first_unit (R.Register.coming register.old).units }
{
    register.next().unwrap_or(None)
}

// Writes the records of the units still to come to the front of the buffer.
fn write<R: Register>(register: &mut R, buffer: &mut [u8])
    requires { 32 * length (R.Register.coming register.old).units ≤ length buffer.old }
    ensures contents { R.Register.contents register.new ≡ R.Register.contents register.old }
    ensures buffer { buffer.new ≡ packed_bytes (R.Register.coming register.old).units ++ drop (32 * length (R.Register.coming register.old).units) buffer.old }
{
    // The place is counted: after `chunks_exact_mut` a proof knows none of the buffer's bytes.
    let mut at = 0;
    while let Some(unit) = next_unit(register) {
        write_record(&unit, &mut buffer[at..at + RECORD_SIZE]);
        at += RECORD_SIZE;
    }
}

// Packs the register's units, and tells the bytes written; the rest of the buffer is left. Refused it leaves the whole
// buffer. The register is left restarted. Read as a packed register, the bytes written tell the same units again.
pub fn pack<R: Register>(register: &mut R, buffer: &mut [u8]) -> Result<usize, PackingFault>
    ensures left { Rewound (R.Register.contents register.old) (R.Register.contents register.new) (R.Register.coming register.new) }
    ensures answer { result ≡ packing_answer (listed (R.Register.contents register.old)) (length buffer.old) }
    ensures buffer { buffer.new ≡ packed_buffer result (listed (R.Register.contents register.old)) buffer.old }
    ensures back { IfOk result (λ n. told_course (packed_course (take n buffer.new)) ≡ record { units = map told (listed (R.Register.contents register.old)).units; ending = proper }) }
{
    let count = walk(register, Layer::Packing, &mut Passing {})?;
    let size = count as usize * RECORD_SIZE;
    if buffer.len() < size {
        return Err(PackingFault {
            fault: Fault::new(Rule::BufferShort, Layer::Packing, 0),
        });
    }
    write(register, buffer);
    register.restart();
    Ok(size)
}
