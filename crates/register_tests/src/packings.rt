// Packing into a buffer, and reading it back.
use super::shared::{failing, fault, fleet, import, six_of};
use layers::{ImportEntry, Join};
use model::{Fault, Layer, Rule};
use packed::{Packed, pack};
use register::Register;
use std::test::Fail;

// A fleet joined with another, an import above both: walked, packed and read back.
#[test]
fn through_every_layer(rt: HostRuntime) -> Result<(), Fail> {
    let join = Join::new(fleet(1, 20_200_101, 2)?, fleet(2, 20_210_101, 1)?);
    let entry = ImportEntry {
        code: 9,
        generation: 10,
        factor: 500,
    };
    let mut import = import(join, entry)?;
    let _ = import.next();
    let mut buffer = [7u8; 129];
    let written = pack(&mut import, &mut buffer)?;
    assert_eq!(rt; written, 128);
    assert_eq!(rt; buffer[128], 7, "the rest is left");
    let mut back = Packed::new(&buffer[0..128]);
    assert_eq!(rt; six_of(&mut back).codes, [2, 1, 1, 9, 0, 0]);
    assert_eq!(rt; six_of(&mut import).codes, [2, 1, 1, 9, 0, 0], "restarted");
    Ok(())
}

// The last byte of each number: 100 MWh are 0x64, 50,000 g are 0xc350, 20200101 is 0x01343aa5.
#[test]
fn the_bytes_of_a_record(rt: HostRuntime) -> Result<(), Fail> {
    let mut register = fleet(0x1234, 20_200_101, 1)?;
    let mut buffer = [0u8; 32];
    let _ = pack(&mut register, &mut buffer)?;
    let written = [
        80, 0, 0x12, 0x34, 0x01, 0x34, 0x3a, 0xa5, 0, 0, 0, 100, 0, 0, 0, 0, 0, 0, 0, 0, 0, 0,
        0xc3, 0x50, 0, 0, 0, 0, 0, 0, 0, 0,
    ];
    assert_eq!(rt; buffer, written);
    Ok(())
}

fn refused<R: Register>(register: &mut R, buffer: &mut [u8]) -> Result<Fault, Fail> {
    Ok(pack(register, buffer).err().ok_or("not refused")?.fault)
}

#[test]
fn a_buffer_one_byte_short(rt: HostRuntime) -> Result<(), Fail> {
    let mut register = fleet(1, 20_200_101, 2)?;
    let mut buffer = [7u8; 63];
    let short = Fault::new(Rule::BufferShort, Layer::Packing, 0);
    assert_eq!(rt; refused(&mut register, &mut buffer)?, short);
    assert_eq!(rt; buffer, [7u8; 63], "left as it stood");
    assert_eq!(rt; six_of(&mut register).codes, [1, 1, 0, 0, 0, 0]);
    Ok(())
}

#[test]
fn a_fault_comes_before_the_buffer(rt: HostRuntime) -> Result<(), Fail> {
    let mut register = failing(1, 20_200_101, 2, fault(7, 5))?;
    let mut buffer = [7u8; 63];
    assert_eq!(rt; refused(&mut register, &mut buffer)?, fault(7, 5));
    assert_eq!(rt; buffer, [7u8; 63]);
    Ok(())
}

#[test]
fn nothing_to_pack(rt: HostRuntime) -> Result<(), Fail> {
    let mut register = fleet(1, 20_200_101, 0)?;
    let mut buffer = [7u8; 1];
    let written = pack(&mut register, &mut buffer[0..0])?;
    assert_eq!(rt; written, 0);
    Ok(())
}
