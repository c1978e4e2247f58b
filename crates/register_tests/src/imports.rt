// The import over any register.
use super::shared::{failing, fault, fleet, import, six_of};
use layers::{Import, ImportEntry, Join};
use model::{Class, Fault, Layer, Rule};
use register::Register;
use std::process::Abort;
use std::test::Fail;

// 1 MWh without emission.
const SMALL: ImportEntry = ImportEntry {
    code: 9,
    generation: 1,
    factor: 0,
};

#[test]
fn one_last_unit(rt: HostRuntime) -> Result<(), Fail> {
    let entry = ImportEntry {
        code: 9,
        generation: 100_000_000,
        factor: 10_000_000,
    };
    let mut import = import(fleet(1, 20_200_101, 1)?, entry)?;
    assert_eq!(rt; six_of(&mut import).codes, [1, 9, 0, 0, 0, 0]);
    import.restart();
    let _ = import.next();
    let unit = import.next()?.ok_or("no unit")?;
    assert_eq!(rt; unit.day, 0);
    assert_eq!(rt; unit.class, Class::Import);
    assert_eq!(rt; unit.generation, 100_000_000);
    assert_eq!(rt; unit.grams, 1_000_000_000_000_000);
    assert!(rt; unit.default_grams.is_none());
    Ok(())
}

#[test]
fn none_over_a_fault(rt: HostRuntime) -> Result<(), Fail> {
    let mut import = import(failing(1, 20_200_101, 1, fault(7, 5))?, SMALL)?;
    let told = six_of(&mut import);
    assert_eq!(rt; told.codes, [1, 0, 0, 0, 0, 0]);
    assert_eq!(rt; told.fault, Some(fault(7, 5)), "whole, with its trail");
    Ok(())
}

fn refused(rt: &impl Abort, code: u16, generation: u32, factor: u32) -> Result<Fault, Fail> {
    let mut below = fleet(1, 20_200_101, 2)?;
    let _ = below.next();
    let entry = ImportEntry {
        code,
        generation,
        factor,
    };
    let back = Import::new(below, entry).err().ok_or("not refused")?;
    let mut register = back.register;
    assert_eq!(rt;
        six_of(&mut register).codes,
        [1, 0, 0, 0, 0, 0],
        "as it stood"
    );
    Ok(back.fault)
}

#[test]
fn refusals_in_order(rt: HostRuntime) -> Result<(), Fail> {
    assert_eq!(rt;
        refused(&rt, 0, 0, 0)?,
        Fault::new(Rule::ZeroCode, Layer::Import, 0)
    );
    assert_eq!(rt;
        refused(&rt, 4, 0, 0)?,
        Fault::new(Rule::OutOfRange, Layer::Import, 4)
    );
    assert_eq!(rt;
        refused(&rt, 4, 100_000_001, 0)?,
        Fault::new(Rule::OutOfRange, Layer::Import, 4)
    );
    assert_eq!(rt;
        refused(&rt, 4, 1, 10_000_001)?,
        Fault::new(Rule::OutOfRange, Layer::Import, 4)
    );
    Ok(())
}

// The import of one grid stands behind every home unit of both.
#[test]
fn below_a_join(rt: HostRuntime) -> Result<(), Fail> {
    let import = import(fleet(1, 20_200_101, 1)?, SMALL)?;
    let mut join = Join::new(import, fleet(2, 19_000_101, 1)?);
    assert_eq!(rt; six_of(&mut join).codes, [1, 2, 9, 0, 0, 0]);
    let (import, _) = join.into_parts();
    let mut below = import.into_register();
    below.restart();
    assert_eq!(rt; six_of(&mut below).codes, [1, 0, 0, 0, 0, 0]);
    Ok(())
}
