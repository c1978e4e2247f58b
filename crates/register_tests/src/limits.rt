// 4,000 units are taken, the 4,001st is refused.
use super::Fleet;
use super::shared::{failing, fault, fleet};
use layers::Join;
use model::{Fault, Layer, Rule};
use packed::pack;
use register::{Passing, Register, walk};
use std::test::Fail;

fn walked<R: Register>(register: &mut R) -> Result<u32, Fault> {
    walk(register, Layer::Build, &mut Passing).map_err(|below| below.fault)
}

#[test]
fn walks(rt: HostRuntime) -> Result<(), Fail> {
    let mut register = Join::new(fleet(1, 20_200_101, 2_000)?, fleet(2, 20_200_101, 2_000)?);
    assert_eq!(rt; walked(&mut register), Ok(4_000));
    let mut register = Join::new(fleet(1, 20_200_101, 2_000)?, fleet(2, 20_200_101, 2_001)?);
    let many = Fault::new(Rule::TooManyUnits, Layer::Build, 0);
    assert_eq!(rt; walked(&mut register), Err(many));
    assert_eq!(rt; walked(&mut register), Err(many), "asked again");
    Ok(())
}

// A walk goes to the end, so that a fault there comes before a unit too many.
#[test]
fn a_fault_far_behind(rt: HostRuntime) -> Result<(), Fail> {
    let mut register = failing(1, 20_200_101, 10_000, fault(7, 1))?;
    assert_eq!(rt; walked(&mut register), Err(fault(7, 1)));
    Ok(())
}

fn packed(register: &mut Fleet, buffer: &mut [u8]) -> Result<usize, Fault> {
    pack(register, buffer).map_err(|above| above.fault)
}

#[test]
fn packings(rt: HostRuntime) -> Result<(), Fail> {
    let mut buffer = [0u8; 128_000];
    let mut register = fleet(1, 20_200_101, 4_000)?;
    assert_eq!(rt; packed(&mut register, &mut buffer), Ok(128_000));
    let mut register = fleet(1, 20_200_101, 4_001)?;
    let many = Fault::new(Rule::TooManyUnits, Layer::Packing, 0);
    assert_eq!(rt; packed(&mut register, &mut buffer), Err(many));
    Ok(())
}
