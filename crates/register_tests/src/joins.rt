// Joins, and joins of joins.
use super::shared::{failing, fault, fleet, six_of};
use layers::Join;
use model::Fault;
use register::Register;
use std::test::Fail;

#[test]
fn equal_days_come_from_the_first_side(rt: HostRuntime) -> Result<(), Fail> {
    let mut join = Join::new(fleet(1, 20_200_101, 2)?, fleet(2, 20_200_101, 2)?);
    let told = six_of(&mut join);
    assert_eq!(rt; told.codes, [1, 1, 2, 2, 0, 0]);
    assert_eq!(rt; told.fault, None);
    Ok(())
}

#[test]
fn newer_days_come_first(rt: HostRuntime) -> Result<(), Fail> {
    let mut join = Join::new(fleet(1, 20_200_101, 2)?, fleet(2, 20_200_102, 2)?);
    assert_eq!(rt; six_of(&mut join).codes, [2, 2, 1, 1, 0, 0]);
    Ok(())
}

// Three grids with a common day: the order of the sides decides, at each level.
#[test]
fn joins_of_joins_with_equal_days(rt: HostRuntime) -> Result<(), Fail> {
    let inner = Join::new(fleet(2, 20_200_101, 1)?, fleet(3, 20_210_101, 1)?);
    let mut join = Join::new(fleet(1, 20_200_101, 1)?, inner);
    assert_eq!(rt; six_of(&mut join).codes, [3, 1, 2, 0, 0, 0]);
    let inner = Join::new(fleet(2, 20_200_101, 1)?, fleet(3, 20_210_101, 1)?);
    let mut join = Join::new(inner, fleet(1, 20_200_101, 1)?);
    assert_eq!(rt; six_of(&mut join).codes, [3, 2, 1, 0, 0, 0]);
    Ok(())
}

// The second side's older units never come, once the first side has only its fault left.
#[test]
fn a_fault_ends_the_list_at_once(rt: HostRuntime) -> Result<(), Fail> {
    let mut join = Join::new(
        failing(1, 20_200_101, 1, fault(7, 1))?,
        fleet(2, 20_190_101, 3)?,
    );
    let told = six_of(&mut join);
    assert_eq!(rt; told.codes, [1, 0, 0, 0, 0, 0]);
    assert_eq!(rt; told.fault, Some(fault(7, 2)));
    assert_eq!(rt;
        six_of(&mut join).fault,
        Some(fault(7, 2)),
        "the same every time"
    );
    Ok(())
}

#[test]
fn newer_units_come_before_a_fault(rt: HostRuntime) -> Result<(), Fail> {
    let mut join = Join::new(
        fleet(1, 20_210_101, 2)?,
        failing(2, 20_200_101, 1, fault(7, 1))?,
    );
    let told = six_of(&mut join);
    assert_eq!(rt; told.codes, [1, 1, 2, 0, 0, 0]);
    assert_eq!(rt; told.fault, Some(fault(7, 3)));
    Ok(())
}

#[test]
fn of_two_faults_the_first_side_counts(rt: HostRuntime) -> Result<(), Fail> {
    let mut join = Join::new(
        failing(1, 20_200_101, 1, fault(7, 1))?,
        failing(2, 20_200_101, 1, fault(8, 1))?,
    );
    let told = six_of(&mut join);
    assert_eq!(rt; told.codes, [1, 0, 0, 0, 0, 0]);
    assert_eq!(rt; told.fault, Some(fault(7, 2)));
    let mut join = Join::new(
        failing(1, 20_200_101, 0, fault(7, 1))?,
        failing(2, 20_200_101, 0, fault(8, 1))?,
    );
    assert_eq!(rt; six_of(&mut join).fault, Some(fault(7, 2)));
    Ok(())
}

// Through the second side of one join and the first of the next: 1, 3, 6.
#[test]
fn the_trail_tells_the_way(rt: HostRuntime) -> Result<(), Fail> {
    let inner = Join::new(
        fleet(1, 20_200_101, 1)?,
        failing(2, 20_200_101, 0, fault(7, 1))?,
    );
    let mut join = Join::new(inner, fleet(3, 20_200_101, 1)?);
    assert_eq!(rt; six_of(&mut join).fault, Some(fault(7, 6)));
    Ok(())
}

fn through_both(below: u32) -> Result<(Option<Fault>, Option<Fault>), Fail> {
    let mut first = Join::new(
        failing(1, 20_200_101, 0, fault(7, below))?,
        fleet(2, 20_200_101, 1)?,
    );
    let mut second = Join::new(
        fleet(1, 20_200_101, 1)?,
        failing(2, 20_200_101, 0, fault(7, below))?,
    );
    let first = six_of(&mut first).fault;
    Ok((first, six_of(&mut second).fault))
}

#[test]
fn a_trail_doubles_below_its_limit(rt: HostRuntime) -> Result<(), Fail> {
    let (first, second) = through_both(0x7fff_ffff)?;
    assert_eq!(rt; first, Some(fault(7, 0xffff_fffe)));
    assert_eq!(rt; second, Some(fault(7, 0xffff_ffff)));
    Ok(())
}

#[test]
fn a_trail_at_its_limit_stays(rt: HostRuntime) -> Result<(), Fail> {
    let (first, second) = through_both(0x8000_0000)?;
    assert_eq!(rt; first, Some(fault(7, 0x8000_0000)));
    assert_eq!(rt; second, Some(fault(7, 0x8000_0000)));
    let (first, second) = through_both(0xffff_ffff)?;
    assert_eq!(rt; first, Some(fault(7, 0xffff_ffff)));
    assert_eq!(rt; second, Some(fault(7, 0xffff_ffff)));
    Ok(())
}

// A join begins at the start of both sides, and so does a restarted one, wherever the walk stands.
#[test]
fn making_and_restarting_begin_anew(rt: HostRuntime) -> Result<(), Fail> {
    let mut first = fleet(1, 20_200_101, 2)?;
    let _ = first.next();
    let mut join = Join::new(first, fleet(2, 20_190_101, 1)?);
    let _ = join.next();
    join.restart();
    assert_eq!(rt; six_of(&mut join).codes, [1, 1, 2, 0, 0, 0]);
    let (mut first, mut second) = join.into_parts();
    first.restart();
    second.restart();
    assert_eq!(rt; six_of(&mut first).codes, [1, 1, 0, 0, 0, 0]);
    assert_eq!(rt; six_of(&mut second).codes, [2, 0, 0, 0, 0, 0]);
    Ok(())
}
