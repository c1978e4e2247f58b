// The packed register: lengths, and what refuses a record, in checking order.
use super::shared::{SOUND, Written, six_of};
use model::{Fault, Layer, Rule};
use packed::Packed;
use register::Register;
use std::test::Fail;

// How a list ends is no refusal of a call, so that the fault is an `Option` here and below.
fn ends(bytes: &[u8]) -> (u16, Option<Fault>) {
    let mut register = Packed::new(bytes);
    let told = six_of(&mut register);
    (told.codes[0], told.fault)
}

fn broken(rule: Rule, index: u32) -> Option<Fault> {
    Some(Fault::new(rule, Layer::Packed, index))
}

#[test]
fn lengths(rt: HostRuntime) -> Result<(), Fail> {
    let one = SOUND.bytes();
    assert_eq!(rt; ends(&one[0..0]), (0, None));
    assert_eq!(rt;
        ends(&one[0..31]),
        (0, broken(Rule::ShortOrForeignRecord, 0))
    );
    assert_eq!(rt; ends(&one), (5, None));
    let mut longer = one.to_vec(rt.alloc())?;
    longer.push(0)?;
    assert_eq!(rt; ends(&longer), (5, broken(Rule::ShortOrForeignRecord, 1)));
    Ok(())
}

#[test]
fn the_end_stays_the_end(rt: HostRuntime) {
    let one = SOUND.bytes();
    let mut register = Packed::new(&one[0..31]);
    assert_eq!(rt;
        six_of(&mut register).fault,
        broken(Rule::ShortOrForeignRecord, 0)
    );
    assert_eq!(rt;
        six_of(&mut register).fault,
        broken(Rule::ShortOrForeignRecord, 0)
    );
}

fn rule_of(written: &Written) -> Option<Fault> {
    ends(&written.bytes()).1
}

#[test]
fn letters_and_fillers(rt: HostRuntime) {
    // One filler byte at a time, by its index.
    for at in 13..16 {
        let mut bytes = SOUND.bytes();
        bytes[at] = 1;
        assert_eq!(rt; ends(&bytes).1, broken(Rule::ShortOrForeignRecord, 0));
    }
    let mut bytes = SOUND.bytes();
    bytes[0] = 85;
    assert_eq!(rt; ends(&bytes).1, broken(Rule::ShortOrForeignRecord, 0));
}

#[test]
fn codes_and_days(rt: HostRuntime) {
    assert_eq!(rt;
        rule_of(&Written {
            code: 0,
            day: 0,
            ..SOUND
        },),
        broken(Rule::ZeroCode, 0)
    );
    assert_eq!(rt;
        rule_of(&Written {
            day: 20_190_229,
            ..SOUND
        },),
        broken(Rule::NoSuchDay, 0)
    );
    assert_eq!(rt;
        rule_of(&Written { class: 4, ..SOUND }),
        broken(Rule::NoSuchDay, 0)
    );
    assert_eq!(rt;
        rule_of(&Written {
            class: 5,
            day: 0,
            ..SOUND
        },),
        broken(Rule::NoSuchDay, 0),
        "a day is asked of any class but 4"
    );
}

#[test]
fn numbers(rt: HostRuntime) {
    let range = broken(Rule::OutOfRange, 0);
    assert_eq!(rt; rule_of(&Written { class: 5, ..SOUND }), range);
    assert_eq!(rt;
        rule_of(&Written {
            generation: 0,
            ..SOUND
        },),
        range
    );
    assert_eq!(rt;
        rule_of(&Written {
            generation: 100_000_001,
            ..SOUND
        },),
        range
    );
    assert_eq!(rt; rule_of(&Written { flag: 2, ..SOUND }), range);
    assert_eq!(rt;
        rule_of(&Written { flag: 0, ..SOUND }),
        range,
        "default grams without a default"
    );
    assert_eq!(rt;
        rule_of(&Written {
            class: 4,
            day: 0,
            ..SOUND
        },),
        range,
        "an import with a default"
    );
    assert_eq!(rt;
        rule_of(&Written {
            generation: 100_000_000,
            ..SOUND
        },),
        None
    );
}

#[test]
fn emissions(rt: HostRuntime) {
    let high = broken(Rule::EmissionTooHigh, 0);
    assert_eq!(rt; rule_of(&SOUND), None, "at the limit");
    assert_eq!(rt;
        rule_of(&Written {
            grams: 10_000_000_001,
            ..SOUND
        },),
        high
    );
    assert_eq!(rt;
        rule_of(&Written {
            default_grams: 10_000_000_001,
            ..SOUND
        },),
        high
    );
    let import = Written {
        class: 4,
        day: 0,
        flag: 0,
        default_grams: 0,
        ..SOUND
    };
    assert_eq!(rt; rule_of(&import), None);
}

// Three records of one code: the second on the same day, the third later.
#[test]
fn days_never_rise(rt: HostRuntime) -> Result<(), Fail> {
    let later = Written {
        day: 20_200_301,
        ..SOUND
    };
    let mut bytes = SOUND.bytes().to_vec(rt.alloc())?;
    bytes.extend_from_slice(&SOUND.bytes())?;
    bytes.extend_from_slice(&later.bytes())?;
    let mut register = Packed::new(&bytes);
    let told = six_of(&mut register);
    assert_eq!(rt; told.codes, [5, 5, 0, 0, 0, 0]);
    assert_eq!(rt; told.fault, broken(Rule::LaterDay, 2));
    Ok(())
}
