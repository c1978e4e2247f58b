// The life of a book, packings and questions among its calls.
use super::shared::{GRAM, HALVES, grams, unit};
use life::{Answer, Call, live};
use method::Average;
use model::{Fault, Layer, PackingFault, Rule};
use std::test::Fail;

fn entered(answer: &Answer) -> bool {
    matches!(answer, Answer::Entered(Ok(())))
}

// The code that a `next` told.
fn told(answer: &Answer) -> Option<u16> {
    match answer {
        Answer::Told(Ok(Some(unit))) => Some(unit.code),
        _ => None,
    }
}

fn packed(answer: &Answer) -> Option<Result<usize, PackingFault>> {
    match answer {
        Answer::Packed(written) => Some(*written),
        _ => None,
    }
}

fn combined(answer: &Answer) -> Option<u32> {
    match answer {
        Answer::Margin(Ok(margin)) => Some(margin.combined),
        _ => None,
    }
}

// 300 g / 20 MWh are 15 g/MWh; after the strike 100 g / 10 MWh.
#[test]
fn every_kind_of_call(rt: HostRuntime) -> Result<(), Fail> {
    let calls = [
        Call::EnterFuel(GRAM),
        Call::EnterUnit(unit(1, 20_200_101, 10)),
        Call::EnterUnit(unit(2, 20_210_101, 10)),
        Call::EnterBurn(grams(1, 100)),
        Call::EnterBurn(grams(2, 200)),
        Call::Next,
        Call::EnterUnit(unit(1, 20_220_101, 10)),
        Call::Next,
        Call::Ask(HALVES, 20_240_630),
        Call::Next,
        Call::Pack,
        Call::Next,
        Call::Strike(2),
        Call::Restart,
        Call::Next,
        Call::Pack,
        Call::Ask(HALVES, 20_240_630),
    ];
    let mut buffer = [7u8; 63];
    let life = live(rt.alloc(), &Average {}, &calls, &mut buffer)?;
    assert!(rt; life.answers.len() == 17);
    assert!(rt;
        entered(&life.answers[0]) && entered(&life.answers[4]) && entered(&life.answers[12])
    );
    assert_eq!(rt; told(&life.answers[5]), Some(2));
    assert!(rt; !entered(&life.answers[6]), "the code stands");
    assert_eq!(rt;
        told(&life.answers[7]),
        Some(1),
        "a refused entry leaves the walk"
    );
    assert_eq!(rt; told(&life.answers[9]), Some(2), "a question restarts it");
    let fault = Fault::new(Rule::BufferShort, Layer::Packing, 0);
    assert_eq!(rt;
        packed(&life.answers[10]),
        Some(Err(PackingFault { fault }))
    );
    assert_eq!(rt;
        told(&life.answers[11]),
        Some(2),
        "a refused packing restarts it"
    );
    assert_eq!(rt; told(&life.answers[14]), Some(1));
    assert_eq!(rt; packed(&life.answers[15]), Some(Ok(32)));
    assert_eq!(rt; buffer[0], b'P');
    assert_eq!(rt; buffer[32], 7, "the rest is left");
    Ok(())
}

#[test]
fn every_answer_is_of_its_time(rt: HostRuntime) -> Result<(), Fail> {
    let calls = [
        Call::EnterFuel(GRAM),
        Call::EnterUnit(unit(1, 20_200_101, 10)),
        Call::EnterBurn(grams(1, 100)),
        Call::Ask(HALVES, 20_240_630),
        Call::EnterUnit(unit(2, 20_210_101, 10)),
        Call::EnterBurn(grams(2, 200)),
        Call::Ask(HALVES, 20_240_630),
        Call::Strike(1),
        Call::Ask(HALVES, 20_240_630),
    ];
    let life = live(rt.alloc(), &Average {}, &calls, &mut [])?;
    let asked: Vec<Option<u32>> = life.answers.iter().map(combined).collect(rt.alloc())?;
    let expected = [
        None,
        None,
        None,
        Some(10),
        None,
        None,
        Some(15),
        None,
        Some(20),
    ];
    assert_eq!(rt; asked.as_slice(), expected.as_slice());
    Ok(())
}
