// A whole stream of records, of every kind but strikes and loads, taken in one call; and how what is not built reads.
use super::shared::margin;
use book::Book;
use intake::Feature;
use model::{CohortSet, Fault, IntakeFault, Layer, Reply, Rule};
use record_streams::{Intake, Methods, take_all};
use std::alloc::{AllocError, Global};
use std::test::Fail;

// Adds a record with two numbers of four bytes after its head.
fn add(stream: &mut Vec<u8>, head: [u8; 4], first: u32, second: u32) -> Result<(), AllocError> {
    stream.extend_from_slice(&head)?;
    stream.extend_from_slice(&first.to_be_bytes())?;
    stream.extend_from_slice(&second.to_be_bytes())?;
    stream.extend_from_slice(&[0u8; 20])
}

// A fuel of one gram; 10 MWh with 300 g, and 5 MWh of a low-cost unit without burns; five years of 49 and 100 GWh; a question by
// each method; a fuel after them, and five bytes more.
fn stream(heap: Global) -> Result<Vec<u8>, AllocError> {
    let mut stream = Vec::new(heap);
    add(&mut stream, [b'F', 0, 0, 1], 1_000, 1)?;
    add(&mut stream, [b'U', 0, 0, 1], 20_200_101, 10)?;
    add(&mut stream, [b'U', 1, 0, 2], 20_210_101, 5)?;
    add(&mut stream, [b'B', 0, 0, 1], 65_536, 300)?;
    for year in 0..5u8 {
        add(&mut stream, [b'Y', year, 0, 0], 49, 100)?;
    }
    for method in 1..4u8 {
        add(&mut stream, [b'Q', method, 50, 50], 20_240_630, 0)?;
    }
    add(&mut stream, [b'F', 0, 0, 2], 1_000, 1)?;
    stream.extend_from_slice(&[0u8; 5])?;
    Ok(stream)
}

fn refused(rule: Rule, layer: Layer, place: u32) -> Result<Reply, IntakeFault> {
    let fault = Fault::new(rule, layer, place);
    Err(IntakeFault { fault })
}

// Simple: 300 g / 10 MWh are 30. Average and build margin: 300 g / 15 MWh are 20. No load is known of any hour.
#[test]
fn every_method_in_one_stream(rt: HostRuntime) -> Result<(), Fail> {
    let mut book = Book::new(rt.alloc())?;
    let mut methods = Methods::new(rt.alloc())?;
    let mut intake = Intake::new();
    let mut replies = Vec::new(rt.alloc());
    take_all(
        &mut intake,
        &mut book,
        &mut methods,
        &stream(rt.alloc())?,
        &mut replies,
    )?;
    assert_eq!(rt; replies.len(), 14);
    assert!(rt;
        replies[0..9]
            .iter()
            .all(|reply| *reply == Ok(Reply::Entered))
    );
    let by_simple = margin([25, 30, 20], CohortSet::Sample, (2, 0, 0));
    assert_eq!(rt; replies[9], Ok(Reply::Margin(by_simple)));
    assert_eq!(rt; replies[10], refused(Rule::Missing, Layer::LoadYear, 0));
    let by_average = margin([20, 20, 20], CohortSet::Sample, (2, 0, 0));
    assert_eq!(rt; replies[11], Ok(Reply::Margin(by_average)));
    assert_eq!(rt;
        replies[12],
        refused(Rule::AfterQuestion, Layer::Intake, 12)
    );
    assert_eq!(rt;
        replies[13],
        refused(Rule::ShortOrForeignRecord, Layer::Intake, 13)
    );
    Ok(())
}

// A program that ends with one shows the form for programmers, so that this form reads as text too.
#[test]
fn what_is_not_built_reads_as_text(rt: HostRuntime) -> Result<(), Fail> {
    let texts = [
        (Feature::LoadRecords, "load records (H) are not built yet"),
        (
            Feature::YearlyRecords,
            "yearly records (Y) are not built yet",
        ),
        (
            Feature::SimpleMethod,
            "the simple method (1) is not built yet",
        ),
        (
            Feature::AdjustedMethod,
            "the simple adjusted method (2) is not built yet",
        ),
    ];
    for (missing, text) in texts {
        assert_eq!(rt; format!(in rt.alloc(); "{missing:?}")?.as_str(), text);
        assert_eq!(rt; format!(in rt.alloc(); "{missing}")?.as_str(), text);
    }
    Ok(())
}
