// Many streams of records in one input, each taken by an intake and a book of its own.
#![tactic(auto)]

use anyhow::Context;
use book::Book;
use intake::{Intake, respond};
use model::RECORD_SIZE;
use std::io::Read;

fn main(rt: HostRuntime) -> anyhow::Result<()> {
    run(&rt)
}

// Each case is the length of its stream in four bytes, the highest first, and then the stream.
fn run(rt: &HostRuntime) -> anyhow::Result<()> {
    let mut all = Vec::new(rt.alloc());
    rt.stdin().read_to_end(&mut all)?;
    let mut rest: &[u8] = &all;
    // The range numbers the cases in four digits; a `while let` would want that bound as an invariant.
    for number in 1..10_000u32 {
        let Some((size, later)) = rest.split_first_chunk() else {
            break;
        };
        let size = u32::from_be_bytes(*size) as usize;
        let (stream, after) = later.split_at_checked(size).context("a case is cut short")?;
        println!(rt; "CASE {number:04}")?;
        play(rt, stream)?;
        rest = after;
    }
    Ok(())
}

fn play(rt: &HostRuntime, stream: &[u8]) -> anyhow::Result<()> {
    let mut book = Book::new(rt.alloc())?;
    let mut intake = Intake::new();
    for piece in stream.chunks(RECORD_SIZE) {
        if let Some(line) = respond(&mut intake, &mut book, piece)? {
            rt.println(line)?;
        }
    }
    Ok(())
}
