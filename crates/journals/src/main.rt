// A journal from standard input, carried out event by event on one year book, and a line for what each event was answered with.
#![tactic(auto)]

use anyhow::{Context, anyhow};
use book::Book;
use intake::decode;
use model::{BookFault, Event, PowerUnit, RECORD_SIZE, Record};
use register::Register;
use std::fmt;
use std::io::Read;

fn main(rt: HostRuntime) -> anyhow::Result<()> {
    run(&rt)
}

// Each event is a piece of 32 bytes: a record of a fuel, a unit, a burn or a strike, or the letter R for a restart or N for a
// next and 31 zero bytes.
fn run(rt: &HostRuntime) -> anyhow::Result<()> {
    let mut all = Vec::new(rt.alloc());
    rt.stdin().read_to_end(&mut all)?;
    let mut book = Book::new(rt.alloc())?;
    for piece in all.chunks(RECORD_SIZE) {
        let line = match event(piece).context("no event")? {
            Event::Next => match book.next() {
                Ok(came) => Line::Told(came),
                Err(_) => return Err(anyhow!("a year book ends properly")),
            },
            other => Line::Answered(book.apply(other)),
        };
        rt.println(line)?;
    }
    Ok(())
}

fn event(piece: &[u8]) -> Option<Event> {
    match piece {
        [b'R', ..] => Some(Event::Restart),
        [b'N', ..] => Some(Event::Next),
        _ => match decode(piece)? {
            Record::Fuel(fuel) => Some(Event::EnterFuel(fuel)),
            Record::Unit(unit) => Some(Event::EnterUnit(unit)),
            Record::Burn(burn) => Some(Event::EnterBurn(burn)),
            Record::Strike(code) => Some(Event::Strike(code)),
            _ => None,
        },
    }
}

// What an event was answered with.
#[derive(Clone, Copy)]
enum Line {
    Answered(Result<(), BookFault>),
    Told(Option<PowerUnit>),
}

impl fmt::Display for Line {
    fn fmt<W: fmt::Write>(&self, f: &mut fmt::Formatter<W>) -> fmt::Result {
        match self {
            Line::Answered(Ok(())) => f.write_str("OK"),
            Line::Answered(Err(refused)) => {
                let rule = u8::from(refused.fault.rule);
                let layer = u8::from(refused.fault.layer);
                let place = refused.fault.place;
                write!(f, "NO {rule:02} LAYER {layer} PLACE {place}")
            }
            Line::Told(None) => f.write_str("END"),
            Line::Told(Some(unit)) => {
                let code = unit.code;
                let day = unit.day;
                let class = u8::from(unit.class);
                let generation = unit.generation;
                let grams = unit.grams;
                write!(f, "UNIT {code} {day} {class} {generation} {grams} ")?;
                match unit.default_grams {
                    Some(default) => write!(f, "{default}"),
                    None => f.write_str("-"),
                }
            }
        }
    }
}
