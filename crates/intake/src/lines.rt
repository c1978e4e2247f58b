// The line that is printed for an answer or a refusal.
ghost use Rattle.intake.specs.Responding.{Responds};

use super::{AverageAlone, Feature, Intake};
use book::Book;
use model::{CombinedMargin, IntakeFault, Reply};
use std::fmt;

#[derive(Clone, Copy, PartialEq, Eq, Debug)]
pub enum Line {
    Margin(CombinedMargin),
    Refused(IntakeFault),
}

impl fmt::Display for Line {
    fn fmt<W: fmt::Write>(&self, f: &mut fmt::Formatter<W>) -> fmt::Result {
        match self {
            Line::Margin(margin) => {
                let set = u8::from(margin.cohort.set);
                let (kept, registered, back) = margin.cohort.counts;
                let combined = margin.combined;
                let operating = margin.operating;
                let build = margin.build;
                write!(
                    f,
                    "CM {combined:08} OM {operating:08} BM {build:08} SET {set} {kept:04} {registered:04} {back:04}"
                )
            }
            Line::Refused(refused) => {
                let rule = u8::from(refused.fault.rule);
                let layer = u8::from(refused.fault.layer);
                let place = refused.fault.place;
                write!(f, "NO {rule:02} LAYER {layer} PLACE {place:010}")
            }
        }
    }
}

// Takes one piece of the stream, and gives the line that it is answered with; an accepted entry has none.
pub fn respond(intake: &mut Intake, book: &mut Book, piece: &[u8]) -> Result<Option<Line>, Feature>
    ensures { Responds intake.old intake.new book.old book.new piece.now result }
{
    match intake.take(book, &mut AverageAlone {}, piece) {
        Ok(Ok(Reply::Entered)) => Ok(None),
        Ok(Ok(Reply::Margin(margin))) => Ok(Some(Line::Margin(margin))),
        Ok(Err(feature)) => Err(feature),
        Err(refused) => Ok(Some(Line::Refused(refused))),
    }
}
