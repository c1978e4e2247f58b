// Records from standard input, a line for each answer and each refusal to standard output.
#![tactic(auto)]

ghost use Rattle.std.specs.Prelude.{◌≤◌, length, IfOk};

use book::Book;
use intake::{Intake, respond};
use model::RECORD_SIZE;
use std::io;
use std::io::{BufReader, Read};

fn main(rt: HostRuntime) -> anyhow::Result<()> {
    run(&rt)
}

fn run(rt: &HostRuntime) -> anyhow::Result<()> {
    let mut book = Book::new(rt.alloc())?;
    let mut intake = Intake::new();
    let mut input = BufReader::new(rt.alloc(), rt.stdin())?;
    let mut buffer = [0u8; RECORD_SIZE];
    // Nothing says that an input ends, and a loop over `rt.forever()` owes no answer: so the records are counted.
    for _ in 0..u64::MAX {
        let piece = fill(&mut input, &mut buffer)?;
        if piece.is_empty() {
            break;
        }
        if let Some(line) = respond(&mut intake, &mut book, piece)? {
            rt.println(line)?;
        }
        if piece.len() < RECORD_SIZE {
            break;
        }
    }
    Ok(())
}

// Reads until the buffer is full or the input ends, and gives the piece that came. It counts the bytes, since `read_exact` does
// not tell how many came of a short last piece.
fn fill<'a, R: Read>(input: &mut R, buffer: &'a mut [u8; RECORD_SIZE]) -> io::Result<&'a [u8]>
    ensures { IfOk result (λ piece. length piece.now ≤ 32) }
{
    let mut filled = 0;
    while filled < RECORD_SIZE {
        let came = input.read(&mut buffer[filled..])?;
        if came == 0 {
            break;
        }
        filled += came;
    }
    Ok(&buffer[..filled])
}
