// A whole slice of records.
ghost use Rattle.std.specs.Prelude.{◌≡◌, ◌+◌, ◌≤◌, true, List, ◌++◌, length, is_ok, vec_len, vec_capacity, Result, MatchResult};
ghost use Rattle.model.specs.Records.{pieces_of};
ghost use Rattle.model.specs.declared.answers.Reply.{Reply};
ghost use Rattle.model.specs.declared.faults.IntakeFault.{IntakeFault};
ghost use Rattle.record_streams.specs.Feeding.{Feeds};
ghost use Rattle.record_streams.specs.Taking.{Taken};

use super::Methods;
use book::Book;
use intake::Intake;
use model::{IntakeFault, RECORD_SIZE, Reply};
use std::alloc::AllocError;

// Takes one piece of the stream, which is a whole record or the short last one, with the methods of every kind.
pub fn take(
    intake: &mut Intake,
    book: &mut Book,
    methods: &mut Methods,
    bytes: &[u8],
) -> Result<Reply, IntakeFault>
    ensures { Taken intake.old intake.new book.old book.new methods.old methods.new bytes.now result }
{
    intake.take(book, methods, bytes)
}

// Takes the pieces of the stream in order: 32 bytes each, the last may be short. Their replies are added to the list, whose
// room is found first, so that a want of memory leaves everything as it stood.
pub fn take_all(
    intake: &mut Intake,
    book: &mut Book,
    methods: &mut Methods,
    stream: &[u8],
    replies: &mut Vec<Result<Reply, IntakeFault>>,
) -> Result<(), AllocError>
    ensures taken { MatchResult result (λ _. (rs : List (Result Reply IntakeFault)) × (replies.new.items ≡ replies.old.items ++ rs) × Feeds intake.old intake.new book.old book.new methods.old methods.new stream.now rs) (λ _. (intake.new ≡ intake.old) × (book.new ≡ book.old) × (methods.new ≡ methods.old) × (replies.new.items ≡ replies.old.items)) }
    ensures room { vec_len replies.old + length (pieces_of stream.now) ≤ vec_capacity replies.old → is_ok result ≡ true }
{
    replies.reserve(stream.len().div_ceil(RECORD_SIZE))?;
    for piece in stream.chunks(RECORD_SIZE) {
        replies.push_reserved(take(intake, book, methods, piece));
    }
    Ok(())
}
