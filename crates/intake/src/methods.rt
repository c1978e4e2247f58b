// The methods that an intake has beside the year book.
ghost use Rattle.std.specs.Prelude.{◌≡◌, Result};
ghost use Rattle.model.specs.declared.faults.IntakeFault.{IntakeFault};
ghost use Rattle.model.specs.declared.records.LoadGroup.{LoadGroup};
ghost use Rattle.model.specs.declared.records.MethodKind.{MethodKind};
ghost use Rattle.model.specs.declared.records.Question.{Question};
ghost use Rattle.model.specs.declared.records.YearlyPair.{YearlyPair};
ghost use Rattle.book.specs.declared.books.Book.{Book};

use book::Book;
use model::{IntakeFault, LoadGroup, MethodKind, Question, YearlyPair};

// What takes in the entries that are not the book's, and answers each question by the method that it names.
pub trait MethodSet {
    // What a record that was not refused is answered with.
    type Reply;

    // The reply to an entry that was accepted.
    ghost entry_reply: { Self.Reply };

    // What taking in a group of loads or a yearly pair makes of the methods, and the answer.
    ghost loads: { LoadGroup → Self → Self → Result Self.Reply IntakeFault → Type 0 };

    ghost pairs: { YearlyPair → Self → Self → Result Self.Reply IntakeFault → Type 0 };

    // What a question by a method makes of the book, and the answer.
    ghost asks: { MethodKind → Question → Self → Book → Book → Result Self.Reply IntakeFault → Type 0 };

    fn entered() -> Self::Reply
        ensures { result ≡ entry_reply };

    fn enter_load(&mut self, group: LoadGroup) -> Result<Self::Reply, IntakeFault>
        ensures { loads group self.old self.new result };

    fn enter_pair(&mut self, pair: YearlyPair) -> Result<Self::Reply, IntakeFault>
        ensures { pairs pair self.old self.new result };

    fn answer(
        &self,
        kind: MethodKind,
        book: &mut Book,
        question: Question,
    ) -> Result<Self::Reply, IntakeFault>
        ensures { asks kind question self.now book.old book.new result };
}
