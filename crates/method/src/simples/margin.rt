// The margin by the simple method.
ghost use Rattle.std.specs.Prelude.{◌≡◌, false};
ghost use Rattle.model.specs.Methods.{simple_answer};
ghost use Rattle.model.specs.Operating.{simple_meaning};
ghost use Rattle.method.specs.Pairs.{pairs_of};
ghost use Rattle.method.specs.Means.{simple-fair, simple-near};
ghost use Rattle.std.proofs.Common.{rules};

use super::super::groups::mean;
use super::super::refusals::refusal;
use super::super::{Method, group_sums};
use super::Simple;
use model::{MethodFault, Rule};
use register::Register;

impl Method for Simple {
    const DISTANCE: u32 = 2;

    ghost DISTANCE = { 2 };

    const STANDS_ALONE: bool = false;

    ghost STANDS_ALONE = { false };

    ghost meaning = { λ m us. simple_meaning (pairs_of m) us };

    ghost may = { λ m us a. a ≡ simple_answer us };

    ghost fair = { λ m us ss h falls few e. simple-fair (pairs_of m) us ss e };

    ghost near = { λ m us ss a h falls few e is. simple-near (pairs_of m) us ss e a h is };

    ghost close = { Prim.search rules };

    fn operating_margin<R: Register>(&self, register: &mut R) -> Result<u32, MethodFault> {
        let (_, other) = group_sums(register)?;
        self.check_years()?;
        mean(other).ok_or(refusal(Rule::NoShare, 0))
    }
}
