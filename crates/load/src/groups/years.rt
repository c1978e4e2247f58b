// The groups taken in as a load year.
ghost use Rattle.load.specs.Taking.{year_of};
ghost use Rattle.std.proofs.Common.{rules};

use super::super::LoadYear;
use super::super::limits::refusal;
use super::{GROUP_HOURS, LoadGroups};
use model::{LoadFault, Rule};

impl LoadYear for LoadGroups {
    ghost year = { year_of };

    ghost ranged = { Prim.search rules };

    fn load(&self, hour: u32) -> Result<u32, LoadFault> {
        let at = hour as usize;
        let Some(Some(loads)) = self.groups.get(at / GROUP_HOURS) else {
            return Err(refusal(Rule::Missing, hour));
        };
        Ok(loads[at % GROUP_HOURS])
    }
}
