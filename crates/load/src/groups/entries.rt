// Taking groups in.
ghost use Rattle.std.specs.Prelude.{◌≡◌, [], IfOk, OnErr};
ghost use Rattle.model.specs.LoadYears.{year_hours, all_loads, group_year};
ghost use Rattle.load.specs.Taking.{TakenIn, year_of};

use super::super::limits::{is_load, refusal};
use super::{GROUP_HOURS, GROUPS, LoadGroups};
use model::{LoadFault, LoadGroup, Rule};
use std::alloc::{AllocError, Global};

// Each of the six is a load. The six loads of a record are looped by index: a rule of the project.
fn all_loads(numbers: &[u32; GROUP_HOURS]) -> bool
    ensures { result ≡ all_loads numbers.now }
{
    for i in 0..GROUP_HOURS {
        if !is_load(numbers[i]) {
            return false;
        }
    }
    true
}

impl LoadGroups {
    pub fn new(heap: Global) -> Result<LoadGroups, AllocError>
        ensures { IfOk result (λ gs. year_of gs ≡ group_year year_hours []) }
    {
        let groups = vec![in heap; None; GROUPS]?;
        Ok(LoadGroups { groups })
    }

    pub fn take_in(&mut self, group: LoadGroup) -> Result<(), LoadFault>
        ensures taken { TakenIn group (year_of self.old) (year_of self.new) result }
        ensures refusal { OnErr result (self.new ≡ self.old) }
    {
        let place = usize::from(group.group);
        if place >= GROUPS || !all_loads(&group.loads) {
            return Err(refusal(Rule::OutOfRange, u32::from(group.group)));
        }
        if self.groups[place].is_some() {
            return Err(refusal(Rule::AlreadyStands, u32::from(group.group)));
        }
        self.groups[place] = Some(group.loads);
        Ok(())
    }
}
