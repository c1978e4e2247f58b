// A load year from a list of numbers, hour 0 first.
ghost use Rattle.std.specs.Prelude.{◌≡◌};
ghost use Rattle.model.specs.LoadYears.{year_hours, list_year};
ghost use Rattle.load.specs.Ranging.{list-ranged};

use super::limits::{is_load, refusal};
use super::{HOURS, LoadYear};
use model::{LoadFault, Rule};

// The numbers are as delivered: too few, too many or out of range.
#[derive(Drop)]
pub struct LoadList {
    loads: Vec<u32>,
}

impl LoadList {
    pub fn new(loads: Vec<u32>) -> LoadList
        ensures { result.loads ≡ loads }
    {
        LoadList { loads }
    }

    pub fn into_loads(self) -> Vec<u32>
        ensures { result ≡ self.loads }
    {
        self.loads
    }
}

impl LoadYear for LoadList {
    ghost year = { λ l. list_year year_hours l.loads.items };

    ghost ranged = { λ l h. list-ranged year_hours h l.loads.items };

    #[tactic(auto, unfolding(model::specs::LoadYears::is_load))]
    fn load(&self, hour: u32) -> Result<u32, LoadFault> {
        let place = hour as usize;
        if place >= HOURS {
            return Err(refusal(Rule::Missing, hour));
        }
        let Some(&load) = self.loads.get(place) else {
            return Err(refusal(Rule::Missing, hour));
        };
        if !is_load(load) {
            return Err(refusal(Rule::OutOfRange, hour));
        }
        Ok(load)
    }
}
