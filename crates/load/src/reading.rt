// Reading a whole load year.
ghost use Rattle.std.specs.Prelude.{◌≡◌};
ghost use Rattle.model.specs.LoadYears.{year_hours, read_year};

use super::{HOURS, LoadYear};
use model::LoadFault;

// The loads of all hours in order, or the fault of the first hour that has one. (`array::try_from_fn` does not promise that its
// error is the first.)
pub fn read_year<L: LoadYear>(year: &L) -> Result<[u32; HOURS], LoadFault>
    ensures { result ≡ read_year (L.LoadYear.year year.now) year_hours }
{
    let mut loads = [0; HOURS];
    for (hour, load) in loads.iter_mut().enumerate() {
        *load = year.load(hour as u32)?;
    }
    Ok(loads)
}
