// Two grids of one unit each, joined, packed and read back.
ghost use Rattle.std.specs.Prelude.{◌≡◌, [], ◌∷◌, Some, None, Ok};
ghost use Rattle.worked.specs.Grids.{north_unit, south_unit};

use layers::Join;
use model::{PackingFault, PowerUnit};
use packed::{Packed, pack};
use register::Register;

// Unit 7: ordinary, 20010203, 1,000 MWh, 250,000 g, and 300,000 g by default.
const NORTH: [u8; 32] = [
    b'P', 0, 0, 7, 1, 49, 84, 219, 0, 0, 3, 232, 1, 0, 0, 0, 0, 0, 0, 0, 0, 3, 208, 144, 0, 0, 0,
    0, 0, 4, 147, 224,
];

// Unit 9: low-cost, 20150601, 3,000 MWh, 0 g, no default.
const SOUTH: [u8; 32] = [
    b'P', 1, 0, 9, 1, 51, 121, 73, 0, 0, 11, 184, 0, 0, 0, 0, 0, 0, 0, 0, 0, 0, 0, 0, 0, 0, 0, 0,
    0, 0, 0, 0,
];

// The newer unit comes first, though it stands in the second grid; then the older one, and then none.
pub fn pack_join() -> Result<[Option<PowerUnit>; 3], PackingFault>
    ensures { result ≡ Ok (Some south_unit ∷ Some north_unit ∷ None ∷ []) }
{
    let mut both = Join::new(Packed::new(&NORTH), Packed::new(&SOUTH));
    let mut buffer = [0u8; 64];
    let written = pack(&mut both, &mut buffer)?;
    let mut back = Packed::new(&buffer[0..written]);
    Ok([back.next()?, back.next()?, back.next()?])
}
