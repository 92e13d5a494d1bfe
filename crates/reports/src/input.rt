//! What a program makes of its input.
ghost use Rattle.std.specs.Prelude.{◌≡◌, ◌⊎◌, IsTrue};
ghost use Rattle.floors.specs.Floors.{no_floor, in_shape};
ghost use Rattle.reports.specs.Input.{input_went};

use floors::Floor;
use rules::Refusal;
use runs::Ran;

/// The most bytes that a program takes as a sequence.
pub const MOST_BYTES: usize = 65_536;

/// Runs a whole sequence, if it is not too long for a program.
pub fn run_input(floor: &mut Floor, area: &mut [u64], input: &[u8]) -> Ran
    ensures ran { result ≡ (input_went area.old input.now).ran }
    ensures floor { floor.new ≡ (input_went area.old input.now).floor }
    ensures area { area.new ≡ (input_went area.old input.now).area }
    ensures shape { (floor.new ≡ no_floor) ⊎ IsTrue (in_shape floor.new area.new) }
{
    if input.len() > MOST_BYTES {
        *floor = Floor::none();
        return Ran {
            count: 0,
            new_sources: 0,
            refusal: Some(Refusal::Length),
        };
    }
    runs::whole(floor, area, input)
}
