//! Whether a floor is in shape, looked at where it lies.
ghost use Rattle.std.specs.List.{list_all};
ghost use Rattle.std.specs.Prelude.{◌≡◌, ◌≤◌, length};
ghost use Rattle.rules.specs.declared.TheConstants.Settings.{MOST_NOTES};
ghost use Rattle.rules.specs.Rules.{desk_in_shape, zero_desk};
ghost use Rattle.floors.specs.Floors.{in_shape};

use crate::Floor;
use rules::{Desk, Settings};

// Two functions of one shape, each over another test: one over any test would be `all` itself.
fn all_in_shape(desks: &[Desk], settings: Settings) -> bool
    requires { settings.entries ≤ 64 }
    ensures { result ≡ list_all (desk_in_shape settings) desks.now }
{
    desks.iter().all(|desk| desk.in_shape(settings))
}

fn all_zero(desks: &[Desk]) -> bool
    ensures { result ≡ list_all zero_desk desks.now }
{
    desks.iter().all(|desk| desk.is_zero())
}

impl Floor {
    /// Whether the floor is in shape, with the notes that it counts in the area.
    pub fn in_shape(&self, area: &[u64]) -> bool
        requires { length area.now ≡ MOST_NOTES }
        ensures { result ≡ in_shape self.now area.now }
    {
        let settings = self.settings;
        if !settings.within_limits() {
            return false;
        }
        let (used, unused) = self.desks.split_at(settings.desks as usize);
        self.clock <= Settings::LAST_TICK
            && self.waiting <= Settings::MOST_NOTES
            && notes::all_in_shape(&area[..self.waiting], settings, self.clock)
            && all_in_shape(used, settings)
            && all_zero(unused)
            && self.faults() <= settings.faults as usize
    }
}
