//! The public calls, on whatever is handed in.
ghost use Rattle.std.specs.Prelude.{◌≡◌, ◌+◌, true, Ok, IsTrue, OnErr, length, is_ok};
ghost use Rattle.rules.specs.declared.TheConstants.Settings.{MOST_NOTES};
ghost use Rattle.rules.specs.Rules.{within_limits};
ghost use Rattle.rules.specs.NewSources.{desk_sizes, sum};
ghost use Rattle.floors.specs.Floors.{state_of, in_shape, no_floor, handed_in, asked, acted, added, floor_after, area_after, opening, opened, floor_opened, area_opened};

use crate::{Floor, Told};
use records::Record;
use rules::{Refusal, Settings};

/// The settings that an opening opens with.
fn opening(area: &[u64], fields: Record) -> Result<Settings, Refusal>
    ensures is { result ≡ opening area.now fields }
    ensures room { IsTrue (is_ok result) → length area.now ≡ MOST_NOTES }
    ensures within { (k : Settings) → result ≡ Ok k → within_limits k ≡ true }
{
    if area.len() != Settings::MOST_NOTES {
        return Err(Refusal::AreaLength);
    }
    let settings = fields.opening()?;
    if !settings.within_limits() {
        return Err(Refusal::OutsideSettings);
    }
    Ok(settings)
}

impl Floor {
    /// Opens a fresh floor in the place of this one, and clears the area. Where the opening is refused, the floor of zeros is left.
    pub fn open(&mut self, area: &mut [u64], fields: Record) -> Result<(), Refusal>
        ensures answer { result ≡ opened (opening area.old fields) }
        ensures floor { self.new ≡ floor_opened (opening area.old fields) }
        ensures area { area.new ≡ area_opened area.old (opening area.old fields) }
        ensures kept { OnErr result ((self.new ≡ no_floor) × (area.new ≡ area.old)) }
        ensures shape { IsTrue (is_ok result) → IsTrue (in_shape self.new area.new) }
        ensures none_new { IsTrue (is_ok result) → sum desk_sizes self.new.desks ≡ 0 }
    {
        match opening(area, fields) {
            Ok(settings) => {
                notes::clear(area);
                *self = Floor::fresh(settings);
                Ok(())
            }
            Err(refusal) => {
                *self = Floor::none();
                Err(refusal)
            }
        }
    }

    /// Looks at a floor and an area that were handed in, before anything is done to them.
    pub fn handed_in(&self, area: &[u64]) -> Result<(), Refusal>
        ensures answer { result ≡ handed_in self.now area.now }
        ensures room { IsTrue (is_ok result) → length area.now ≡ MOST_NOTES }
        ensures shape { IsTrue (is_ok result) → IsTrue (in_shape self.now area.now) }
    {
        if area.len() != Settings::MOST_NOTES {
            return Err(Refusal::AreaLength);
        }
        if !self.in_shape(area) {
            return Err(Refusal::NotInShape);
        }
        Ok(())
    }

    /// Carries out the action that a record asks for.
    pub fn act(&mut self, area: &mut [u64], fields: Record) -> Result<Told, Refusal>
        ensures answer { result ≡ acted (state_of self.old area.old) (asked self.old area.old fields) }
        ensures floor { self.new ≡ floor_after self.old area.old (asked self.old area.old fields) }
        ensures area { area.new ≡ area_after self.old area.old (asked self.old area.old fields) }
        ensures kept { OnErr result ((self.new ≡ self.old) × (area.new ≡ area.old)) }
        ensures grown { sum desk_sizes self.new.desks ≡ sum desk_sizes self.old.desks + added result }
        ensures shape { IsTrue (is_ok (handed_in self.old area.old)) → IsTrue (in_shape self.new area.new) }
    {
        self.handed_in(area)?;
        self.step(area, fields.action()?)
    }
}
