//! The lines that `floor` prints, which are all that it prints.
ghost use Rattle.std.specs.Prelude.{◌≡◌, Some};
ghost use Rattle.rules.specs.Rules.{last_number};
ghost use Rattle.reports.specs.Lines.{outcome_text};

use crate::desks::DeskLine;
use crate::heading::Heading;
use floors::Floor;
use rules::{Refusal, Settings};
use std::fmt;

/// What a run comes to.
#[derive(Clone, Copy, Debug)]
pub struct FloorLines<'a> {
    pub count: usize,
    pub refusal: Option<Refusal>,
    pub floor: &'a Floor,
}

impl fmt::Display for FloorLines<'_> {
    ghost output = { λ o. Some (outcome_text o.count (last_number o.refusal) o.floor.now) };

    #[tactic(auto, unfolding(crate::specs::Lines::outcome_text))]
    fn fmt<W: fmt::Write>(&self, f: &mut fmt::Formatter<W>) -> fmt::Result {
        let floor = self.floor;
        let heading = Heading {
            count: self.count,
            refusal: self.refusal,
            floor,
        };
        write!(f, "{heading}")?;
        let desks = floor.settings.desks.min(Settings::MOST_DESKS);
        for (number, desk) in floor.desks[..usize::from(desks)].iter().enumerate() {
            let line = DeskLine { number, desk };
            write!(f, "{line}")?;
        }
        Ok(())
    }
}
