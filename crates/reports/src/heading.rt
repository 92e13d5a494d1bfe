//! What a report begins with.
ghost use Rattle.std.specs.Prelude.{Some};
ghost use Rattle.rules.specs.Rules.{last_number};
ghost use Rattle.reports.specs.Lines.{heading_text};

use floors::Floor;
use rules::{Refusal, last_number};
use std::fmt;

/// The line of a run, with the last number, and where there is a floor the line of its clock.
#[derive(Clone, Copy, Debug)]
pub struct Heading<'a> {
    pub count: usize,
    pub refusal: Option<Refusal>,
    pub floor: &'a Floor,
}

impl fmt::Display for Heading<'_> {
    ghost output = { λ h. Some (heading_text h.count (last_number h.refusal) h.floor.now) };

    fn fmt<W: fmt::Write>(&self, f: &mut fmt::Formatter<W>) -> fmt::Result {
        let count = self.count;
        let number = last_number(self.refusal);
        writeln!(f, "ran {count} answer {number}")?;
        let floor = self.floor;
        if floor.settings.desks == 0 {
            return Ok(());
        }
        writeln!(f, "clock {} pending {}", floor.clock, floor.waiting)
    }
}
