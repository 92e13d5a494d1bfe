//! The line of a desk.
ghost use Rattle.std.specs.Prelude.{◌≡◌, Some};
ghost use Rattle.reports.specs.Lines.{mark_text, entries_text, desk_line};

use rules::{Desk, Settings};
use sets::{EntryNo, EntrySet};
use std::fmt;

/// A desk, under its number.
#[derive(Clone, Copy, Debug)]
pub struct DeskLine<'a> {
    pub number: usize,
    pub desk: &'a Desk,
}

/// Entries, rising, each with a space in front.
#[derive(Clone, Copy, Debug)]
struct Entries(EntrySet);

fn mark(faulty: bool) -> &'static str
    ensures { result.now ≡ mark_text faulty }
{
    if faulty { "faulty" } else { "good" }
}

impl fmt::Display for DeskLine<'_> {
    ghost output = { λ line. Some (desk_line line.number line.desk.now) };

    fn fmt<W: fmt::Write>(&self, f: &mut fmt::Formatter<W>) -> fmt::Result {
        let number = self.number;
        let desk = self.desk;
        let mark = mark(desk.faulty);
        let listed = Entries(desk.listed);
        writeln!(
            f,
            "desk {number} {mark} {} {}{listed}",
            desk.pass_on, desk.accept
        )
    }
}

impl fmt::Display for Entries {
    ghost output = { λ entries. Some (entries_text entries.0) };

    fn fmt<W: fmt::Write>(&self, f: &mut fmt::Formatter<W>) -> fmt::Result {
        if self.0.is_empty() {
            return f.write_str(" -");
        }
        // By the entry's number, which is what is printed.
        for e in 0..Settings::MOST_ENTRIES {
            if self.0.has(EntryNo(e)) {
                write!(f, " {e}")?;
            }
        }
        Ok(())
    }
}
