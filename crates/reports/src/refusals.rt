//! What a program says of a refusal.
ghost use Rattle.std.specs.Prelude.{◌≡◌, ◌≤◌, ◌+◌, length, Some, None};
ghost use Rattle.reports.specs.Refusals.{line_of};

use rules::Refusal;
use std::fmt;

/// A line of one refusal: of the whole input, or of a row.
#[derive(Clone, Copy, Debug)]
pub struct RefusalLine<'a> {
    pub refusal: Refusal,
    pub row: Option<usize>,
    pub reason: &'a str,
}

impl<'a> RefusalLine<'a> {
    /// The line of a refusal of the whole input.
    pub fn of_input(refusal: Refusal, reason: &'a str) -> RefusalLine<'a>
        ensures refusal { result.refusal ≡ refusal }
        ensures row { result.row ≡ None }
        ensures reason { result.reason.now ≡ reason.now }
        ensures short { length (line_of result.refusal result.row result.reason.now) ≤ length reason.now + 30 }
    {
        RefusalLine {
            refusal,
            row: None,
            reason,
        }
    }

    /// The line of a refusal of a row.
    pub fn of_row(refusal: Refusal, row: usize, reason: &'a str) -> RefusalLine<'a>
        ensures refusal { result.refusal ≡ refusal }
        ensures row { result.row ≡ Some row }
        ensures reason { result.reason.now ≡ reason.now }
        ensures short { length (line_of result.refusal result.row result.reason.now) ≤ length reason.now + 55 }
    {
        RefusalLine {
            refusal,
            row: Some(row),
            reason,
        }
    }
}

impl fmt::Display for RefusalLine<'_> {
    ghost output = { λ line. Some (line_of line.refusal line.row line.reason.now) };

    fn fmt<W: fmt::Write>(&self, f: &mut fmt::Formatter<W>) -> fmt::Result {
        let refusal = self.refusal;
        let reason = self.reason;
        match self.row {
            Some(row) => writeln!(f, "answer {refusal} row {row}: {reason}"),
            None => writeln!(f, "answer {refusal}: {reason}"),
        }
    }
}
