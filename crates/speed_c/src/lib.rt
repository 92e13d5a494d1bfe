//! The calls of `speed` for a program in another language.
#![tactic(auto)]

ghost use Rattle.std.specs.Prelude.{◌≡◌};
ghost use Rattle.runs.specs.Runs.{whole_of};
ghost use Rattle.tables.specs.Tables.{read_into, written_into};
ghost use Rattle.speed.specs.Reports.{reported, outcome_read, outcome_written};

use speed::{Outcome, Report};

/// A whole sequence: what it tells, with every part of the floor that it leaves.
#[unsafe(no_mangle)]
pub extern "C" fn umidezh_run_whole(area: &mut [u64], sequence: &[u8]) -> Report
    ensures report { result ≡ reported (whole_of area.old sequence.now).ran (whole_of area.old sequence.now).floor }
    ensures area { area.new ≡ (whole_of area.old sequence.now).area }
{
    speed::umidezh_run_whole(area, sequence)
}

/// A table, read into the place that is lent.
#[unsafe(no_mangle)]
pub extern "C" fn umidezh_read_table(text: &[u8], place: &mut [u8]) -> Outcome
    ensures outcome { result ≡ outcome_read (read_into text.now place.old).answer }
    ensures place { place.new ≡ (read_into text.now place.old).place }
{
    speed::umidezh_read_table(text, place)
}

/// A sequence, written as a table into the place that is lent.
#[unsafe(no_mangle)]
pub extern "C" fn umidezh_write_table(sequence: &[u8], place: &mut [u8]) -> Outcome
    ensures outcome { result ≡ outcome_written (written_into sequence.now place.old).answer }
    ensures place { place.new ≡ (written_into sequence.now place.old).place }
{
    speed::umidezh_write_table(sequence, place)
}
