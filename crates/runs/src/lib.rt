//! Runs of records: a run on a floor, the part of the sequence that it has not carried out, and a whole sequence, which opens its floor
//! itself.
#![tactic(auto)]

ghost use Rattle.std.specs.Prelude.{◌≡◌, ◌+◌, ◌≤◌, ◌/◌, length, Option, None, Some, IsTrue, OnErr, is_ok};
ghost use Rattle.rules.specs.declared.TheConstants.Settings.{MOST_NOTES};
ghost use Rattle.rules.specs.NewSources.{sum, desk_sizes};
ghost use Rattle.records.specs.Records.{asked_in};
ghost use Rattle.floors.specs.Floors.{state_of, in_shape, no_floor, handed_in, acted, added, opened, floor_opened, area_opened, floor_after, area_after};
ghost use Rattle.runs.specs.Runs.{asked_from, begun, went_on, run_answer, run_of, rest_of, first_of_whole, whole_opening, whole_of};

pub mod theorems;

use floors::{Floor, Told};
use records::Record;
use rules::{Refusal, Settings};

/// What a run tells: how many records it carried out, how many sources they added, and the refusal that ended it.
#[derive(Clone, Copy, Debug, PartialEq, Eq)]
pub struct Ran {
    pub count: usize,
    pub new_sources: usize,
    pub refusal: Option<Refusal>,
}

/// Carries out what one record asks for.
fn step_record(floor: &mut Floor, area: &mut [u64], bytes: &[u8]) -> Result<Told, Refusal>
    requires room { length area.old ≡ MOST_NOTES }
    requires shape { IsTrue (in_shape floor.old area.old) }
    ensures shape { IsTrue (in_shape floor.new area.new) }
    ensures answer { result ≡ acted (state_of floor.old area.old) (asked_in bytes.now) }
    ensures floor { floor.new ≡ floor_after floor.old area.old (asked_in bytes.now) }
    ensures area { area.new ≡ area_after floor.old area.old (asked_in bytes.now) }
    ensures kept { OnErr result ((floor.new ≡ floor.old) × (area.new ≡ area.old)) }
    ensures grown { sum desk_sizes floor.new.desks ≡ sum desk_sizes floor.old.desks + added result }
{
    let action = Record::read(bytes)?.action()?;
    floor.step(area, action)
}

/// Carries out the first `end` records of a sequence, up to the first that is refused, on a floor that is known to be in shape: for a
/// caller that has looked at it, as `run` has.
pub fn carry_out(floor: &mut Floor, area: &mut [u64], sequence: &[u8], end: usize) -> Ran
    requires room { length area.old ≡ MOST_NOTES }
    requires shape { IsTrue (in_shape floor.old area.old) }
    requires records { end ≤ length sequence.now / 16 }
    ensures shape { IsTrue (in_shape floor.new area.new) }
    ensures went { record { ran = result; floor = floor.new; area = area.new } ≡ went_on (begun floor.old area.old) (asked_from sequence.now 0 end) }
    ensures kept { result.count ≡ 0 → (floor.new ≡ floor.old) × (area.new ≡ area.old) }
    ensures grown { sum desk_sizes floor.new.desks ≡ sum desk_sizes floor.old.desks + result.new_sources }
{
    let mut new_sources = 0;
    // A rule of the project: a run lends a part from 16 × k.
    for k in 0..end {
        match step_record(floor, area, &sequence[16 * k..16 * k + 16]) {
            Ok(told) => new_sources += usize::from(told.new),
            Err(refusal) => {
                return Ran {
                    count: k,
                    new_sources,
                    refusal: Some(refusal),
                };
            }
        }
    }
    Ran {
        count: end,
        new_sources,
        refusal: None,
    }
}

impl Ran {
    /// A run that was refused before its first record.
    fn refused(refusal: Refusal) -> Ran
        ensures { result ≡ record { count = 0; new_sources = 0; refusal = Some refusal } }
    {
        Ran {
            count: 0,
            new_sources: 0,
            refusal: Some(refusal),
        }
    }
}

/// Looks at what a run is handed, and so at the floor's shape, which its steps keep.
fn ready(floor: &Floor, area: &[u64], sequence: &[u8]) -> Result<(), Refusal>
    ensures answer { result ≡ run_answer floor.now area.now sequence.now }
    ensures room { IsTrue (is_ok result) → length area.now ≡ MOST_NOTES }
    ensures shape { IsTrue (is_ok result) → IsTrue (in_shape floor.now area.now) }
{
    floor.handed_in(area)?;
    if sequence.len() % Record::LENGTH != 0 {
        return Err(Refusal::Length);
    }
    Ok(())
}

/// Carries out the records of a sequence, at most `most` of them, up to the first that is refused.
pub fn run(floor: &mut Floor, area: &mut [u64], sequence: &[u8], most: usize) -> Ran
    ensures ran { result ≡ (run_of floor.old area.old sequence.now most).ran }
    ensures floor { floor.new ≡ (run_of floor.old area.old sequence.now most).floor }
    ensures area { area.new ≡ (run_of floor.old area.old sequence.now most).area }
    ensures kept { result.count ≡ 0 → (floor.new ≡ floor.old) × (area.new ≡ area.old) }
    ensures total { sum desk_sizes floor.new.desks ≡ sum desk_sizes floor.old.desks + result.new_sources }
    ensures shape { IsTrue (is_ok (handed_in floor.old area.old)) → IsTrue (in_shape floor.new area.new) }
{
    if let Err(refusal) = ready(floor, area, sequence) {
        return Ran::refused(refusal);
    }
    carry_out(
        floor,
        area,
        sequence,
        most.min(sequence.len() / Record::LENGTH),
    )
}

/// The part of a sequence that begins with the record after so many: the caller's own bytes.
pub fn rest(sequence: &[u8], count: usize) -> &[u8]
    ensures { result.now ≡ rest_of sequence.now count }
{
    if count > sequence.len() / Record::LENGTH {
        return &sequence[sequence.len()..];
    }
    &sequence[16 * count..]
}

/// The first record of a whole sequence.
fn first_record(area: &[u64], sequence: &[u8]) -> Result<Record, Refusal>
    ensures is { result ≡ first_of_whole area.now sequence.now }
    ensures some { IsTrue (is_ok result) → 16 ≤ length sequence.now }
{
    if area.len() != Settings::MOST_NOTES {
        return Err(Refusal::AreaLength);
    }
    if sequence.is_empty() || sequence.len() % Record::LENGTH != 0 {
        return Err(Refusal::Length);
    }
    Record::read(&sequence[..Record::LENGTH])
}

/// Opens a floor by the first record of a whole sequence, in the place that is lent. Where it does not open, the floor of zeros is left.
pub fn open_first(floor: &mut Floor, area: &mut [u64], sequence: &[u8]) -> Result<(), Refusal>
    ensures answer { result ≡ opened (whole_opening area.old sequence.now) }
    ensures floor { floor.new ≡ floor_opened (whole_opening area.old sequence.now) }
    ensures area { area.new ≡ area_opened area.old (whole_opening area.old sequence.now) }
    ensures kept { OnErr result ((floor.new ≡ no_floor) × (area.new ≡ area.old)) }
    ensures shape { IsTrue (is_ok result) → IsTrue (in_shape floor.new area.new) }
    ensures some { IsTrue (is_ok result) → 16 ≤ length sequence.now }
{
    match first_record(area, sequence) {
        Ok(record) => floor.open(area, record),
        Err(refusal) => {
            *floor = Floor::none();
            Err(refusal)
        }
    }
}

/// Opens a floor by the first record of a whole sequence, and carries out all the others, up to the first that is refused.
pub fn whole(floor: &mut Floor, area: &mut [u64], sequence: &[u8]) -> Ran
    ensures ran { result ≡ (whole_of area.old sequence.now).ran }
    ensures floor { floor.new ≡ (whole_of area.old sequence.now).floor }
    ensures area { area.new ≡ (whole_of area.old sequence.now).area }
    ensures kept { OnErr (whole_opening area.old sequence.now) ((floor.new ≡ no_floor) × (area.new ≡ area.old)) }
    ensures total { sum desk_sizes floor.new.desks ≡ result.new_sources }
    ensures shape { IsTrue (is_ok (whole_opening area.old sequence.now)) → IsTrue (in_shape floor.new area.new) }
{
    match open_first(floor, area, sequence) {
        Ok(()) => {
            let records = &sequence[Record::LENGTH..];
            carry_out(floor, area, records, records.len() / Record::LENGTH)
        }
        Err(refusal) => Ran::refused(refusal),
    }
}
