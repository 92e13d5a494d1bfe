//! A whole sequence on a hold.
ghost use Rattle.std.specs.Prelude.{◌≡◌, ◌/◌, length, OnErr};
ghost use Rattle.floors.specs.Floors.{no_floor};
ghost use Rattle.runs.specs.Runs.{asked_from, whole_opening};
ghost use Rattle.holds.specs.Holds.{new_hold};
ghost use Rattle.holds.specs.Sequences.{begun, went_on, whole_of};

use crate::Hold;
use records::Record;
use rules::Refusal;
use runs::open_first;

/// What a whole sequence tells: how many records after the opening were carried out, and the refusal that ended it.
#[derive(Clone, Copy, Debug, PartialEq, Eq)]
pub struct Taken {
    pub count: usize,
    pub refusal: Option<Refusal>,
}

impl Hold {
    /// Takes every record of a sequence, up to the first that is refused.
    fn take_all(&mut self, area: &mut [u64], sequence: &[u8]) -> Taken
        ensures { record { taken = result; left = record { hold = self.new; area = area.new } } ≡ went_on (begun (record { hold = self.old; area = area.old })) (asked_from sequence.now 0 (length sequence.now / 16)) }
    {
        let whole = sequence.len() / Record::LENGTH;
        // A rule of the project: a run lends a part from 16 × k.
        for k in 0..whole {
            let fields = Record::from_bytes(&sequence[16 * k..16 * k + 16]);
            if let Err(refusal) = self.take(area, fields) {
                return Taken {
                    count: k,
                    refusal: Some(refusal),
                };
            }
        }
        Taken {
            count: whole,
            refusal: None,
        }
    }

    /// Opens the floor by the first record of a whole sequence, with nothing noted, and takes all the others, up to the first that is
    /// refused.
    pub fn whole(&mut self, area: &mut [u64], sequence: &[u8]) -> Taken
        ensures taken { result ≡ (whole_of area.old sequence.now).taken }
        ensures hold { self.new ≡ (whole_of area.old sequence.now).left.hold }
        ensures area { area.new ≡ (whole_of area.old sequence.now).left.area }
        ensures kept { OnErr (whole_opening area.old sequence.now) ((self.new ≡ new_hold no_floor) × (area.new ≡ area.old)) }
    {
        self.forget();
        match open_first(&mut self.floor, area, sequence) {
            Ok(()) => self.take_all(area, &sequence[Record::LENGTH..]),
            Err(refusal) => Taken {
                count: 0,
                refusal: Some(refusal),
            },
        }
    }
}
