//! Records: the sixteen bytes in which a floor is opened and an action is asked for, read, written, checked and counted. Only their
//! form is looked at here: what an action does to a floor is not, and desks and entries from 0 to 255 are read as they stand.
#![tactic(auto)]

ghost use Rattle.std.specs.Prelude.{◌≡◌, ℕ, ◌+◌, ◌*◌, ◌<◌, ◌≤◌, true, length, if◌then◌else◌, is_ok, Ok, Err, IfOk};
ghost use Rattle.rules.specs.declared.Refusal.TheVariants.{Form};
ghost use Rattle.records.specs.Records.{
  number_at,
  fields_of,
  bytes_of,
  well_formed,
  action_of,
  opening_of,
  record_of,
  opening_record,
  read_of,
  check_of,
  record_given,
  zeros,
  put_answer,
  written,
  IsWrittenAs,
  record_at,
  leading,
};

use rules::{Action, Refusal, Settings};
use sets::{DeskNo, EntryNo};

/// A record's fields, whatever they hold.
#[derive(Clone, Copy, Debug, PartialEq, Eq)]
pub struct Record {
    pub kind: u8,
    pub desk: DeskNo,
    pub other: DeskNo,
    pub entry: EntryNo,
    pub a: u32,
    pub b: u32,
    pub c: u32,
}

// Numbers and no enum: a record holds any kind, so that writing an unknown one can be refused with 3.
/// The kinds of record.
mod kind {
    pub const DELAY: u8 = 0;

    pub const ANNOUNCE: u8 = 1;

    pub const PASS_ON: u8 = 2;

    pub const ACCEPT: u8 = 3;

    pub const RECEIVE: u8 = 4;

    pub const CRASH: u8 = 5;

    pub const RESET_TIMERS: u8 = 6;

    pub const FALSE_NOTE: u8 = 7;

    pub const OPENING: u8 = 8;
}

/// The little-endian number in the four bytes from `at` on.
fn number_at(bytes: &[u8], at: usize) -> u32
    requires { at + 4 ≤ length bytes.now }
    ensures { result ≡ number_at bytes.now at }
{
    u32::from_le_bytes([bytes[at], bytes[at + 1], bytes[at + 2], bytes[at + 3]])
}

impl Record {
    pub const LENGTH: usize = 16;

    pub const ZEROS: Record = Record {
        kind: 0,
        desk: DeskNo(0),
        other: DeskNo(0),
        entry: EntryNo(0),
        a: 0,
        b: 0,
        c: 0,
    };

    /// The fields in sixteen bytes.
    #[tactic(auto, unfolding(crate::specs::Records::fields_of))]
    pub fn from_bytes(bytes: &[u8]) -> Record
        requires { length bytes.now ≡ 16 }
        ensures is { result ≡ fields_of bytes.now }
        ensures again { bytes_of result ≡ bytes.now }
    {
        Record {
            kind: bytes[0],
            desk: DeskNo(bytes[1]),
            other: DeskNo(bytes[2]),
            entry: EntryNo(bytes[3]),
            a: number_at(bytes, 4),
            b: number_at(bytes, 8),
            c: number_at(bytes, 12),
        }
    }

    #[tactic(auto, unfolding(crate::specs::Records::bytes_of, crate::specs::Records::fields_of))]
    pub fn to_bytes(&self) -> [u8; 16]
        ensures is { result ≡ bytes_of self.now }
        ensures read_back { fields_of result ≡ self.now }
    {
        let Record {
            kind,
            desk,
            other,
            entry,
            a,
            b,
            c,
        } = *self;
        let [a0, a1, a2, a3] = a.to_le_bytes();
        let [b0, b1, b2, b3] = b.to_le_bytes();
        let [c0, c1, c2, c3] = c.to_le_bytes();
        [
            kind, desk.0, other.0, entry.0, a0, a1, a2, a3, b0, b1, b2, b3, c0, c1, c2, c3,
        ]
    }

    /// Whether the kind is known, and each field that it does not use is 0.
    #[tactic(auto, unfolding(crate::specs::Records::well_formed))]
    pub fn well_formed(&self) -> bool
        ensures { result ≡ well_formed self.now }
    {
        let Record {
            desk,
            other,
            entry,
            a,
            b,
            c,
            ..
        } = *self;
        let no_numbers = a == 0 && b == 0 && c == 0;
        let desk_alone = other.0 == 0 && entry.0 == 0 && no_numbers;
        match self.kind {
            kind::DELAY => desk.0 == 0 && other.0 == 0 && entry.0 == 0 && b == 0 && c == 0,
            kind::ANNOUNCE => other.0 == 0 && no_numbers,
            kind::PASS_ON | kind::ACCEPT | kind::CRASH | kind::RESET_TIMERS => desk_alone,
            kind::RECEIVE => no_numbers,
            kind::FALSE_NOTE => b == 0 && c == 0,
            kind::OPENING => true,
            _ => false,
        }
    }

    /// The action that the fields ask for: 3 for an opening, which asks for none, and for fields that are not well formed.
    #[tactic(auto, unfolding(crate::specs::Records::well_formed, crate::specs::Records::action_of))]
    pub fn action(&self) -> Result<Action, Refusal>
        ensures is { result ≡ action_of self.now }
        ensures only { IfOk result (λ action. record_of action ≡ self.now) }
    {
        let Record {
            desk,
            other,
            entry,
            a,
            ..
        } = *self;
        match self.kind {
            _ if !self.well_formed() => Err(Refusal::Form),
            kind::DELAY => Ok(Action::Delay { ticks: a }),
            kind::ANNOUNCE => Ok(Action::Announce { desk, entry }),
            kind::PASS_ON => Ok(Action::PassOn { desk }),
            kind::ACCEPT => Ok(Action::Accept { desk }),
            kind::RECEIVE => Ok(Action::Receive {
                desk,
                source: other,
                entry,
            }),
            kind::CRASH => Ok(Action::Crash { desk }),
            kind::RESET_TIMERS => Ok(Action::ResetTimers { desk }),
            kind::FALSE_NOTE => Ok(Action::FalseNote {
                desk,
                destination: other,
                entry,
                time_out: a,
            }),
            _ => Err(Refusal::Form),
        }
    }

    /// The settings that the fields open a floor with: 3 for any other kind.
    #[tactic(auto, unfolding(crate::specs::Records::opening_of))]
    pub fn opening(&self) -> Result<Settings, Refusal>
        ensures is { result ≡ opening_of self.now }
        ensures only { IfOk result (λ settings. opening_record settings ≡ self.now) }
    {
        match self.kind {
            kind::OPENING => Ok(Settings {
                desks: self.desk.0,
                faults: self.other.0,
                entries: self.entry.0,
                message: self.a,
                pass_on: self.b,
                accept: self.c,
            }),
            _ => Err(Refusal::Form),
        }
    }

    /// The record, if it is sixteen bytes (16) and well formed (3).
    #[tactic(auto, unfolding(crate::specs::Records::read_of))]
    pub fn read(bytes: &[u8]) -> Result<Record, Refusal>
        ensures is { result ≡ read_of bytes.now }
        ensures given { record_given result ≡ (if is_ok (read_of bytes.now) then fields_of bytes.now else zeros) }
        ensures formed { IfOk result (λ r. well_formed r ≡ true) }
        ensures written_again { IfOk result (λ r. IsWrittenAs r bytes.now) }
    {
        if bytes.len() != Record::LENGTH {
            return Err(Refusal::Length);
        }
        let record = Record::from_bytes(bytes);
        if record.well_formed() {
            Ok(record)
        } else {
            Err(Refusal::Form)
        }
    }

    /// The record that a reading gives: the record of zeros where the reading was refused.
    pub fn given(reading: Result<Record, Refusal>) -> Record
        ensures { result ≡ record_given reading }
    {
        reading.unwrap_or(Record::ZEROS)
    }

    /// Writes the record into a place of sixteen bytes (16), if it is well formed (3).
    #[tactic(auto, unfolding(crate::specs::Records::read_of))]
    pub fn write(&self, place: &mut [u8]) -> Result<(), Refusal>
        ensures answer { result ≡ put_answer self.now place.old }
        ensures place { place.new ≡ written self.now place.old }
        ensures read_back { IfOk result (λ _. read_of place.new ≡ Ok self.now) }
    {
        if place.len() != Record::LENGTH {
            return Err(Refusal::Length);
        }
        if !self.well_formed() {
            return Err(Refusal::Form);
        }
        place.copy_from_slice(&self.to_bytes());
        Ok(())
    }
}

impl From<Action> for Record {
    #[tactic(auto, unfolding(crate::specs::Records::well_formed, crate::specs::Records::action_of))]
    fn from(action: Action) -> Record
        ensures is { result ≡ record_of action }
        ensures formed { well_formed result ≡ true }
        ensures back { action_of result ≡ Ok action }
    {
        let none = Record::ZEROS;
        match action {
            Action::Delay { ticks } => Record {
                kind: kind::DELAY,
                a: ticks,
                ..none
            },
            Action::Announce { desk, entry } => Record {
                kind: kind::ANNOUNCE,
                desk,
                entry,
                ..none
            },
            Action::PassOn { desk } => Record {
                kind: kind::PASS_ON,
                desk,
                ..none
            },
            Action::Accept { desk } => Record {
                kind: kind::ACCEPT,
                desk,
                ..none
            },
            Action::Receive {
                desk,
                source,
                entry,
            } => Record {
                kind: kind::RECEIVE,
                desk,
                other: source,
                entry,
                ..none
            },
            Action::Crash { desk } => Record {
                kind: kind::CRASH,
                desk,
                ..none
            },
            Action::ResetTimers { desk } => Record {
                kind: kind::RESET_TIMERS,
                desk,
                ..none
            },
            Action::FalseNote {
                desk,
                destination,
                entry,
                time_out,
            } => Record {
                kind: kind::FALSE_NOTE,
                desk,
                other: destination,
                entry,
                a: time_out,
                ..none
            },
        }
    }
}

impl From<Settings> for Record {
    #[tactic(auto, unfolding(crate::specs::Records::well_formed, crate::specs::Records::opening_of))]
    fn from(settings: Settings) -> Record
        ensures is { result ≡ opening_record settings }
        ensures formed { well_formed result ≡ true }
        ensures back { opening_of result ≡ Ok settings }
    {
        Record {
            kind: kind::OPENING,
            desk: DeskNo(settings.desks),
            other: DeskNo(settings.faults),
            entry: EntryNo(settings.entries),
            a: settings.message,
            b: settings.pass_on,
            c: settings.accept,
        }
    }
}

/// The form of one record: 0, 3 or 16.
// A number: a program in C is given it as it is.
pub fn umidezh_check_record(bytes: &[u8]) -> u8
    ensures { result ≡ check_of bytes.now }
{
    match Record::read(bytes) {
        Ok(_) => 0,
        Err(refusal) => refusal.number(),
    }
}

/// How many records are well formed before the first that is not.
pub fn umidezh_count_records(sequence: &[u8]) -> usize
    ensures is { result ≡ leading sequence.now }
    ensures within { 16 * result ≤ length sequence.now }
    ensures counted { (k : ℕ) → k < result → is_ok (read_of (record_at sequence.now k)) ≡ true }
    ensures next { 16 * result + 16 ≤ length sequence.now → read_of (record_at sequence.now result) ≡ Err Form }
{
    sequence
        .chunks_exact(Record::LENGTH)
        .take_while(|bytes| Record::read(bytes).is_ok())
        .count()
}
