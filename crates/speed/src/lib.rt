//! What the calls for a program in another language do, which speed_c exports: a whole sequence, with all that it tells and every part of
//! its floor in one struct that such a program can take; and a table, read and written. They are there to be timed.
#![tactic(auto)]

ghost use Rattle.std.specs.Prelude.{◌≡◌};
ghost use Rattle.runs.specs.Runs.{whole_of};
ghost use Rattle.tables.specs.Tables.{read_into, written_into};
ghost use Rattle.speed.specs.Reports.{reported, done, refused_in, outcome_read, outcome_written};

use floors::Floor;
use rules::{Refusal, last_number};
use runs::Ran;
use sets::DeskSet;
use tables::BadTable;

// The results keep the layout that such programs were built with, so a desk's parts stand in columns, and 0 is the number of no refusal.

/// What a whole sequence tells, and the floor that it leaves: n, f, u, m, p and a are the settings, and each column has a place a desk.
#[derive(Clone, Copy, Debug, PartialEq, Eq)]
#[repr(C)]
pub struct Report {
    pub count: usize,
    pub total: usize,
    pub answer: u8,
    pub n: u8,
    pub f: u8,
    pub u: u8,
    pub m: u32,
    pub p: u32,
    pub a: u32,
    pub clock: u32,
    pub waiting: usize,
    pub faulty: [bool; 16],
    pub pass: [u32; 16],
    pub accept: [u32; 16],
    pub listed: [u64; 16],
    pub sent: [u64; 16],
    pub received: [[u16; 64]; 16],
}

/// What a call for a table answers, the row where a refusal names one, and how many bytes it has written.
#[derive(Clone, Copy, Debug, PartialEq, Eq)]
#[repr(C)]
pub struct Outcome {
    pub answer: u8,
    pub row: usize,
    pub length: usize,
}

/// The sets of a desk, each put into its word of the row that is lent: a row handed back would be copied.
fn put_words(row: &mut [u16; 64], sets: &[DeskSet; 64])
    ensures { row.new ≡ sets.now }
{
    let sets = &sets[..];
    for (e, set) in sets.iter().enumerate() {
        row[e] = set.0;
    }
}

impl Outcome {
    fn done(length: usize) -> Outcome
        ensures { result ≡ done length }
    {
        Outcome {
            answer: 0,
            row: 0,
            length,
        }
    }

    fn refused_in(row: usize, refusal: Refusal) -> Outcome
        ensures { result ≡ refused_in row refusal }
    {
        Outcome {
            answer: refusal.number(),
            row,
            length: 0,
        }
    }
}

pub fn umidezh_run_whole(area: &mut [u64], sequence: &[u8]) -> Report
    ensures report { result ≡ reported (whole_of area.old sequence.now).ran (whole_of area.old sequence.now).floor }
    ensures area { area.new ≡ (whole_of area.old sequence.now).area }
{
    let mut floor = Floor::none();
    let ran = runs::whole(&mut floor, area, sequence);
    let settings = floor.settings;
    // It is put together here, as one that another function hands back is copied, which takes 2,496 bytes of stack more.
    let mut report = Report {
        count: ran.count,
        total: ran.new_sources,
        answer: last_number(ran.refusal),
        n: settings.desks,
        f: settings.faults,
        u: settings.entries,
        m: settings.message,
        p: settings.pass_on,
        a: settings.accept,
        clock: floor.clock,
        waiting: floor.waiting,
        faulty: [false; 16],
        pass: [0; 16],
        accept: [0; 16],
        listed: [0; 16],
        sent: [0; 16],
        received: [[0; 64]; 16],
    };
    let desks = &floor.desks[..];
    for (i, desk) in desks.iter().enumerate() {
        report.faulty[i] = desk.faulty;
        report.pass[i] = desk.pass_on;
        report.accept[i] = desk.accept;
        report.listed[i] = desk.listed.number();
        report.sent[i] = desk.sent.number();
        put_words(&mut report.received[i], &desk.received);
    }
    report
}

/// What a call that reads a table tells: a refusal of the whole table names row 0.
impl From<Result<usize, BadTable>> for Outcome {
    ghost from_gives = { λ read outcome. outcome ≡ outcome_read read };

    fn from(read: Result<usize, BadTable>) -> Outcome {
        match read {
            Ok(length) => Outcome::done(length),
            Err(BadTable::BadRow { row, refusal }) => Outcome::refused_in(row, refusal),
            Err(BadTable::NoRoom) => Outcome::refused_in(0, Refusal::PlaceTooShort),
        }
    }
}

impl From<Result<usize, Refusal>> for Outcome {
    ghost from_gives = { λ written outcome. outcome ≡ outcome_written written };

    fn from(written: Result<usize, Refusal>) -> Outcome {
        match written {
            Ok(written) => Outcome::done(written),
            Err(refusal) => Outcome::refused_in(0, refusal),
        }
    }
}

pub fn umidezh_read_table(text: &[u8], place: &mut [u8]) -> Outcome
    ensures outcome { result ≡ outcome_read (read_into text.now place.old).answer }
    ensures place { place.new ≡ (read_into text.now place.old).place }
{
    Outcome::from(tables::read(text, place))
}

pub fn umidezh_write_table(sequence: &[u8], place: &mut [u8]) -> Outcome
    ensures outcome { result ≡ outcome_written (written_into sequence.now place.old).answer }
    ensures place { place.new ≡ (written_into sequence.now place.old).place }
{
    Outcome::from(tables::write(sequence, place))
}
