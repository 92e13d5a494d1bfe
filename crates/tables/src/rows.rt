//! A row of a table read as a record, and the reader that goes from row to row.

ghost use Rattle.std.specs.Prelude.{◌≡◌, ◌^◌, ◌≤◌, Result, Ok, Err, if◌then◌else◌, ⊤, Option, Some, None, length, slice_set, nat_le, unwrap_or};
ghost use Rattle.std.specs.Iterator.{YieldsFirst, item_count, MakesProgress};
ghost use Rattle.rules.specs.declared.Refusal.TheVariants.{NotANumber};
ghost use Rattle.tables.specs.Rows.{below, kept_record, row_at};
ghost use Rattle.tables.specs.Reader.{rows_left};

use crate::fields::{Ending, first_field};
use records::Record;
use rules::Refusal;
use sets::{DeskNo, EntryNo};

/// A row, and the place of the next one.
#[derive(Clone, Copy, Debug, PartialEq, Eq)]
pub struct Row {
    pub answer: Result<Record, Refusal>,
    pub next: usize,
}

/// A byte field takes 0 to 255.
fn byte(number: Option<u32>) -> Result<u8, Refusal>
    ensures { result ≡ (if below 256 number then Ok (unwrap_or number 0) else Err NotANumber) }
{
    match number {
        // The pattern says that nothing is cut off.
        Some(value @ 0..=255) => Ok(value as u8),
        _ => Err(Refusal::NotANumber),
    }
}

/// One of the last three takes any 32-bit number.
fn word(number: Option<u32>) -> Result<u32, Refusal>
    ensures { result ≡ (if below (2 ^ 32) number then Ok (unwrap_or number 0) else Err NotANumber) }
{
    number.ok_or(Refusal::NotANumber)
}

/// A field past the seventh is counted, and its number dropped.
fn keep(numbers: &mut [Option<u32>; 7], count: usize, number: Option<u32>)
    ensures { numbers.new ≡ slice_set numbers.old count number }
{
    if count < 7 {
        numbers[count] = number;
    }
}

/// The record of a row of so many fields, whose first seven held these numbers.
fn record_of(numbers: [Option<u32>; 7], count: usize) -> Result<Record, Refusal>
    ensures { result ≡ kept_record (record { numbers = numbers; count = count }) }
{
    if count != 8 {
        return Err(Refusal::NotEightFields);
    }
    let [kind, desk, other, entry, a, b, c] = numbers;
    Ok(Record {
        kind: byte(kind)?,
        desk: DeskNo(byte(desk)?),
        other: DeskNo(byte(other)?),
        entry: EntryNo(byte(entry)?),
        a: word(a)?,
        b: word(b)?,
        c: word(c)?,
    })
}

/// The row is read to its end before anything is said of it: what breaks the grammar goes before the number of fields, and that
/// before the numbers.
fn row_at(text: &[u8], place: usize) -> Row
    ensures { result ≡ row_at text.now place }
{
    let mut numbers = [None; 7];
    let mut count = 0;
    let mut at = place.min(text.len());
    // It ends in two ways. A row may have more fields than eight, and all are counted.
    loop {
        let field = first_field(&text[at..]);
        keep(&mut numbers, count, field.number);
        count += 1;
        at += field.length;
        match field.ending {
            Ending::Another => {}
            Ending::Last => {
                return Row {
                    answer: record_of(numbers, count),
                    next: at,
                };
            }
            Ending::Broken => {
                return Row {
                    answer: Err(Refusal::NotCsv),
                    next: text.len(),
                };
            }
        }
    }
}

/// A CSV text and the place of its next row. It gives what each row holds, and after a row that breaks the grammar there is none.
#[derive(Clone, Copy, Debug)]
pub struct Rows<'a> {
    pub text: &'a [u8],
    pub place: usize,
}

impl<'a> Rows<'a> {
    /// A reader that stands at a place of a text: 0 is its first row.
    pub fn at(text: &'a [u8], place: usize) -> Rows<'a>
        ensures text { result.text ≡ text.entry }
        ensures place { result.place ≡ place }
    {
        Rows { text, place }
    }

    /// Whether every row has been read.
    pub fn done(self) -> bool
        ensures { result ≡ nat_le (length self.entry.text.now) self.entry.place }
    {
        self.text.len() <= self.place
    }

    /// The row that it stands at; then it stands at the one after. Past the last it is that of an empty text, which has not eight fields.
    pub fn next_row(&mut self) -> Row
        ensures row { result ≡ row_at self.old.text.now self.old.place }
        ensures text { self.new.text ≡ self.old.text }
        ensures place { self.new.place ≡ result.next }
    {
        let row = row_at(self.text, self.place);
        self.place = row.next;
        row
    }
}

impl<'a> Iterator for Rows<'a> {
    type Item = Result<Record, Refusal>;

    ghost next_gives = { YieldsFirst rows_left };

    ghost remaining = { item_count rows_left };

    fn next(&mut self) -> Option<Result<Record, Refusal>>
        ensures steps { YieldsFirst rows_left self.old result self.new }
        ensures goes { MakesProgress (λ _. ⊤) (item_count rows_left) self.old result self.new }
        ensures row { result ≡ (if nat_le (length self.old.text.now) self.old.place then None else Some (row_at self.old.text.now self.old.place).answer) }
        ensures text { self.new.text ≡ self.old.text }
        ensures place { self.new.place ≡ (if nat_le (length self.old.text.now) self.old.place then self.old.place else (row_at self.old.text.now self.old.place).next) }
    {
        if self.done() {
            return None;
        }
        Some(self.next_row().answer)
    }
}

/// For callers with plain slices: the row at a place of a text.
pub fn read_row(text: &[u8], place: usize) -> Row
    ensures row { result ≡ row_at text.now place }
{
    row_at(text, place)
}
