//! Makes every public call on the sequence that it reads, and prints the number that each comes back with. tests/stack reads from this
//! program's code how much stack the calls take.
#![tactic(auto)]

use floors::Floor;
use holds::Hold;
use inputs::read_input;
use records::Record;
use rules::{Refusal, Settings, last_number};
use std::fmt::Display;
use std::io;
use std::io::Write;

fn line<W: Write, N: Display + Drop>(to: &mut W, name: &str, number: N) -> io::Result<()> {
    writeln!(to, "{name}: {number}")
}

fn answer<W: Write, T: Drop>(to: &mut W, name: &str, answer: Result<T, Refusal>) -> io::Result<()> {
    line(to, name, last_number(answer.err()))
}

/// Gives the record back: what was written reads back.
fn record_calls<W: Write>(to: &mut W, bytes: &[u8]) -> io::Result<Record> {
    let reading = Record::read(bytes);
    let number = match &reading {
        Ok(_) => 0,
        Err(refusal) => refusal.number(),
    };
    let record = Record::given(reading);
    line(to, "read", number)?;
    line(to, "well formed", u8::from(record.well_formed()))?;
    let mut place = [0; 16];
    answer(to, "write", record.write(&mut place))?;
    line(to, "check", records::umidezh_check_record(&place))?;
    Ok(Record::from_bytes(&place))
}

fn floor_calls<W: Write>(
    to: &mut W,
    area: &mut [u64],
    opening: &Record,
    action: &Record,
    sequence: &[u8],
) -> io::Result<()> {
    let mut floor = Floor::none();
    answer(to, "open", floor.open(area, *opening))?;
    answer(to, "act", floor.act(area, *action))?;
    let ran = runs::run(&mut floor, area, sequence, 4);
    line(to, "run", ran.count)?;
    line(to, "rest", runs::rest(sequence, ran.count).len())
}

fn hold_calls<W: Write>(
    to: &mut W,
    area: &mut [u64],
    opening: &Record,
    action: &Record,
) -> io::Result<()> {
    let entry = action.entry;
    let mut hold = Hold::none();
    answer(to, "open a hold", hold.open(area, *opening))?;
    answer(to, "take", hold.take(area, *action))?;
    line(to, "noted in shape", u8::from(hold.noted_in_shape()))?;
    answer(to, "may print", hold.may_print(area, entry))?;
    answer(to, "print", hold.print(area, entry))?;
    answer(
        to,
        "may print with no hold",
        Hold::none().may_print(area, entry),
    )
}

fn whole_calls<W: Write>(to: &mut W, area: &mut [u64], sequence: &[u8]) -> io::Result<()> {
    let ran = runs::whole(&mut Floor::none(), area, sequence);
    let taken = Hold::none().whole(area, sequence);
    line(to, "count", records::umidezh_count_records(sequence))?;
    line(to, "whole", ran.count)?;
    line(to, "whole with a hold", taken.count)
}

fn table_calls<W: Write>(to: &mut W, sequence: &[u8]) -> io::Result<()> {
    let mut text = [0; 4096];
    let length = tables::write(sequence, &mut text).unwrap_or(0);
    let rows = &text[..length.min(text.len())];
    let read = tables::read(rows, &mut [0; 4096]);
    line(to, "write a table", length)?;
    line(to, "read a table", read.unwrap_or(0))?;
    line(to, "read row", tables::rows::read_row(rows, 0).next)
}

fn main(rt: HostRuntime) -> io::Result<()> {
    let input = read_input(rt.alloc(), rt.stdin(), 4096)?;
    let mut area = [0; Settings::MOST_NOTES];
    let to = &mut rt.stdout();
    // Two records, of zeros where the input has none.
    let mut head = [0; 2 * Record::LENGTH];
    let given = input.len().min(head.len());
    head[..given].copy_from_slice(&input[..given]);
    let (first, second) = head.split_at(Record::LENGTH);
    let opening = record_calls(to, first)?;
    let action = record_calls(to, second)?;
    floor_calls(to, &mut area, &opening, &action, runs::rest(&input, 2))?;
    hold_calls(to, &mut area, &opening, &action)?;
    whole_calls(to, &mut area, &input)?;
    table_calls(to, &input)
}
