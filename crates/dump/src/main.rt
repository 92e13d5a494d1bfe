//! For tests of what the program `floor` keeps to itself: prints what `floor` prints, then how many sources were new, the waiting notes
//! in the order of the area, and the sets of sources and of sent entries that are not empty, as numbers; and then what the call for one
//! action gives for each record.
#![tactic(auto)]

pub mod acting;

use crate::acting::acts;
use floors::Floor;
use inputs::blocks::BlockWriter;
use inputs::read_input;
use reports::floor_lines::FloorLines;
use reports::input::{MOST_BYTES, run_input};
use rules::Settings;
use std::io;
use std::io::Write;

fn notes<W: Write>(to: &mut W, waiting: &[u64]) -> io::Result<()> {
    for &note in waiting {
        let time_out = notes::time_out_of(note);
        let source = notes::source_of(note).0;
        let destination = notes::destination_of(note).0;
        let entry = notes::entry_of(note).0;
        writeln!(to, "note {time_out} {source} {destination} {entry}")?;
    }
    Ok(())
}

fn sources<W: Write>(to: &mut W, floor: &Floor) -> io::Result<()> {
    for (number, desk) in floor.desks.iter().enumerate() {
        for (entry, sources) in desk.received.iter().enumerate() {
            if !sources.is_empty() {
                let set = sources.number();
                writeln!(to, "received {number} {entry} {set}")?;
            }
        }
    }
    Ok(())
}

fn sent<W: Write>(to: &mut W, floor: &Floor) -> io::Result<()> {
    for (number, desk) in floor.desks.iter().enumerate() {
        if !desk.sent.is_empty() {
            let set = desk.sent.number();
            writeln!(to, "sent {number} {set}")?;
        }
    }
    Ok(())
}

fn main(rt: HostRuntime) -> io::Result<()> {
    // One byte more than an input may have, so that a longer one is seen.
    let input = read_input(rt.alloc(), rt.stdin(), MOST_BYTES + 1)?;
    let mut area = [0; Settings::MOST_NOTES];
    let mut floor = Floor::none();
    let ran = run_input(&mut floor, &mut area, &input);
    let mut to = BlockWriter::new(rt.stdout());
    let lines = FloorLines {
        count: ran.count,
        refusal: ran.refusal,
        floor: &floor,
    };
    write!(to, "{lines}")?;
    writeln!(to, "new {}", ran.new_sources)?;
    notes(&mut to, &area[..floor.waiting.min(area.len())])?;
    sources(&mut to, &floor)?;
    sent(&mut to, &floor)?;
    // What is cut short or too long could still be opened here.
    if floor.settings.desks != 0 {
        acts(&mut to, &mut floor, &mut area, &input)?;
    }
    to.flush()
}
