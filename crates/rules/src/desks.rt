//! What each move does to one desk, and whether a desk is in shape.
ghost use Rattle.std.specs.List.{list_all};
ghost use Rattle.std.specs.Prelude.{◌≡◌, not, ◌&&◌, ◌+◌, ◌≤◌, ◌<◌, ◌^◌, nat_le, length};
ghost use Rattle.std.specs.Int.Bits.{bit_or};
ghost use Rattle.sets.specs.Sets.{member, insert_all, all_below};
ghost use Rattle.rules.specs.Rules.{sources, due, timed, with_sent, later, hearing, desk_in_shape, zero_desk};

use crate::{Desk, Settings};
use sets::{DeskNo, DeskSet, EntryNo, EntrySet};

/// Limits that allow nothing.
const NOTHING: Settings = Settings {
    desks: 0,
    faults: 0,
    entries: 0,
    message: 0,
    pass_on: 0,
    accept: 0,
};

/// Whether the sets have no desk from n on. They are put together and looked at once, at the end: so the compiler takes several at a time,
/// where a look at each stops at the first that fails.
#[tactic(auto, using(crate::proofs::DeskShapes::put_together))]
fn all_below(sets: &[DeskSet], n: u8) -> bool
    ensures { result ≡ list_all (all_below n) sets.now }
{
    let mut members = DeskSet::empty();
    for set in sets {
        members = members.union(*set);
    }
    members.below(n)
}

impl Desk {
    /// The entries that it is to pass on: received from more desks than may be faulty, and not sent yet.
    #[tactic(auto, using(sets::proofs::InsertAllLaws::put_in))]
    pub fn due(&self, settings: Settings) -> EntrySet
        requires { settings.entries ≤ 64 }
        ensures { result ≡ insert_all (due settings self.now) 0 settings.entries }
    {
        let mut due = EntrySet::empty();
        // By the entry's number, as in `accepted`.
        for e in 0..settings.entries {
            let entry = EntryNo(e);
            if self.received[e as usize].size() > settings.faults && !self.sent.has(entry) {
                due = due.with(entry);
            }
        }
        due
    }

    /// Pass on, where these are the entries that are due.
    pub fn pass_on(&mut self, due: EntrySet)
        ensures { self.new ≡ timed 0 self.old.accept (with_sent (bit_or self.old.sent due) self.old) }
    {
        self.pass_on = 0;
        self.sent = self.sent.union(due);
    }

    /// Receive: the source is put into the entry's set. Tells whether it is new there.
    #[tactic(auto, using(sets::proofs::MemberLaws::insert_below_low))]
    pub fn hear(&mut self, source: DeskNo, entry: EntryNo) -> bool
        requires source { source < 16 }
        requires entry { entry < 64 }
        ensures new { result ≡ not (member (sources self.old entry) source) }
        ensures desk { self.new ≡ hearing entry source self.old }
        ensures sized { length self.old.received ≡ 64 }
    {
        let e = entry.0 as usize;
        let sources = self.received[e];
        self.received[e] = sources.with(source);
        !sources.has(source)
    }

    /// Whether both timers may go on by so many ticks.
    pub fn may_go_on(&self, settings: Settings, ticks: u32) -> bool
        ensures { result ≡ (nat_le (self.now.pass_on + ticks) settings.pass_on && nat_le (self.now.accept + ticks) settings.accept) }
    {
        let fits = |timer: u32, most: u32| u64::from(timer) + u64::from(ticks) <= u64::from(most);
        fits(self.pass_on, settings.pass_on) && fits(self.accept, settings.accept)
    }

    /// Both timers go on.
    pub fn go_on(&mut self, ticks: u32)
        requires pass_on { self.old.pass_on + ticks < 2 ^ 32 }
        requires accept { self.old.accept + ticks < 2 ^ 32 }
        ensures { self.new ≡ later ticks self.old }
    {
        self.pass_on += ticks;
        self.accept += ticks;
    }

    /// Whether it keeps the limits, as a desk in use.
    pub fn in_shape(&self, settings: Settings) -> bool
        requires { settings.entries ≤ 64 }
        ensures { result ≡ desk_in_shape settings self.now }
    {
        let (used, unused) = self.received.split_at(settings.entries as usize);
        self.pass_on <= settings.pass_on
            && self.accept <= settings.accept
            && self.listed.below(settings.entries)
            && self.sent.below(settings.entries)
            && all_below(used, settings.desks)
            && all_below(unused, 0)
    }

    /// Whether it is all zero, as a desk that is not in use.
    pub fn is_zero(&self) -> bool
        ensures { result ≡ zero_desk self.now }
    {
        !self.faulty && self.in_shape(NOTHING)
    }
}
