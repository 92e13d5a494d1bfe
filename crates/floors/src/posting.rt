//! The moves that post notes: whether there is room is settled before anything is changed.
ghost use Rattle.std.specs.Prelude.{◌≡◌, ◌+◌, ◌<◌, ◌≤◌, OnErr, length};
ghost use Rattle.sets.specs.Sets.{insert_all};
ghost use Rattle.rules.specs.declared.TheConstants.Settings.{MOST_NOTES};
ghost use Rattle.rules.specs.declared.Action.TheVariants.{Announce, PassOn, FalseNote};
ghost use Rattle.rules.specs.Rules.{answer, next, due};
ghost use Rattle.notes.specs.Area.{laid};
ghost use Rattle.floors.specs.Floors.{IsReady, state_of, floor_of, desk_of};

use crate::Floor;
use notes::posting::{self, Sender};
use rules::Refusal;
use sets::{DeskNo, EntryNo, EntrySet};

impl Floor {
    /// What the notes of a broadcast by this desk have in common.
    fn sender(&self, desk: DeskNo) -> Sender
        requires { IsReady self.now }
        ensures { result ≡ record { source = desk; desks = self.now.settings.desks; time_out = self.now.clock + self.now.settings.message } }
    {
        Sender {
            source: desk,
            desks: self.settings.desks,
            time_out: self.clock + self.settings.message,
        }
    }

    /// Announce: if the sent mark is clear, broadcasts and sets it.
    #[tactic(auto, using(sets::proofs::MemberLaws::insert_below_low))]
    pub fn announce(
        &mut self,
        area: &mut [u64],
        desk: DeskNo,
        entry: EntryNo,
    ) -> Result<(), Refusal>
        requires ready { IsReady self.old }
        requires waiting { self.old.waiting ≤ MOST_NOTES }
        requires room { length area.old ≡ MOST_NOTES }
        ensures answer { result ≡ answer (state_of self.old area.old) (Announce desk entry) }
        ensures floor { self.new ≡ floor_of (next (state_of self.old area.old) (Announce desk entry)) }
        ensures area { area.new ≡ laid self.old.waiting area.old (next (state_of self.old area.old) (Announce desk entry)).notes }
        ensures kept { OnErr result ((self.new ≡ self.old) × (area.new ≡ area.old)) }
    {
        if desk.0 >= self.settings.desks {
            return Err(Refusal::NoDesk);
        }
        if entry.0 >= self.settings.entries {
            return Err(Refusal::NoEntry);
        }
        let i = desk.0 as usize;
        let sent = self.desks[i].sent;
        if sent.has(entry) {
            return Ok(());
        }
        self.waiting = self.sender(desk).post_broadcast(area, self.waiting, entry)?;
        self.desks[i].sent = sent.with(entry);
        Ok(())
    }

    /// The entries that a desk is to pass on.
    fn due(&self, desk: DeskNo) -> EntrySet
        requires ready { IsReady self.now }
        requires desk { desk < self.now.settings.desks }
        ensures { result ≡ insert_all (due self.now.settings (desk_of self.now desk)) 0 self.now.settings.entries }
    {
        self.desks[desk.0 as usize].due(self.settings)
    }

    /// Pass on: broadcasts every entry that is due, in rising order, and sets its sent mark; the pass-on timer goes back to 0.
    pub fn pass_on(&mut self, area: &mut [u64], desk: DeskNo) -> Result<(), Refusal>
        requires ready { IsReady self.old }
        requires waiting { self.old.waiting ≤ MOST_NOTES }
        requires room { length area.old ≡ MOST_NOTES }
        ensures answer { result ≡ answer (state_of self.old area.old) (PassOn desk) }
        ensures floor { self.new ≡ floor_of (next (state_of self.old area.old) (PassOn desk)) }
        ensures area { area.new ≡ laid self.old.waiting area.old (next (state_of self.old area.old) (PassOn desk)).notes }
        ensures kept { OnErr result ((self.new ≡ self.old) × (area.new ≡ area.old)) }
    {
        if desk.0 >= self.settings.desks {
            return Err(Refusal::NoDesk);
        }
        let due = self.due(desk);
        let entries = self.settings.entries;
        self.waiting = self
            .sender(desk)
            .post_broadcasts(area, self.waiting, due, entries)?;
        self.desks[desk.0 as usize].pass_on(due);
        Ok(())
    }

    /// Misbehave: posts one note with the desk's own number as source.
    // Six parameters: they are what the action names, and no other function takes the same.
    pub fn false_note(
        &mut self,
        area: &mut [u64],
        desk: DeskNo,
        destination: DeskNo,
        entry: EntryNo,
        time_out: u32,
    ) -> Result<(), Refusal>
        requires ready { IsReady self.old }
        requires waiting { self.old.waiting ≤ MOST_NOTES }
        requires room { length area.old ≡ MOST_NOTES }
        ensures answer { result ≡ answer (state_of self.old area.old) (FalseNote desk destination entry time_out) }
        ensures floor { self.new ≡ floor_of (next (state_of self.old area.old) (FalseNote desk destination entry time_out)) }
        ensures area { area.new ≡ laid self.old.waiting area.old (next (state_of self.old area.old) (FalseNote desk destination entry time_out)).notes }
        ensures kept { OnErr result ((self.new ≡ self.old) × (area.new ≡ area.old)) }
    {
        if desk.0 >= self.settings.desks || destination.0 >= self.settings.desks {
            return Err(Refusal::NoDesk);
        }
        if entry.0 >= self.settings.entries {
            return Err(Refusal::NoEntry);
        }
        if !self.desks[desk.0 as usize].faulty {
            return Err(Refusal::NotFaulty);
        }
        if time_out < self.clock || time_out > self.clock + self.settings.message {
            return Err(Refusal::FalseTimeOut);
        }
        let note = notes::note_of(time_out, desk, destination, entry);
        self.waiting = posting::post_one(area, self.waiting, note)?;
        Ok(())
    }
}
