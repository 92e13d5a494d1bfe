//! The moves that post no note.
ghost use Rattle.std.specs.List.{list_all};
ghost use Rattle.std.specs.Prelude.{◌≡◌, ℕ, ◌≤◌, List, [], IsTrue, OnOk, OnErr, length, take};
ghost use Rattle.rules.specs.declared.Action.TheVariants.{Accept, Crash, Delay, Receive, ResetTimers};
ghost use Rattle.rules.specs.Rules.{answer, next, map_first, later, faults};
ghost use Rattle.rules.specs.declared.TheConstants.Settings.{MOST_NOTES};
ghost use Rattle.rules.specs.NewSources.{HasSet};
ghost use Rattle.notes.specs.Area.{laid};
ghost use Rattle.floors.specs.Floors.{IsReady, state_of, floor_of, step_answer, may_go_on};

use crate::{Floor, Told};
use rules::{Action, Desk, Refusal, Settings};
use sets::{DeskNo, EntryNo};

/// Whether both timers of every desk may go on by so many ticks.
fn all_may_go_on(desks: &[Desk], settings: Settings, ticks: u32) -> bool
    ensures { result ≡ list_all (may_go_on settings ticks) desks.now }
{
    desks.iter().all(|desk| desk.may_go_on(settings, ticks))
}

impl Floor {
    /// The desks that are in use.
    fn used(&self) -> &[Desk]
        requires { self.now.settings.desks ≤ 16 }
        ensures desks { result.now ≡ take self.now.settings.desks self.now.desks }
        ensures all { self.now.settings.desks ≤ length self.now.desks }
    {
        // `as usize` in this crate: an index or a bound from a number of eight bits, which `usize::from` says in more words.
        self.desks.split_at(self.settings.desks as usize).0
    }

    /// How many desks are faulty.
    pub(crate) fn faults(&self) -> usize
        requires { self.now.settings.desks ≤ 16 }
        ensures { (area : List ℕ) → result ≡ faults (state_of self.now area) }
    {
        self.used().iter().filter(|desk| desk.faulty).count()
    }

    /// Both timers of every desk go on.
    fn go_on(&mut self, ticks: u32)
        requires desks { self.old.settings.desks ≤ 16 }
        requires pass_on { self.old.settings.pass_on ≤ 65535 }
        requires accept { self.old.settings.accept ≤ 65535 }
        requires hold { IsTrue (list_all (may_go_on self.old.settings ticks) (take self.old.settings.desks self.old.desks)) }
        ensures { self.new ≡ record self.old { desks = map_first self.old.settings.desks (later ticks) self.old.desks } }
    {
        for desk in &mut self.desks[..self.settings.desks as usize] {
            desk.go_on(ticks);
        }
    }

    /// Delay: the clock and both timers of every desk go on.
    pub fn delay(&mut self, area: &[u64], ticks: u32) -> Result<(), Refusal>
        requires ready { IsReady self.old }
        requires waiting { self.old.waiting ≤ length area.now }
        ensures answer { result ≡ answer (state_of self.old area.now) (Delay ticks) }
        ensures floor { self.new ≡ floor_of (next (state_of self.old area.now) (Delay ticks)) }
        ensures kept { OnErr result (self.new ≡ self.old) }
    {
        if Settings::LAST_TICK - self.clock < ticks {
            return Err(Refusal::PastClock);
        }
        let clock = self.clock + ticks;
        if !notes::none_past(&area[..self.waiting], clock) {
            return Err(Refusal::PastTimeOut);
        }
        if !all_may_go_on(self.used(), self.settings, ticks) {
            return Err(Refusal::PastTimer);
        }
        self.clock = clock;
        self.go_on(ticks);
        Ok(())
    }

    /// Accept, by this desk.
    pub fn accept(&mut self, desk: DeskNo) -> Result<(), Refusal>
        requires desks { self.old.settings.desks ≤ 16 }
        requires faults { self.old.settings.faults ≤ self.old.settings.desks }
        requires entries { self.old.settings.entries ≤ 64 }
        ensures answer { result ≡ answer (state_of self.old []) (Accept desk) }
        ensures floor { (area : List ℕ) → self.old.waiting ≤ length area → self.new ≡ floor_of (next (state_of self.old area) (Accept desk)) }
        ensures kept { OnErr result (self.new ≡ self.old) }
    {
        if desk.0 >= self.settings.desks {
            return Err(Refusal::NoDesk);
        }
        let settings = self.settings;
        let before = &mut self.desks[desk.0 as usize];
        let after = before.accepted(settings, desk);
        // Only what accept changes is put back: the sets received alone are 128 bytes.
        before.listed = after.listed;
        before.accept = after.accept;
        Ok(())
    }

    /// Crash: the faulty mark, for ever.
    pub fn crash(&mut self, desk: DeskNo) -> Result<(), Refusal>
        requires { self.old.settings.desks ≤ 16 }
        ensures answer { result ≡ answer (state_of self.old []) (Crash desk) }
        ensures floor { (area : List ℕ) → self.old.waiting ≤ length area → self.new ≡ floor_of (next (state_of self.old area) (Crash desk)) }
        ensures kept { OnErr result (self.new ≡ self.old) }
    {
        if desk.0 >= self.settings.desks {
            return Err(Refusal::NoDesk);
        }
        let i = desk.0 as usize;
        if self.desks[i].faulty {
            return Err(Refusal::AlreadyFaulty);
        }
        if self.faults() >= self.settings.faults as usize {
            return Err(Refusal::TooManyFaulty);
        }
        self.desks[i].faulty = true;
        Ok(())
    }

    /// Misbehave: both timers go back to 0.
    pub fn reset_timers(&mut self, desk: DeskNo) -> Result<(), Refusal>
        requires { self.old.settings.desks ≤ 16 }
        ensures answer { result ≡ answer (state_of self.old []) (ResetTimers desk) }
        ensures floor { (area : List ℕ) → self.old.waiting ≤ length area → self.new ≡ floor_of (next (state_of self.old area) (ResetTimers desk)) }
        ensures kept { OnErr result (self.new ≡ self.old) }
    {
        if desk.0 >= self.settings.desks {
            return Err(Refusal::NoDesk);
        }
        let desk = &mut self.desks[desk.0 as usize];
        if !desk.faulty {
            return Err(Refusal::NotFaulty);
        }
        desk.pass_on = 0;
        desk.accept = 0;
        Ok(())
    }

    /// Receive: takes out the earliest note from the source with the entry, and adds the source to the entry's set.
    pub fn receive(
        &mut self,
        area: &mut [u64],
        desk: DeskNo,
        source: DeskNo,
        entry: EntryNo,
    ) -> Result<Told, Refusal>
        requires ready { IsReady self.old }
        requires waiting { self.old.waiting ≤ length area.old }
        ensures sized { OnOk result (HasSet (state_of self.old area.old) (Receive desk source entry)) }
        ensures answer { result ≡ step_answer (state_of self.old area.old) (Receive desk source entry) }
        ensures floor { self.new ≡ floor_of (next (state_of self.old area.old) (Receive desk source entry)) }
        ensures area { area.new ≡ laid self.old.waiting area.old (next (state_of self.old area.old) (Receive desk source entry)).notes }
        ensures kept { OnErr result ((self.new ≡ self.old) × (area.new ≡ area.old)) }
    {
        if desk.0 >= self.settings.desks || source.0 >= self.settings.desks {
            return Err(Refusal::NoDesk);
        }
        if entry.0 >= self.settings.entries {
            return Err(Refusal::NoEntry);
        }
        let Some(place) = notes::earliest(&area[..self.waiting], source, desk, entry) else {
            return Err(Refusal::NoSuchNote);
        };
        self.waiting = notes::take_out(area, self.waiting, place);
        let new = self.desks[desk.0 as usize].hear(source, entry);
        Ok(Told { new })
    }

    /// One action on a floor in shape.
    pub fn step(&mut self, area: &mut [u64], action: Action) -> Result<Told, Refusal>
        requires ready { IsReady self.old }
        requires waiting { self.old.waiting ≤ MOST_NOTES }
        requires room { length area.old ≡ MOST_NOTES }
        ensures ready { IsReady self.new }
        ensures waiting { self.new.waiting ≤ MOST_NOTES }
        ensures sized { OnOk result (HasSet (state_of self.old area.old) action) }
        ensures answer { result ≡ step_answer (state_of self.old area.old) action }
        ensures floor { self.new ≡ floor_of (next (state_of self.old area.old) action) }
        ensures area { area.new ≡ laid self.old.waiting area.old (next (state_of self.old area.old) action).notes }
        ensures kept { OnErr result ((self.new ≡ self.old) × (area.new ≡ area.old)) }
    {
        match action {
            Action::Delay { ticks } => self.delay(area, ticks)?,
            Action::Announce { desk, entry } => self.announce(area, desk, entry)?,
            Action::PassOn { desk } => self.pass_on(area, desk)?,
            Action::Accept { desk } => self.accept(desk)?,
            Action::Receive {
                desk,
                source,
                entry,
            } => return self.receive(area, desk, source, entry),
            Action::Crash { desk } => self.crash(desk)?,
            Action::ResetTimers { desk } => self.reset_timers(desk)?,
            Action::FalseNote {
                desk,
                destination,
                entry,
                time_out,
            } => self.false_note(area, desk, destination, entry, time_out)?,
        }
        Ok(Told { new: false })
    }
}
