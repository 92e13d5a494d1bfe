//! Posting: a note is added at the end unless an equal note waits. The calls that answer `NoRoom` look whether the notes have room
//! before they change anything.
ghost use Rattle.std.specs.Prelude.{◌≡◌, false, ℕ, ◌<◌, ◌≤◌, ◌/◌, ◌%◌, ◌==◌, ◌||◌, if◌then◌else◌, nat_lt, OnErr, length, take, slice_index, Ok, Err};
ghost use Rattle.sets.specs.Sets.{member};
ghost use Rattle.rules.specs.declared.Refusal.TheVariants.{NoRoom};
ghost use Rattle.rules.specs.Rules.{note_of, waits, post, post_all};
ghost use Rattle.notes.specs.Area.{laid};
ghost use Rattle.notes.specs.Posting.{Tells, AllTell, ManyTell, new_count, broadcast_of, broadcasts_of, room_for, count_or_no_room, laid_or_kept};

use crate::{destination_number, destination_of, entry_of, note_of, waits};
use rules::Refusal;
use sets::{DeskNo, DeskSet, EntryNo, EntrySet};

/// The area has no room for the notes, with which so many would wait.
#[derive(Clone, Copy, Debug, PartialEq, Eq)]
pub struct NoRoom {
    pub would_wait: usize,
}

impl From<NoRoom> for Refusal {
    ghost from_gives = { λ _ refusal. refusal ≡ NoRoom };

    fn from(_no_room: NoRoom) -> Refusal {
        Refusal::NoRoom
    }
}

/// Whether so many notes have room.
fn has_room(area: &[u64], would_wait: usize) -> Result<(), NoRoom>
    ensures { result ≡ (if nat_lt (length area.now) would_wait then Err (record { would_wait = would_wait }) else Ok tt) }
{
    if would_wait > area.len() {
        return Err(NoRoom { would_wait });
    }
    Ok(())
}

/// Adds a note, of which no equal note waits, at the end.
fn add(area: &mut [u64], waiting: usize, note: u64) -> usize
    requires waiting { waiting ≤ length area.old }
    requires new { waits (take waiting area.old) note ≡ false }
    requires room { length (post (take waiting area.old) note) ≤ length area.old }
    ensures count { result ≡ length (post (take waiting area.old) note) }
    ensures area { area.new ≡ laid waiting area.old (post (take waiting area.old) note) }
{
    area[waiting] = note;
    waiting + 1
}

/// Adds the note at the end unless an equal note waits.
pub fn post(area: &mut [u64], waiting: usize, note: u64) -> usize
    requires waiting { waiting ≤ length area.old }
    requires room { length (post (take waiting area.old) note) ≤ length area.old }
    ensures count { result ≡ length (post (take waiting area.old) note) }
    ensures area { area.new ≡ laid waiting area.old (post (take waiting area.old) note) }
{
    if waits(&area[..waiting], note) {
        return waiting;
    }
    add(area, waiting, note)
}

/// Posts one note, if it has room.
#[tactic(auto, using(rules::proofs::PostLaws::length_post))]
pub fn post_one(area: &mut [u64], waiting: usize, note: u64) -> Result<usize, NoRoom>
    requires { waiting ≤ length area.old }
    ensures count { result ≡ count_or_no_room area.old (post (take waiting area.old) note) }
    ensures area { area.new ≡ laid_or_kept waiting area.old (post (take waiting area.old) note) }
    ensures kept { OnErr result (area.new ≡ area.old) }
{
    if waits(&area[..waiting], note) {
        return Ok(waiting);
    }
    if waiting < area.len() {
        return Ok(add(area, waiting, note));
    }
    Err(NoRoom {
        would_wait: waiting + 1,
    })
}

/// Whether the desk is in its set, where sets of 16 desks each tell of all desks.
fn many_have(reached: &[DeskSet; 16], desk: DeskNo) -> bool
    ensures { result ≡ member (slice_index reached.now (desk / 16)) (desk % 16) }
{
    reached[desk.0 as usize / 16].has(DeskNo(desk.0 % 16))
}

/// What the notes of a broadcast have in common: from which desk they are, that they go to desks 0 to `desks` - 1, in that order, and
/// their time-out.
#[derive(Clone, Copy, Debug, PartialEq, Eq)]
pub struct Sender {
    pub source: DeskNo,
    pub desks: u8,
    pub time_out: u32,
}

impl Sender {
    /// The note to this desk.
    fn note_to(&self, desk: DeskNo, entry: EntryNo) -> u64
        ensures { result ≡ note_of self.now.time_out self.now.source desk entry }
    {
        note_of(self.time_out, self.source, desk, entry)
    }

    /// The set with the desk to which this note goes, if it is one of the broadcast.
    fn with_reached(&self, set: DeskSet, note: u64, entry: EntryNo) -> DeskSet
        ensures { (j : ℕ) → j < 16 → member result j ≡ (member set j || note == note_of self.now.time_out self.now.source j entry) }
    {
        let desk = destination_number(note);
        if note - desk * (1 << 8) == self.note_to(DeskNo(0), entry) {
            set.with(DeskNo(desk as u8))
        } else {
            set
        }
    }

    /// The desks below 16 to which an equal note waits, found by one scan.
    fn reached(&self, notes: &[u64], entry: EntryNo) -> DeskSet
        ensures { Tells result notes.now self.now entry }
    {
        let mut reached = DeskSet::empty();
        for note in notes {
            reached = self.with_reached(reached, *note, entry);
        }
        reached
    }

    /// Puts the desk to which this note goes into its set, if the note is one of the broadcast.
    fn add_to_many(&self, reached: &mut [DeskSet; 16], note: u64, entry: EntryNo)
        ensures { (j : ℕ) → j < 256 →
            member (slice_index reached.new (j / 16)) (j % 16) ≡ (member (slice_index reached.old (j / 16)) (j % 16) || note == note_of self.now.time_out self.now.source j entry) }
    {
        let desk = destination_of(note);
        if note == self.note_to(desk, entry) {
            let k = desk.0 as usize / 16;
            reached[k] = reached[k].with(DeskNo(desk.0 % 16));
        }
    }

    /// All desks to which an equal note waits, found by one scan, in sets of 16 desks each.
    fn many_reached(&self, notes: &[u64], entry: EntryNo) -> [DeskSet; 16]
        ensures { ManyTell result notes.now self.now entry }
    {
        let mut reached = [DeskSet::empty(); 16];
        for note in notes {
            self.add_to_many(&mut reached, *note, entry);
        }
        reached
    }

    /// How many notes of the broadcast do not wait, for any number of desks.
    // Not inlined, as `post_missing_of_many`: where there are at most 16 desks, one set tells of all, and no room for 16 sets is taken.
    #[inline(never)]
    #[tactic(auto, using(crate::proofs::PostingLaws::new_none, crate::proofs::PostingLaws::new_more))]
    fn missing_of_many(&self, notes: &[u64], entry: EntryNo) -> usize
        ensures { result ≡ new_count notes.now (broadcast_of self.now entry) }
    {
        let reached = self.many_reached(notes, entry);
        let mut count = 0;
        for number in 0..self.desks {
            if !many_have(&reached, DeskNo(number)) {
                count += 1;
            }
        }
        count
    }

    /// Adds the notes of the broadcast that do not wait, for any number of desks.
    #[inline(never)]
    fn post_missing_of_many(&self, area: &mut [u64], waiting: usize, entry: EntryNo) -> usize
        requires waiting { waiting ≤ length area.old }
        requires room { length (post_all (take waiting area.old) (broadcast_of self.now entry)) ≤ length area.old }
        ensures count { result ≡ length (post_all (take waiting area.old) (broadcast_of self.now entry)) }
        ensures area { area.new ≡ laid waiting area.old (post_all (take waiting area.old) (broadcast_of self.now entry)) }
    {
        let reached = self.many_reached(&area[..waiting], entry);
        let mut count = waiting;
        for number in 0..self.desks {
            let desk = DeskNo(number);
            if !many_have(&reached, desk) {
                area[count] = self.note_to(desk, entry);
                count += 1;
            }
        }
        count
    }

    /// How many notes of the broadcast do not wait, where the set tells for desks below 16. For more, all notes are looked through once more.
    #[tactic(auto, using(crate::proofs::PostingLaws::new_none, crate::proofs::PostingLaws::new_more))]
    fn missing(&self, notes: &[u64], reached: DeskSet, entry: EntryNo) -> usize
        requires { Tells reached notes.now self.now entry }
        ensures { result ≡ new_count notes.now (broadcast_of self.now entry) }
    {
        if self.desks > 16 {
            return self.missing_of_many(notes, entry);
        }
        // Counted by hand: `filter` and `count` over the range were tried, and the proof did not close.
        let mut new = 0;
        for j in 0..self.desks {
            if !reached.has(DeskNo(j)) {
                new += 1;
            }
        }
        new
    }

    /// Adds the notes of the broadcast that do not wait, as `missing` counts them.
    fn post_missing(
        &self,
        area: &mut [u64],
        waiting: usize,
        reached: DeskSet,
        entry: EntryNo,
    ) -> usize
        requires waiting { waiting ≤ length area.old }
        requires reached { Tells reached (take waiting area.old) self.now entry }
        requires room { length (post_all (take waiting area.old) (broadcast_of self.now entry)) ≤ length area.old }
        ensures count { result ≡ length (post_all (take waiting area.old) (broadcast_of self.now entry)) }
        ensures area { area.new ≡ laid waiting area.old (post_all (take waiting area.old) (broadcast_of self.now entry)) }
    {
        if self.desks > 16 {
            return self.post_missing_of_many(area, waiting, entry);
        }
        // Counted by hand, as the count is the place that is written to.
        let mut count = waiting;
        for desk in 0..self.desks {
            let desk = DeskNo(desk);
            if !reached.has(desk) {
                area[count] = self.note_to(desk, entry);
                count += 1;
            }
        }
        count
    }

    /// How many notes of the broadcast do not wait yet.
    pub fn new_count(&self, notes: &[u64], entry: EntryNo) -> usize
        ensures { result ≡ new_count notes.now (broadcast_of self.now entry) }
    {
        let reached = self.reached(notes, entry);
        self.missing(notes, reached, entry)
    }

    /// Posts the broadcast.
    pub fn broadcast(&self, area: &mut [u64], waiting: usize, entry: EntryNo) -> usize
        requires waiting { waiting ≤ length area.old }
        requires room { length (post_all (take waiting area.old) (broadcast_of self.now entry)) ≤ length area.old }
        ensures count { result ≡ length (post_all (take waiting area.old) (broadcast_of self.now entry)) }
        ensures area { area.new ≡ laid waiting area.old (post_all (take waiting area.old) (broadcast_of self.now entry)) }
    {
        let reached = self.reached(&area[..waiting], entry);
        self.post_missing(area, waiting, reached, entry)
    }

    /// Whether the broadcast has room. Its new notes are counted only where all of its notes have none.
    #[tactic(auto, using(crate::proofs::PostingLaws::new_le, crate::proofs::PostingLaws::counted))]
    fn look_for_room(
        &self,
        area: &[u64],
        waiting: usize,
        reached: DeskSet,
        entry: EntryNo,
    ) -> Result<(), NoRoom>
        requires waiting { waiting ≤ length area.now }
        requires reached { Tells reached (take waiting area.now) self.now entry }
        ensures { result ≡ room_for area.now (post_all (take waiting area.now) (broadcast_of self.now entry)) }
    {
        if waiting + usize::from(self.desks) <= area.len() {
            return Ok(());
        }
        let new = self.missing(&area[..waiting], reached, entry);
        has_room(area, waiting + new)
    }

    /// Posts the broadcast, if its notes have room.
    pub fn post_broadcast(
        &self,
        area: &mut [u64],
        waiting: usize,
        entry: EntryNo,
    ) -> Result<usize, NoRoom>
        requires { waiting ≤ length area.old }
        ensures count { result ≡ count_or_no_room area.old (post_all (take waiting area.old) (broadcast_of self.now entry)) }
        ensures area { area.new ≡ laid_or_kept waiting area.old (post_all (take waiting area.old) (broadcast_of self.now entry)) }
        ensures kept { OnErr result (area.new ≡ area.old) }
    {
        let reached = self.reached(&area[..waiting], entry);
        self.look_for_room(area, waiting, reached, entry)?;
        Ok(self.post_missing(area, waiting, reached, entry))
    }

    /// Puts the desk to which this note goes into the set of its entry, if it is one of such notes.
    fn add_reached(&self, reached: &mut [DeskSet; 64], note: u64)
        ensures { (e j : ℕ) → e < 64 → j < 16 →
            member (slice_index reached.new e) j ≡ (member (slice_index reached.old e) j || note == note_of self.now.time_out self.now.source j e) }
    {
        let desk = destination_of(note);
        let entry = entry_of(note);
        if entry.0 < 64 && note == self.note_to(desk, entry) {
            let e = entry.0 as usize;
            reached[e] = reached[e].with(desk);
        }
    }

    /// For each entry the desks below 16 to which an equal note waits, found by one scan.
    fn all_reached(&self, notes: &[u64]) -> [DeskSet; 64]
        ensures { AllTell result notes.now self.now }
    {
        let mut reached = [DeskSet::empty(); 64];
        for note in notes {
            self.add_reached(&mut reached, *note);
        }
        reached
    }

    /// How many notes of the broadcasts do not wait, where the sets tell for desks below 16.
    #[tactic(auto, using(crate::proofs::PostingLaws::new_none, crate::proofs::PostingLaws::new_le, crate::proofs::PostingLaws::all_new_more))]
    fn all_missing(&self, notes: &[u64], reached: &[DeskSet; 64], entries: EntrySet, u: u8) -> usize
        requires entries { u ≤ 64 }
        requires reached { AllTell reached.now notes.now self.now }
        ensures { result ≡ new_count notes.now (broadcasts_of self.now entries u) }
    {
        let mut new = 0;
        // By the entry's number, which the notes have in them.
        for e in 0..u {
            if entries.has(EntryNo(e)) {
                new += self.missing(notes, reached[e as usize], EntryNo(e));
            }
        }
        new
    }

    /// Adds the notes of the broadcasts that do not wait, where the sets tell for desks below 16.
    // Six parameters, here and in `look_for_all_room`: a struct of the sets, the entries and their bound is no plainer, as it would be made
    // for these two calls and taken apart at once.
    fn post_all_missing(
        &self,
        area: &mut [u64],
        waiting: usize,
        reached: &[DeskSet; 64],
        entries: EntrySet,
        u: u8,
    ) -> usize
        requires entries { u ≤ 64 }
        requires waiting { waiting ≤ length area.old }
        requires reached { AllTell reached.now (take waiting area.old) self.now }
        requires room { length (post_all (take waiting area.old) (broadcasts_of self.now entries u)) ≤ length area.old }
        ensures count { result ≡ length (post_all (take waiting area.old) (broadcasts_of self.now entries u)) }
        ensures area { area.new ≡ laid waiting area.old (post_all (take waiting area.old) (broadcasts_of self.now entries u)) }
    {
        let mut count = waiting;
        // By the entry's number, as in `all_missing`.
        for entry in 0..u {
            if entries.has(EntryNo(entry)) {
                count = self.post_missing(area, count, reached[entry as usize], EntryNo(entry));
            }
        }
        count
    }

    /// Whether the broadcasts have room. Their new notes are counted only where all of their notes have none.
    #[tactic(auto, using(crate::proofs::PostingLaws::all_new_le, crate::proofs::PostingLaws::all_new_few, crate::proofs::PostingLaws::all_counted))]
    fn look_for_all_room(
        &self,
        area: &[u64],
        waiting: usize,
        reached: &[DeskSet; 64],
        entries: EntrySet,
        u: u8,
    ) -> Result<(), NoRoom>
        requires waiting { waiting ≤ length area.now }
        requires entries { u ≤ 64 }
        requires reached { AllTell reached.now (take waiting area.now) self.now }
        ensures { result ≡ room_for area.now (post_all (take waiting area.now) (broadcasts_of self.now entries u)) }
    {
        if waiting + usize::from(entries.size()) * usize::from(self.desks) <= area.len() {
            return Ok(());
        }
        let all_new = self.all_missing(&area[..waiting], reached, entries, u);
        has_room(area, waiting + all_new)
    }

    /// Posts the broadcasts of the entries below `u` that are in the set, in rising order, if all their notes have room.
    pub fn post_broadcasts(
        &self,
        area: &mut [u64],
        waiting: usize,
        entries: EntrySet,
        u: u8,
    ) -> Result<usize, NoRoom>
        requires waiting { waiting ≤ length area.old }
        requires entries { u ≤ 64 }
        ensures count { result ≡ count_or_no_room area.old (post_all (take waiting area.old) (broadcasts_of self.now entries u)) }
        ensures area { area.new ≡ laid_or_kept waiting area.old (post_all (take waiting area.old) (broadcasts_of self.now entries u)) }
        ensures kept { OnErr result (area.new ≡ area.old) }
    {
        // Most tries to pass on find no entry due.
        if entries.is_empty() {
            return Ok(waiting);
        }
        let reached = self.all_reached(&area[..waiting]);
        self.look_for_all_room(area, waiting, &reached, entries, u)?;
        Ok(self.post_all_missing(area, waiting, &reached, entries, u))
    }
}
