//! One rank's seat, and the trail of what its events did.

ghost use Rattle.std.specs.Prelude.{◌≡◌, ◌≢◌, ◌+◌, ◌<◌, ◌≤◌, [], length, None, IfOk, IfSome, MatchOption, IsOkUnless};
ghost use Rattle.std.specs.Prelude.{IsTrue, ◌↔◌};
ghost use Rattle.wire_types.specs.declared.Fault.TheVariants.{Memory};
ghost use Rattle.wire_runs.specs.Plan.{event_of, event_count};
ghost use Rattle.wire_runs.specs.Fate.{HasFate, Waits};
ghost use Rattle.wire_runs.specs.Order.{Edge};
ghost use Rattle.wire_scripts.specs.Planned.{plan_of};
ghost use Rattle.wire_fates.specs.Fates.{IsFateOf};
ghost use Rattle.wire_plan.specs.Index.{source_list};
ghost use Rattle.wire_board.specs.Cuts.{shows_event, ShowsSources, ImpliesSources};
ghost use Rattle.wire_board.specs.Seats.{place_of, next_of, ShowsNext, ImpliesNext};
ghost use Rattle.wire_board.specs.Lanes.{AreFates, IsTrail, IsLaneOf, IsTrailOf, Grows, HasRead, AreLeft, SameLane};

use crate::board::Board;
use crate::fence_end::{end_before, next_member_first};
use crate::seat::Seat;
use crate::shown::first_source;
use std::alloc::Global;
use std::marker::Model;
use wire_fates::{Fate, Settled};
use wire_plan::Sources;
use wire_types::{Event, Fault, Proc};

/// A rank with its seat, and the trail of what its events did: the fates of its first events, as many as
/// are done. Each is the reply that its event gets in the plain run, or silence for an arrival (the law
/// `trails_are_plain`). It borrows the board of its seat, and the settled plan of which that board was made.
pub struct Lane<'a> {
    board: &'a Board,
    settled: &'a Settled,
    seat: Seat,
    trail: Vec<Fate>,
    /// The sources of the next event from the first one on that wasn't done when its word was last read, if they
    /// were looked at.
    left: Option<Sources<'a>>,
}

// By hand and not derived: so dropping one is a call, and the proof of a function that drops one doesn't take it apart.
impl Drop for Lane<'_> {
    fn drop(self) {
        let Lane {
            board: _,
            settled: _,
            seat: _,
            trail: _,
            left: _,
        } = self;
    }
}

impl<'a> Model for Lane<'a> {
    ghost use Rattle.std.specs.Prelude.{vec_capacity, IfSome};
    ghost use Rattle.wire_scripts.specs.Planned.{plan_of};
    ghost use Rattle.wire_plan.specs.Index.{source_list};
    ghost use Rattle.wire_board.specs.Lanes.{LaneIs, IsLane, AreLeft};

    ghost Value = { LaneIs };

    ghost view = { λ l. record { seat = l.seat; trail = l.trail.items } };

    ghost invariant = { λ l. IsLane l.board.now l.settled.now l.seat l.trail.items (vec_capacity l.trail)
        × IfSome l.left (λ s. AreLeft (plan_of l.settled.now) l.seat (source_list s.previous s.awaited s.arrivals.now)) };
}

impl<'a> Lane<'a> {
    /// A lane for a seat at place 0. It reserves its whole trail. The caller ensures
    /// that the board was made of this settled plan, and the seat is of the board. The one fault is
    /// `Fault::Memory`.
    pub fn new(
        alloc: Global,
        board: &'a Board,
        settled: &'a Settled,
        seat: Seat,
    ) -> Result<Lane<'a>, Fault>
        requires plan { board.now.plan ≡ settled.now }
        requires seat { (seat.board ≡ board.now) × (place_of seat ≡ 0) }
        ensures lane { IfOk result (λ lane. (lane.seat ≡ seat) × (lane.trail ≡ [])) }
        ensures memory { IsOkUnless result Memory }
    {
        let count = settled.plan().event_count(seat.rank());
        let trail = Vec::with_capacity(alloc, count as usize)?;
        Ok(Lane {
            board,
            settled,
            seat,
            trail,
            left: None,
        })
    }

    /// The process that it serves.
    pub fn rank(&self) -> Proc
        ensures { result.number ≡ self.now.seat.rank }
    {
        self.seat.rank()
    }

    /// What the rank's events did: the fates of its first events, as many as are done.
    pub fn trail(&self) -> &[Fate]
        ensures value { result.now ≡ self.now.trail }
        ensures trail { IsTrail self.now }
    {
        self.trail.as_slice()
    }

    /// The event that was missing when the next event was looked at last: one for which it waits; `None` where none
    /// was.
    pub fn missing(&self) -> Option<Event>
        ensures { IfSome result (λ x. Edge (plan_of self.now.seat.board.plan) (event_of x) (next_of self.now.seat)) }
    {
        match self.left {
            Some(left) => first_source(left),
            None => None,
        }
    }

    /// Whether the seat knows that an event is done. Where it doesn't, it reads the word of the event's process afresh
    /// first.
    fn finds(&mut self, source: Event) -> bool
        ensures read { HasRead self.old self.new }
        ensures found { result ≡ shows_event self.new.seat.known (event_of source) }
    {
        let board = self.board;
        let settled = self.settled;
        if self.seat.knows(source) {
            return true;
        }
        if source.proc.number >= settled.plan().process_count() {
            return false;
        }
        let _ = board.read(&mut self.seat, source.proc);
        self.seat.knows(source)
    }

    /// The sources of the next event that may not be known to be done: those from the first one on that was missing
    /// when they were looked at last, or all.
    fn sources_left(&self, event: Event) -> Sources<'a>
        requires event { (event_of event ≡ next_of self.now.seat) × (event.at < event_count (plan_of self.now.seat.board.plan) event.proc.number) }
        ensures { AreLeft (plan_of self.now.seat.board.plan) self.now.seat (source_list result.previous result.awaited result.arrivals.now) }
    {
        match self.left {
            Some(left) => left,
            None => {
                let settled = self.settled;
                next_member_first(settled.plan().sources(event), event.proc)
            }
        }
    }

    /// These sources are the ones to be looked at next.
    fn keep_left(&mut self, left: Sources<'a>)
        requires { AreLeft (plan_of self.old.seat.board.plan) self.old.seat (source_list left.previous left.awaited left.arrivals.now) }
        ensures { self.new ≡ self.old }
    {
        self.left = Some(left);
    }

    /// Whether the seat knows all sources of the next event to be done. It reads afresh the word of each that it
    /// doesn't know to be done, up to the first that isn't done then. Each source is passed once, however often this is
    /// called.
    fn finds_all(&mut self, event: Event) -> bool
        requires event { (event_of event ≡ next_of self.old.seat) × (event.at < event_count (plan_of self.old.seat.board.plan) event.proc.number) }
        ensures read { HasRead self.old self.new }
        ensures found { IsTrue result ↔ ShowsSources (plan_of self.new.seat.board.plan) self.new.seat.known (next_of self.new.seat) }
    {
        let mut left = self.seat.skip_known(self.sources_left(event));
        'sources: while let Some(source) = first_source(left) {
            if !self.finds(source) {
                self.keep_left(left);
                return false;
            }
            left = self.seat.skip_known(left);
        }
        true
    }

    /// Whether all members have arrived at the fence that the next event ends, as the word of another member tells:
    /// that member has left the fence. False where the next event doesn't end a fence.
    fn finds_other_left(&mut self, event: Event) -> bool
        requires event { (event_of event ≡ next_of self.old.seat) × (event.at < event_count (plan_of self.old.seat.board.plan) event.proc.number) }
        ensures read { HasRead self.old self.new }
        ensures found { IsTrue result → ImpliesSources (plan_of self.new.seat.board.plan) self.new.seat.known (next_of self.new.seat) }
    {
        let settled = self.settled;
        match end_before(settled.plan(), event) {
            Some(end) => self.finds(end),
            None => false,
        }
    }

    /// The next event of the rank, if there is one.
    fn next_event(&self) -> Option<Event>
        ensures { MatchOption result (event_count (plan_of self.now.seat.board.plan) self.now.seat.rank ≤ place_of self.now.seat)
            (λ event. (event_of event ≡ next_of self.now.seat) × (event.at < event_count (plan_of self.now.seat.board.plan) event.proc.number)) }
    {
        let settled = self.settled;
        let proc = self.seat.rank();
        let done = self.trail.len();
        if done >= settled.plan().event_count(proc) as usize {
            return None;
        }
        Some(Event {
            proc,
            at: done as u32,
        })
    }

    /// The fate of the next event; `None` where that is to wait.
    fn fate_of(&self, event: Event) -> Option<Fate>
        requires { event_of event ≡ next_of self.now.seat }
        ensures { MatchOption result (HasFate (plan_of self.now.seat.board.plan) (next_of self.now.seat) Waits)
            (λ fate. ¬ (HasFate (plan_of self.now.seat.board.plan) (next_of self.now.seat) Waits)
            × IsFateOf (plan_of self.now.seat.board.plan) (next_of self.now.seat) fate × (fate ≢ Fate.Waits)) }
    {
        let settled = self.settled;
        match settled.fate(event) {
            Fate::Waits => None,
            fate => Some(fate),
        }
    }

    /// The fate of the next event, where the seat shows that it can happen after it read afresh the words of sources
    /// that it didn't know to be done; else `None`.
    fn next_fate(&mut self) -> Option<Fate>
        ensures read { HasRead self.old self.new }
        ensures ready { (result ≢ None) ↔ ShowsNext self.new.seat }
        ensures fate { IfSome result (λ fate. IsFateOf (plan_of self.new.seat.board.plan) (next_of self.new.seat) fate × (fate ≢ Fate.Waits)) }
    {
        let Some(event) = self.next_event() else {
            return None;
        };
        if !self.finds_all(event) {
            return None;
        }
        self.fate_of(event)
    }

    /// The fate of the next event, where that ends a fence which another member has left already; else `None`.
    fn fate_after_other(&mut self) -> Option<Fate>
        ensures read { HasRead self.old self.new }
        ensures fate { IfSome result (λ fate. ImpliesNext self.new.seat
            × IsFateOf (plan_of self.new.seat.board.plan) (next_of self.new.seat) fate × (fate ≢ Fate.Waits)) }
    {
        let Some(event) = self.next_event() else {
            return None;
        };
        if !self.finds_other_left(event) {
            return None;
        }
        self.fate_of(event)
    }

    /// The fate of the next event, where what the seat knows after fresh reads implies that it can happen; else `None`.
    fn due_fate(&mut self) -> Option<Fate>
        ensures read { HasRead self.old self.new }
        ensures fate { MatchOption result (¬ (ShowsNext self.new.seat)) (λ fate. ImpliesNext self.new.seat
            × IsFateOf (plan_of self.new.seat.board.plan) (next_of self.new.seat) fate × (fate ≢ Fate.Waits)) }
    {
        match self.fate_after_other() {
            Some(fate) => Some(fate),
            None => self.next_fate(),
        }
    }

    /// The next event happens, with this fate.
    fn happen(&mut self, fate: Fate)
        requires ready { ImpliesNext self.old.seat }
        requires fate { IsFateOf (plan_of self.old.seat.board.plan) (next_of self.old.seat) fate × (fate ≢ Fate.Waits) }
        ensures same { SameLane self.old self.new }
        ensures more { Grows self.old.trail self.new.trail 1 × (length self.old.trail < event_count (plan_of self.old.seat.board.plan) self.old.seat.rank) }
    {
        let board = self.board;
        let settled = self.settled;
        board.advance_implied(&mut self.seat, settled);
        self.trail.push_reserved(fate);
        self.left = None;
    }

    /// Serves the rank as far as it goes: reads afresh the sources of the next event that aren't known to be done, up
    /// to the first that isn't done, and does the event where its seat shows that it can happen, until it doesn't after
    /// fresh reads. At the end of a fence it first looks whether another member has left the fence; then it needn't
    /// read the words of the others. Answers how many events that were: so many entries the trail has more. It waits
    /// for nobody, takes no memory and can't fail. No clause says that it reads.
    pub fn advance_far(&mut self) -> usize
        ensures same { SameLane self.old self.new }
        ensures trail { Grows self.old.trail self.new.trail result }
        ensures rests { ¬ (ShowsNext self.new.seat) }
    {
        let before = self.trail.len();
        'events: while let Some(fate) = self.due_fate() {
            self.happen(fate);
        }
        self.trail.len() - before
    }

    /// Whether the next event of the rank can happen, after fresh reads as those of `advance_far`. It waits
    /// for nobody, takes no memory and can't fail.
    pub fn is_ready(&mut self) -> bool
        ensures same { SameLane self.old self.new }
        ensures trail { self.new.trail ≡ self.old.trail }
        ensures ready { IsTrue result ↔ ShowsNext self.new.seat }
    {
        self.next_fate().is_some()
    }

    /// Its trail, as long as its seat's place, where it is a lane of this rank and its entries are the fates
    /// that this plan gives the rank's first events; else `None`.
    pub fn into_trail(self, settled: &Settled, rank: Proc) -> Option<Vec<Fate>>
        ensures trail { IfSome result (λ trail. IsTrailOf self.entry trail.items) }
        ensures some { (result ≢ None) ↔ IsLaneOf (plan_of settled.now) rank.number self.entry }
    {
        let Lane {
            board: _,
            settled: _,
            seat,
            trail,
            left: _,
        } = self;
        if seat.rank() != rank {
            return None;
        }
        if !are_fates(settled, rank, trail.as_slice()) {
            return None;
        }
        Some(trail)
    }
}

/// Whether an event has this fate, and it isn't to wait.
fn has_fate(settled: &Settled, event: Event, fate: Fate) -> bool
    ensures { IsTrue result ↔ (IsFateOf (plan_of settled.now) (event_of event) fate × (fate ≢ Fate.Waits)) }
{
    settled.has_fates();
    settled.fate(event) == fate && fate != Fate::Waits
}

/// Whether these are the fates of a rank's first events.
fn are_fates(settled: &Settled, rank: Proc, trail: &[Fate]) -> bool
    ensures { IsTrue result ↔ AreFates (plan_of settled.now) rank.number trail.now }
{
    if trail.len() > settled.plan().event_count(rank) as usize {
        return false;
    }
    for at in 0..trail.len() {
        let event = Event {
            proc: rank,
            at: at as u32,
        };
        if !has_fate(settled, event, trail[at]) {
            return false;
        }
    }
    true
}
