//! Events listed by a number: that of a name or of a process.

ghost use Rattle.std.specs.Prelude.{◌≡◌, ◌≢◌, ◌<◌, ◌++◌, ◌∷◌, [], ℕ, suc, List, Some, length, map, OnOk};
ghost use Rattle.wire_runs.specs.Plan.{event_of, kind_at};
ghost use Rattle.wire_runs.specs.Plan as runs;
ghost use Rattle.wire_plan.specs.Kinds.{kind_of};
ghost use Rattle.wire_plan.specs.Tables.{is_listed, is_this_number, events_listed, AreListedTo};

use crate::kind::Kind;
use std::alloc::{AllocError, Global};
use std::marker::Model;
use wire_types::{Event, Proc};

/// Which events are listed, and by what.
#[derive(Clone, Copy)]
pub(crate) enum Listing {
    /// The calls on a name, by the name.
    NameCalls,
    /// The publishes of a name, by the name.
    Publishes,
    /// The unpublishes of a name, by the name.
    Takes,
    /// The calls that take away all names of a process, by the process.
    Sweeps,
}

impl Listing {
    /// The number that an event of a process is listed under, if it is listed.
    fn number_of(self, proc: Proc, kind: Kind) -> Option<u32>
        ensures { (plan : runs.Plan) (sets : List (List ℕ)) (number at : ℕ) →
            is_listed plan self number (record { proc = proc.number; at = at }) (Some (kind_of sets kind)) ≡ is_this_number result number }
    {
        match self {
            Listing::NameCalls => name_called(kind),
            Listing::Publishes => name_published(kind),
            Listing::Takes => name_taken(kind),
            Listing::Sweeps => proc_swept(proc, kind),
        }
    }
}

/// The name of a call on one name.
fn name_called(kind: Kind) -> Option<u32>
    ensures { (plan : runs.Plan) (sets : List (List ℕ)) (number : ℕ) (x : runs.Event) →
        is_listed plan Listing.NameCalls number x (Some (kind_of sets kind)) ≡ is_this_number result number }
{
    match kind {
        Kind::Publish { name } => Some(name),
        Kind::Lookup { name } => Some(name),
        Kind::LookupWait { name } => Some(name),
        Kind::Unpublish { name } => Some(name),
        _ => None,
    }
}

/// The name of a publish.
fn name_published(kind: Kind) -> Option<u32>
    ensures { (plan : runs.Plan) (sets : List (List ℕ)) (number : ℕ) (x : runs.Event) →
        is_listed plan Listing.Publishes number x (Some (kind_of sets kind)) ≡ is_this_number result number }
{
    match kind {
        Kind::Publish { name } => Some(name),
        _ => None,
    }
}

/// The name of an unpublish of one name.
fn name_taken(kind: Kind) -> Option<u32>
    ensures { (plan : runs.Plan) (sets : List (List ℕ)) (number : ℕ) (x : runs.Event) →
        is_listed plan Listing.Takes number x (Some (kind_of sets kind)) ≡ is_this_number result number }
{
    match kind {
        Kind::Unpublish { name } => Some(name),
        _ => None,
    }
}

/// The process whose names a call takes away.
fn proc_swept(proc: Proc, kind: Kind) -> Option<u32>
    ensures { (plan : runs.Plan) (sets : List (List ℕ)) (number at : ℕ) →
        is_listed plan Listing.Sweeps number (record { proc = proc.number; at = at }) (Some (kind_of sets kind)) ≡ is_this_number result number }
{
    match kind {
        Kind::UnpublishAll => Some(proc.number),
        _ => None,
    }
}

/// Events by number, those of each number in process order.
#[derive(Drop)]
pub(crate) struct ByNumber {
    lists: Vec<Vec<Event>>,
}

impl Model for ByNumber {
    ghost use Rattle.std.specs.Prelude.{List, map};
    ghost use Rattle.wire_runs.specs.Plan.{event_of};
    ghost use Rattle.wire_runs.specs.Plan as runs;

    ghost Value = { List (List runs.Event) };

    ghost view = { λ t. map (λ v. map event_of v.items) t.lists.items };
}

impl ByNumber {
    /// A table that lists no event.
    pub(crate) fn empty(alloc: Global) -> ByNumber
        ensures { result ≡ [] }
    {
        ByNumber {
            lists: Vec::new(alloc),
        }
    }

    /// Gives each number up to this one a list, at first an empty one.
    fn reach(&mut self, alloc: Global, number: u32) -> Result<(), AllocError>
        ensures same { OnOk result ((n : ℕ) → events_listed self.new n ≡ events_listed self.old n) }
        ensures there { OnOk result (number < length self.new) }
    {
        for _ in self.lists.len()..number as usize + 1 {
            self.lists.push(Vec::new(alloc))?;
        }
        Ok(())
    }

    /// Adds an event to a list that is there.
    fn append(&mut self, number: u32, event: Event) -> Result<(), AllocError>
        requires { number < length self.old }
        ensures here { OnOk result (events_listed self.new number ≡ events_listed self.old number ++ event_of event ∷ []) }
        ensures others { OnOk result ((n : ℕ) → n ≢ number → events_listed self.new n ≡ events_listed self.old n) }
    {
        self.lists[number as usize].push(event)?;
        Ok(())
    }

    /// Adds an event to the list of a number. The only error is that memory ran out.
    pub(crate) fn add(&mut self, alloc: Global, number: u32, event: Event) -> Result<(), AllocError>
        ensures here { OnOk result (events_listed self.new number ≡ events_listed self.old number ++ event_of event ∷ []) }
        ensures others { OnOk result ((n : ℕ) → n ≢ number → events_listed self.new n ≡ events_listed self.old n) }
    {
        self.reach(alloc, number)?;
        self.append(number, event)
    }

    /// Adds an event of this kind, where it is listed.
    pub(crate) fn read(
        &mut self,
        alloc: Global,
        listing: Listing,
        event: Event,
        kind: Kind,
    ) -> Result<(), AllocError>
        ensures { OnOk result ((plan : runs.Plan) (sets : List (List ℕ)) → kind_at plan event.proc.number event.at ≡ Some (kind_of sets kind)
            → AreListedTo plan listing event.proc.number event.at self.old → AreListedTo plan listing event.proc.number (suc event.at) self.new) }
    {
        if let Some(number) = listing.number_of(event.proc, kind) {
            self.add(alloc, number, event)?;
        }
        Ok(())
    }

    /// The events that are listed under a number, in process order; none where there are none.
    pub(crate) fn list(&self, number: u32) -> &[Event]
        ensures { map event_of result.now ≡ events_listed self.now number }
    {
        match self.lists.get(number as usize) {
            Some(list) => list.as_slice(),
            None => &[],
        }
    }
}
