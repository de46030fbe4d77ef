//! The live calls that change what stands under each name.

ghost use Rattle.std.specs.Prelude.{◌≡◌, ◌≢◌, ◌<◌, ◌++◌, ◌∷◌, [], ℕ, None, Some, length, option_map, slice_get, OnOk};
ghost use Rattle.std.specs.Prelude.{OnErr};
ghost use Rattle.wire_runs.specs.Plan.{event_of, event_count};
ghost use Rattle.wire_runs.specs.Step.{is_publisher};
ghost use Rattle.wire_scripts.specs.Planned.{plan_of};
ghost use Rattle.wire_happens_before.specs.Updates.{updates_at, standing_in, IsAppended, IsUpdateNoted, TakesAway, IsCleared};
ghost use Rattle.wire_happens_before.specs.Updates as spec;

use crate::held::Held;
use std::alloc::{AllocError, Global};
use std::marker::Model;
use wire_plan::{Kind, Plan};
use wire_types::{Event, Proc};

/// A live call that can change a name, in a list of them.
#[derive(Clone, Copy, Debug)]
pub struct Update {
    /// The call: a publish, or one that takes away this name or all names of its process.
    pub event: Event,
    /// The publish that stands under the name after it, where the events of the list happened in their
    /// order; `None` where none stands there.
    pub standing: Option<Event>,
}

/// For each name live calls that can change it, in the order in which they were marked.
#[derive(Drop)]
pub(crate) struct UpdateLists {
    by_name: Vec<Vec<Update>>,
}

impl Model for UpdateLists {
    ghost use Rattle.std.specs.Prelude.{List, map};
    ghost use Rattle.wire_happens_before.specs.declared.updates.Update.{Update as Noted};

    ghost Value = { List (List Noted) };

    ghost view = { λ t. map (λ v. v.items) t.by_name.items };
}

/// What stands under a name after a publish of it.
fn after_publish(standing: Option<Event>, publish: Event) -> Option<Event>
    ensures { option_map event_of result ≡ spec.after_publish (event_of publish) (option_map event_of standing) }
{
    match standing {
        Some(earlier) => Some(earlier),
        None => Some(publish),
    }
}

/// Whether a publish of this process stands there.
fn is_published_by(standing: Option<Event>, proc: Proc) -> bool
    ensures { result ≡ is_publisher proc.number (option_map event_of standing) }
{
    match standing {
        Some(publish) => publish.proc.number == proc.number,
        None => false,
    }
}

/// What stands under a name after a process's unpublish of it.
fn after_unpublish(standing: Option<Event>, proc: Proc) -> Option<Event>
    ensures { option_map event_of result ≡ spec.after_unpublish proc.number (option_map event_of standing) }
{
    if is_published_by(standing, proc) {
        None
    } else {
        standing
    }
}

impl UpdateLists {
    /// None of any name.
    fn empty(alloc: Global) -> UpdateLists
        ensures { result ≡ [] }
    {
        UpdateLists {
            by_name: Vec::new(alloc),
        }
    }

    /// Those of a name, in the order in which they were marked.
    fn list(&self, name: u32) -> &[Update]
        ensures { result.now ≡ updates_at self.now name }
    {
        match self.by_name.get(name as usize) {
            Some(list) => list.as_slice(),
            None => &[],
        }
    }

    /// What stands under a name after those of it.
    fn standing(&self, name: u32) -> Option<Event>
        ensures { option_map event_of result ≡ standing_in (updates_at self.now name) }
    {
        let list = self.list(name);
        if list.is_empty() {
            return None;
        }
        list[list.len() - 1].standing
    }

    /// Gives each name up to this one a list, at first an empty one.
    fn reach(&mut self, alloc: Global, name: u32) -> Result<(), AllocError>
        ensures same { (n : ℕ) → updates_at self.new n ≡ updates_at self.old n }
        ensures there { OnOk result (name < length self.new) }
    {
        for _ in self.by_name.len()..name as usize + 1 {
            self.by_name.push(Vec::new(alloc))?;
        }
        Ok(())
    }

    /// Adds one to the list of a name.
    fn add(&mut self, alloc: Global, name: u32, update: Update) -> Result<(), AllocError>
        ensures here { OnOk result (updates_at self.new name ≡ updates_at self.old name ++ update ∷ []) }
        ensures others { OnOk result ((n : ℕ) → n ≢ name → updates_at self.new n ≡ updates_at self.old n) }
        ensures err { OnErr result ((n : ℕ) → updates_at self.new n ≡ updates_at self.old n) }
    {
        self.reach(alloc, name)?;
        self.by_name[name as usize].push(update)?;
        Ok(())
    }

    /// Notes that a call took away all names of its process: where a publish of it stands under this name, it
    /// is added.
    fn unpublish_all(&mut self, alloc: Global, name: u32, event: Event) -> Result<(), AllocError>
        ensures each { (n : ℕ) → TakesAway (event_of event) (updates_at self.old n) (updates_at self.new n) }
        ensures cleared { OnOk result (IsCleared event.proc.number (updates_at self.new name)) }
    {
        if !is_published_by(self.standing(name), event.proc) {
            return Ok(());
        }
        self.add(
            alloc,
            name,
            Update {
                event,
                standing: None,
            },
        )
    }

    /// The same for each of these names.
    fn unpublish_all_names(
        &mut self,
        alloc: Global,
        names: &[u32],
        event: Event,
    ) -> Result<(), AllocError>
        ensures each { (n : ℕ) → TakesAway (event_of event) (updates_at self.old n) (updates_at self.new n) }
        ensures cleared { OnOk result ((k n : ℕ) → slice_get names.now k ≡ Some n → IsCleared event.proc.number (updates_at self.new n)) }
    {
        for name in names {
            self.unpublish_all(alloc, *name, event)?;
        }
        Ok(())
    }
}

/// For each name live calls that can change it, in the order in which they were marked: its publishes, its
/// unpublishes, and of the calls that take away all names of their process those that took it away. So a
/// call that takes away nothing is nowhere, and each publish pays for at most one that took it away.
pub(crate) struct Updates {
    lists: UpdateLists,
    held: Held,
}

// By hand and not derived: so dropping one is a call, and the proof of a function that drops one doesn't take it apart.
impl Drop for Updates {
    fn drop(self) {
        let Updates { lists: _, held: _ } = self;
    }
}

impl Model for Updates {
    ghost use Rattle.std.specs.Prelude.{List};
    ghost use Rattle.wire_happens_before.specs.declared.updates.Update.{Update as Noted};
    ghost use Rattle.wire_happens_before.specs.Updates.{AreHeld};

    ghost Value = { List (List Noted) };

    ghost view = { λ t. t.lists };

    ghost invariant = { λ t. AreHeld t.lists t.held };
}

impl Updates {
    /// None of any name.
    pub(crate) fn empty(alloc: Global) -> Updates
        ensures { result ≡ [] }
    {
        Updates {
            lists: UpdateLists::empty(alloc),
            held: Held::empty(alloc),
        }
    }

    /// Those of a name, in the order in which they were marked.
    pub(crate) fn list(&self, name: u32) -> &[Update]
        ensures { result.now ≡ updates_at self.now name }
    {
        self.lists.list(name)
    }

    /// Notes a publish of a name.
    fn note_publish(&mut self, alloc: Global, name: u32, event: Event) -> Result<(), AllocError>
        ensures { OnOk result (IsAppended (event_of event) name
            (spec.after_publish (event_of event) (standing_in (updates_at self.old name))) self.old self.new) }
    {
        let standing = after_publish(self.lists.standing(name), event);
        self.held.add(alloc, event.proc, name)?;
        self.lists.add(alloc, name, Update { event, standing })
    }

    /// Notes an unpublish of a name.
    fn note_unpublish(&mut self, alloc: Global, name: u32, event: Event) -> Result<(), AllocError>
        ensures { OnOk result (IsAppended (event_of event) name
            (spec.after_unpublish event.proc.number (standing_in (updates_at self.old name))) self.old self.new) }
    {
        let standing = after_unpublish(self.lists.standing(name), event.proc);
        self.lists.add(alloc, name, Update { event, standing })
    }

    /// Notes a call that takes away all names of its process.
    fn note_unpublish_all(&mut self, alloc: Global, event: Event) -> Result<(), AllocError>
        ensures each { (n : ℕ) → TakesAway (event_of event) (updates_at self.old n) (updates_at self.new n) }
        ensures cleared { OnOk result ((n : ℕ) → IsCleared event.proc.number (updates_at self.new n)) }
    {
        self.lists
            .unpublish_all_names(alloc, self.held.list(event.proc), event)?;
        self.held.clear(event.proc);
        Ok(())
    }

    /// Notes an event of the plan under each name that it can change. The only error is that memory ran out.
    pub(crate) fn note(
        &mut self,
        alloc: Global,
        plan: &Plan,
        event: Event,
    ) -> Result<(), AllocError>
        requires { event.at < event_count (plan_of plan.now) event.proc.number }
        ensures { OnOk result ((name : ℕ) → IsUpdateNoted (plan_of plan.now) (event_of event) name (updates_at self.old name) (updates_at self.new name)) }
    {
        match plan.kind(event) {
            Kind::Publish { name } => self.note_publish(alloc, name, event),
            Kind::Unpublish { name } => self.note_unpublish(alloc, name, event),
            Kind::UnpublishAll => self.note_unpublish_all(alloc, event),
            _ => Ok(()),
        }
    }
}
