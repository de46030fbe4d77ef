//! A call by which a plan isn't portable, and the list of these.

ghost use Rattle.std.specs.Prelude.{◌≡◌, ◌==◌, ◌++◌, ◌∷◌, [], true, false, IfSome, OnOk, length, slice_get, ◌<◌};
ghost use Rattle.std.specs.List.{list_any};
ghost use Rattle.wire_runs.specs.Plan.{event_count};
ghost use Rattle.wire_scripts.specs.Planned.{plan_of};
ghost use Rattle.wire_portable.specs.declared.libraries.Library.{Library as L};
ghost use Rattle.wire_portable.specs.Adding.{AddsUnportable};
ghost use Rattle.wire_portable.specs.Libraries.{has, is_empty};
ghost use Rattle.wire_portable.specs.Listed as spec;
ghost use Rattle.wire_portable.specs.Unportable.{IsUnblamed, EachNamesSome};

use crate::libraries::Libraries;
use std::alloc::{AllocError, Global};
use std::cmp::Ordering;
use std::marker::Model;
use wire_plan::Plan;
use wire_types::{CallAt, Event};

/// What a call breaks, in the order of the words that name it.
#[derive(Clone, Copy, PartialEq, Eq)]
pub enum Rule {
    /// A get of a key that another commit of the owner may come before, on a library that answers at once.
    FarGet,
    /// A get, from another node, of a key that is for the owner's node alone.
    FarLocal,
    /// The calls of a fence don't agree in collecting.
    FenceCollect,
    /// A fence of two jobs.
    FenceJobs,
    /// A call of a fence names a process or a job twice.
    FenceRepeats,
    /// The calls of fences over a set don't spell it alike.
    FenceSpelling,
    /// A get-now may see what something else brings, or may not.
    GetNow,
    /// A get shares its answer with another get of its node.
    Mates,
    /// A get on the owner's node that a commit of the owner answers too early.
    NearGet,
    /// A get or get-now on the owner's node of a key that is for other nodes alone.
    NearRemote,
    /// A publish of a name that may be there.
    Published,
    /// A call of a reserved key or name that isn't answered alike by all.
    Reserved,
    /// A put of a key that was put before.
    Rewrite,
    /// A call that takes away all names of its process.
    UnpublishAll,
    /// An unpublish of a name that may not be there.
    Unpublished,
}

impl Rule {
    /// Its place in the order of the words that name rules.
    pub fn number(self) -> u8
        ensures { result ≡ spec.rule_number self }
    {
        match self {
            Rule::FarGet => 0,
            Rule::FarLocal => 1,
            Rule::FenceCollect => 2,
            Rule::FenceJobs => 3,
            Rule::FenceRepeats => 4,
            Rule::FenceSpelling => 5,
            Rule::GetNow => 6,
            Rule::Mates => 7,
            Rule::NearGet => 8,
            Rule::NearRemote => 9,
            Rule::Published => 10,
            Rule::Reserved => 11,
            Rule::Rewrite => 12,
            Rule::UnpublishAll => 13,
            Rule::Unpublished => 14,
        }
    }
}

/// A call by which the plan isn't portable for these libraries.
#[derive(Clone, Copy, PartialEq, Eq)]
pub struct Unportable {
    pub call: CallAt,
    pub rule: Rule,
    pub libraries: Libraries,
}

/// How two of them stand in the list.
fn compare(x: &Unportable, y: &Unportable) -> Ordering
    ensures { result ≡ spec.line_cmp x.now y.now }
{
    match x.call.cmp(&y.call) {
        Ordering::Equal => x.rule.number().cmp(&y.rule.number()),
        apart => apart,
    }
}

/// Whether a line is of a call that doesn't spell its set as another one does.
fn is_spelling(line: &Unportable) -> bool
    ensures { result ≡ spec.is_spelling line.now }
{
    matches!(line.rule, Rule::FenceSpelling)
}

/// Whether some line is.
fn any_spelling(lines: &[Unportable]) -> bool
    ensures { result ≡ list_any spec.is_spelling lines.now }
{
    for line in lines {
        if is_spelling(line) {
            return true;
        }
    }
    false
}

/// Whether two of them are the same.
fn is_same(x: &Unportable, y: &Unportable) -> bool
    ensures { result ≡ true → x.now.libraries ≡ y.now.libraries }
{
    *x == *y
}

/// The list of these, in the order of processes, calls and rules.
pub struct UnportableList {
    entries: Vec<Unportable>,
}

// By hand and not derived: so dropping one is a call, and the proof of a function that drops one doesn't take it apart.
impl Drop for UnportableList {
    fn drop(self) {
        let UnportableList { entries: _ } = self;
    }
}

impl Model for UnportableList {
    ghost use Rattle.std.specs.Prelude.{List};
    ghost use Rattle.wire_portable.specs.declared.listed.Unportable.{Unportable as Told};
    ghost use Rattle.wire_portable.specs.Unportable.{EachNamesSome};

    ghost Value = { List Told };

    ghost view = { λ f. f.entries.items };

    ghost invariant = { λ f. EachNamesSome f.entries.items };
}

impl UnportableList {
    /// Nothing yet.
    pub(crate) fn empty(alloc: Global) -> UnportableList
        ensures { result ≡ [] }
    {
        UnportableList {
            entries: Vec::new(alloc),
        }
    }

    /// Each of them names a library.
    pub(crate) fn each_names_some(&self)
        ensures { EachNamesSome self.now }
    {
        let _ = &self.entries;
    }

    /// Puts a call behind the others.
    pub(crate) fn push(&mut self, unportable: Unportable) -> Result<(), AllocError>
        requires { is_empty unportable.libraries ≡ false }
        ensures { OnOk result (self.new ≡ self.old ++ unportable ∷ []) }
    {
        self.entries.push(unportable)?;
        Ok(())
    }

    /// Puts the call of an event behind the others, with the rule that it breaks and the libraries on which it does; not
    /// without a library.
    pub(crate) fn blame(
        &mut self,
        plan: &Plan,
        event: Event,
        rule: Rule,
        libraries: Libraries,
    ) -> Result<(), AllocError>
        requires { event.at < event_count (plan_of plan.now) event.proc.number }
        ensures { OnOk result (AddsUnportable self.old self.new (λ library. has libraries library ≡ false)) }
    {
        if libraries.is_empty() {
            return Ok(());
        }
        self.push(Unportable {
            call: plan.call_of(event),
            rule,
            libraries,
        })
    }

    /// Whether some call breaks a rule on all libraries.
    pub(crate) fn blames_all(&self) -> bool
        ensures { result ≡ true → (library : L) → IsUnblamed library self.now → ⊥ }
    {
        for line in &self.entries {
            if line.libraries.v4 && line.libraries.v5 && line.libraries.v7 {
                return true;
            }
        }
        false
    }

    /// Whether calls over one set spell it in two ways.
    pub(crate) fn has_spellings(&self) -> bool
        ensures { result ≡ list_any spec.is_spelling self.now }
    {
        any_spelling(self.entries.as_slice())
    }

    /// Each once, in the order of processes, calls and rules.
    pub(crate) fn in_order(self) -> UnportableList
        ensures { (library : L) → IsUnblamed library result → IsUnblamed library self }
    {
        let UnportableList { mut entries } = self;
        entries.sort_unstable_by(compare);
        entries.dedup_by(|x, y| is_same(x, y));
        UnportableList { entries }
    }

    /// How many there are.
    pub fn len(&self) -> usize
        ensures { result ≡ length self.now }
    {
        self.entries.len()
    }

    /// Whether there is none.
    pub fn is_empty(&self) -> bool
        ensures { result ≡ (length self.now == 0) }
    {
        self.entries.is_empty()
    }

    /// All of them.
    pub fn as_slice(&self) -> &[Unportable]
        ensures { result.now ≡ self.now }
    {
        self.entries.as_slice()
    }

    /// The one of this number, from 0, if there is one.
    pub fn get(&self, index: usize) -> Option<Unportable>
        ensures there { result ≡ slice_get self.now index }
        ensures named { IfSome result (λ line. is_empty line.libraries ≡ false) }
    {
        self.entries.get(index).copied()
    }
}
