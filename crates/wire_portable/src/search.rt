//! The search for calls by which a plan isn't portable.

ghost use Rattle.std.specs.Prelude.{◌≡◌, ◌≢◌, ◌<◌, ℕ, List, true, false, Some, MatchOption, OnOk, IfOk, IsOkUnless, IsTrue, map};
ghost use Rattle.wire_scripts.specs.Planned.{plan_of};
ghost use Rattle.wire_types.specs.declared.Scope.{Scope};
ghost use Rattle.wire_runs.specs.Plan as runs;
ghost use Rattle.wire_runs.specs.Plan.{Get, GetNow, Publish, Put, Unpublish, kind, event_count, event_of, process_count, same_node};
ghost use Rattle.wire_runs.specs.Races.{IsSettled};
ghost use Rattle.wire_library_laws.specs.Portable.{IsAsked};
ghost use Rattle.wire_portable.specs.Gets.{place_in, AreOpenGets, AreUnreadBeside, IsGetTable};
ghost use Rattle.wire_portable.specs.Phases.{ArePhases, IsThereUnlessEnded};
ghost use Rattle.wire_portable.specs.declared.libraries.Library.{Library as L};
ghost use Rattle.wire_portable.specs.Adding.{AddsUnportable};
ghost use Rattle.wire_portable.specs.Judging.{IsNoRewrite};
ghost use Rattle.wire_portable.specs.Kept.{IsNowFine, IsCallFine, IsEventFine, AreFineTo, AreAllFine};
ghost use Rattle.wire_portable.specs.Libraries.{family_of, has};
ghost use Rattle.wire_portable.specs.Named.{FindsFree, FindsOwnName};
ghost use Rattle.wire_portable.specs.Nows.{IsLiveNow, IsNearNowFine, IsFarNowFine};
ghost use Rattle.wire_portable.specs.Searched.{plan_in, words_in, MayBe, may_be, HasNoMate, IsNearFine, IsFarFine, IsGetFine};
ghost use Rattle.wire_portable.specs.Unportable.{AreUnportable, AreUnportableAnywhere, AreUnportableOn, EachNamesSome, IsUnblamed};

use crate::asked::is_asked;
use crate::fences::{SetTable, add_fence, all_if};
use crate::gets::{GetTable, ReadWays};
use crate::hearing::Hearing;
use crate::judge::{Judge, Key};
use crate::libraries::Libraries;
use crate::listed::{Rule, UnportableList};
use crate::mates::{by_phases, mates, reads_of};
use crate::names::{is_missed, is_published, stuck_lookups};
use crate::nows::sees_remote;
use crate::own_calls::now_anywhere;
use crate::phases::Phases;
use crate::puts::is_put_again;
use crate::reserved::{is_known, is_unpublish};
use crate::spelt_apart::{Ruled, all_blamed, as_spelt};
use crate::sure::{Beside, far_now};
use crate::waiting::{far_get, near_get, outside};
use std::alloc::{AllocError, Global};
use std::marker::Model;
use wire_happens_before::MarkedPlan;
use wire_plan::Kind;
use wire_spelling::Spelling;
use wire_types::{Event, Fault, Proc};

/// What the search looks things up in.
#[derive(Drop)]
struct Search<'a> {
    marked: &'a MarkedPlan<'a>,
    judge: &'a Judge<'a>,
    gets: Option<&'a GetTable<'a>>,
    phases: &'a Phases,
    hearing: &'a Hearing,
    sets: &'a SetTable,
    spelling: &'a Spelling,
    settled: bool,
    stuck: &'a [Event],
    anywhere: bool,
}

impl<'a> Model for Search<'a> {
    ghost use Rattle.std.specs.Prelude.{◌≡◌, true, map, MatchOption};
    ghost use Rattle.wire_scripts.specs.Scripts.{IsSound};
    ghost use Rattle.wire_scripts.specs.Planned.{plan_of};
    ghost use Rattle.wire_runs.specs.Plan.{event_of};
    ghost use Rattle.wire_runs.specs.Races.{IsSettled};
    ghost use Rattle.wire_portable.specs.Fences.{TellsJobs};
    ghost use Rattle.wire_portable.specs.Gets.{IsGetTable};
    ghost use Rattle.wire_portable.specs.Named.{AreNever};
    ghost use Rattle.wire_portable.specs.Phases.{ArePhases};
    ghost use Rattle.wire_portable.specs.Searched.{Searched};

    ghost Value = { Searched };

    ghost view = { λ s. record { scripts = s.marked.now; rows = s.spelling.now; sets = s.sets.now; anywhere = s.anywhere } };

    ghost invariant = { λ s. (s.judge.now ≡ s.marked.now)
        × MatchOption s.gets (Unit {0}) (λ g. IsGetTable s.anywhere (plan_of s.marked.now) g.now)
        × IsSound s.marked.now
        × TellsJobs s.marked.now s.sets.now
        × (s.settled ≡ true → IsSettled (plan_of s.marked.now))
        × AreNever (plan_of s.marked.now) (map event_of s.stuck.now)
        × ArePhases (plan_of s.marked.now) s.phases.now };
}

impl Search<'_> {
    /// Whether a process is on an owner's node.
    fn is_there(&self, owner: Proc, proc: Proc) -> bool
        requires owner { owner.number < process_count (plan_in self.now) }
        requires proc { proc.number < process_count (plan_in self.now) }
        ensures { result ≡ same_node (plan_in self.now) owner.number proc.number }
    {
        let plan = self.marked.plan();
        plan.node_of(owner) == plan.node_of(proc)
    }

    /// Whether a process may be on an owner's node.
    fn is_near(&self, owner: Proc, proc: Proc) -> bool
        requires owner { owner.number < process_count (plan_in self.now) }
        requires proc { proc.number < process_count (plan_in self.now) }
        ensures { result ≡ may_be self.now.anywhere (plan_in self.now) true owner.number proc.number }
    {
        self.anywhere || self.is_there(owner, proc)
    }

    /// Whether it may be on another.
    fn is_far(&self, owner: Proc, proc: Proc) -> bool
        requires owner { owner.number < process_count (plan_in self.now) }
        requires proc { proc.number < process_count (plan_in self.now) }
        ensures { result ≡ may_be self.now.anywhere (plan_in self.now) false owner.number proc.number }
    {
        self.anywhere || !self.is_there(owner, proc)
    }

    /// Adds what a get breaks on the owner's node, if its process may be there.
    fn add_near_get(
        &self,
        found: &mut UnportableList,
        get: Event,
        asked: Key,
    ) -> Result<(), AllocError>
        requires is { kind (plan_in self.now) (event_of get) ≡ Some (Get asked.owner.number asked.key) }
        requires owner { asked.owner.number < process_count (plan_in self.now) }
        ensures { OnOk result (AddsUnportable found.old found.new (λ library. MayBe self.now.anywhere (plan_in self.now) true asked.owner.number get.proc.number →
            IsNearFine library (plan_in self.now) asked.owner.number asked.key (event_of get))) }
    {
        if !self.is_near(asked.owner, get.proc) {
            return Ok(());
        }
        let plan = self.marked.plan();
        found.blame(plan, get, Rule::NearGet, near_get(self.judge, get, asked))?;
        found.blame(
            plan,
            get,
            Rule::NearRemote,
            outside(self.judge, asked, true),
        )
    }

    /// The gets of an owner's keys that are made where a process is, in process order; `None` where no call asks for
    /// them.
    fn beside(&self, owner: Proc, proc: Proc) -> Option<&[Event]>
        requires { proc.number < process_count (plan_in self.now) }
        ensures { MatchOption result (Unit {0}) (λ gets. AreOpenGets self.now.anywhere (plan_in self.now) owner.number
            (place_in self.now.anywhere (plan_in self.now) proc.number) (map event_of gets.now)) }
    {
        match self.gets {
            Some(table) => Some(table.beside(self.marked, owner, proc)),
            None => None,
        }
    }

    /// How many events of the owner bring none of the keys that those of these gets read that can be under way at once
    /// with this one.
    fn first_beside(&self, get: Event, asked: Key) -> u32
        requires is { kind (plan_in self.now) (event_of get) ≡ Some (Get asked.owner.number asked.key) }
        requires asked { IsAsked (plan_in self.now) (event_of get) }
        ensures { (places : List runs.Event) → AreOpenGets self.now.anywhere (plan_in self.now) asked.owner.number
            (place_in self.now.anywhere (plan_in self.now) get.proc.number) places
            → AreUnreadBeside (plan_in self.now) asked.owner.number result (event_of get) places }
    {
        match self.gets {
            Some(table) => table.first_beside(self.marked, get, asked),
            None => 0,
        }
    }

    /// Whether the commit that stores a key is of an earlier phase than a get.
    fn is_stored_earlier(&self, get: Event, asked: Key) -> bool
        requires is { kind (plan_in self.now) (event_of get) ≡ Some (Get asked.owner.number asked.key) }
        requires asked { IsAsked (plan_in self.now) (event_of get) }
        ensures { IsTrue result → IsThereUnlessEnded (plan_in self.now) asked.owner.number asked.key (event_of get) }
    {
        let plan = self.marked.plan();
        self.phases.is_stored_earlier(plan, get, asked)
    }

    /// The libraries on which a get may get the answer of another one of its node, which lacks its key.
    fn with_mates(&self, get: Event, asked: Key) -> Libraries
        requires is { kind (plan_in self.now) (event_of get) ≡ Some (Get asked.owner.number asked.key) }
        requires asked { IsAsked (plan_in self.now) (event_of get) }
        ensures { (library : L) → has result library ≡ false →
            HasNoMate self.now.anywhere library (plan_in self.now) asked.owner.number asked.key (event_of get) }
    {
        if self.is_stored_earlier(get, asked) {
            return Libraries::none();
        }
        let first = self.first_beside(get, asked);
        match self.beside(asked.owner, get.proc) {
            Some(gets) => mates(self.judge, gets, first, get, asked),
            None => Libraries::all(),
        }
    }

    /// Adds what a get breaks on another node, if its process may be there.
    fn add_far_get(
        &self,
        found: &mut UnportableList,
        get: Event,
        asked: Key,
    ) -> Result<(), AllocError>
        requires is { kind (plan_in self.now) (event_of get) ≡ Some (Get asked.owner.number asked.key) }
        requires asked { IsAsked (plan_in self.now) (event_of get) }
        requires owner { asked.owner.number < process_count (plan_in self.now) }
        ensures { OnOk result (AddsUnportable found.old found.new (λ library. MayBe self.now.anywhere (plan_in self.now) false asked.owner.number get.proc.number →
            IsFarFine self.now.anywhere library (plan_in self.now) asked.owner.number asked.key (event_of get))) }
    {
        if !self.is_far(asked.owner, get.proc) {
            return Ok(());
        }
        let plan = self.marked.plan();
        found.blame(plan, get, Rule::FarLocal, outside(self.judge, asked, false))?;
        let Some(_) = self.judge.last_lacking(asked) else {
            return Ok(());
        };
        found.blame(plan, get, Rule::FarGet, far_get(self.judge, get, asked))?;
        found.blame(plan, get, Rule::Mates, self.with_mates(get, asked))
    }

    /// Adds what a get of another process's key breaks.
    fn add_get(&self, found: &mut UnportableList, get: Event, asked: Key) -> Result<(), AllocError>
        requires is { kind (plan_in self.now) (event_of get) ≡ Some (Get asked.owner.number asked.key) }
        requires asked { IsAsked (plan_in self.now) (event_of get) }
        requires owner { asked.owner.number < process_count (plan_in self.now) }
        ensures { OnOk result (AddsUnportable found.old found.new (λ library.
            IsGetFine self.now.anywhere library (plan_in self.now) asked.owner.number asked.key (event_of get))) }
    {
        self.add_near_get(found, get, asked)?;
        self.add_far_get(found, get, asked)
    }

    /// Adds what a get-now breaks on the owner's node, where its process may be there.
    fn add_near_now(
        &self,
        found: &mut UnportableList,
        get: Event,
        asked: Key,
    ) -> Result<(), AllocError>
        requires now { IsLiveNow (plan_in self.now) asked.owner.number asked.key (event_of get) }
        requires owner { asked.owner.number < process_count (plan_in self.now) }
        ensures { OnOk result (AddsUnportable found.old found.new (λ library. MayBe self.now.anywhere (plan_in self.now) true asked.owner.number get.proc.number →
            IsNearNowFine (plan_in self.now) asked.owner.number asked.key (event_of get))) }
    {
        if !self.is_near(asked.owner, get.proc) {
            return Ok(());
        }
        if !sees_remote(self.judge, get, asked) {
            return Ok(());
        }
        let all = Libraries::all();
        found.blame(self.marked.plan(), get, Rule::NearRemote, all)?;
        Ok(())
    }

    /// The libraries on which a get-now may see on another node what it doesn't see by the rules, or the other way
    /// round.
    fn unsure_now(&self, get: Event, asked: Key) -> Libraries
        requires now { IsLiveNow (plan_in self.now) asked.owner.number asked.key (event_of get) }
        requires far { MayBe self.now.anywhere (plan_in self.now) false asked.owner.number get.proc.number }
        ensures { (library : L) → has result library ≡ false →
            IsFarNowFine self.now.anywhere (family_of library) (words_in self.now library) (plan_in self.now) asked.owner.number asked.key (event_of get) }
    {
        let Some(gets) = self.beside(asked.owner, get.proc) else {
            return Libraries::all();
        };
        if self.anywhere {
            now_anywhere(self.judge, gets, get, asked)
        } else {
            let beside = Beside {
                gets,
                table: self.gets,
                hearing: self.hearing,
            };
            far_now(self.judge, beside, get, asked)
        }
    }

    /// Adds what a get-now breaks on another node, where its process may be there.
    fn add_far_now(
        &self,
        found: &mut UnportableList,
        get: Event,
        asked: Key,
    ) -> Result<(), AllocError>
        requires now { IsLiveNow (plan_in self.now) asked.owner.number asked.key (event_of get) }
        requires owner { asked.owner.number < process_count (plan_in self.now) }
        ensures { OnOk result (AddsUnportable found.old found.new (λ library. MayBe self.now.anywhere (plan_in self.now) false asked.owner.number get.proc.number →
            IsFarNowFine self.now.anywhere (family_of library) (words_in self.now library) (plan_in self.now) asked.owner.number asked.key (event_of get))) }
    {
        if !self.is_far(asked.owner, get.proc) {
            return Ok(());
        }
        let libraries = self.unsure_now(get, asked);
        found.blame(self.marked.plan(), get, Rule::GetNow, libraries)?;
        Ok(())
    }

    /// Adds what a get-now of another process's key breaks.
    fn add_now(&self, found: &mut UnportableList, get: Event, asked: Key) -> Result<(), AllocError>
        requires is { kind (plan_in self.now) (event_of get) ≡ Some (GetNow asked.owner.number asked.key) }
        requires other { get.proc.number ≢ asked.owner.number }
        requires asked { IsAsked (plan_in self.now) (event_of get) }
        requires owner { asked.owner.number < process_count (plan_in self.now) }
        ensures { OnOk result (AddsUnportable found.old found.new (λ library. IsNowFine self.now library asked.owner.number asked.key (event_of get))) }
    {
        self.add_near_now(found, get, asked)?;
        self.add_far_now(found, get, asked)?;
        Ok(())
    }

    /// Adds what a put breaks.
    fn add_put(&self, found: &mut UnportableList, put: Event, key: u32) -> Result<(), AllocError>
        requires { (scope : Scope) × (kind (plan_in self.now) (event_of put) ≡ Some (Put key scope)) }
        ensures { OnOk result (AddsUnportable found.old found.new (λ library. IsNoRewrite (plan_in self.now) (event_of put))) }
    {
        let plan = self.marked.plan();
        let again = all_if(is_put_again(plan, put, key));
        found.blame(plan, put, Rule::Rewrite, again)
    }

    /// Adds what a call of a reserved key breaks that libraries don't answer as the plan says.
    fn add_untold(&self, found: &mut UnportableList, event: Event) -> Result<(), AllocError>
        requires { event.at < event_count (plan_in self.now) event.proc.number }
        ensures { OnOk result (AddsUnportable found.old found.new (λ library. (words_in self.now library).known (event_of event) ≡ true)) }
    {
        let plan = self.marked.plan();
        if is_known(plan.scripts(), plan.call_of(event)) {
            return Ok(());
        }
        found.blame(plan, event, Rule::Reserved, Libraries::all())
    }

    /// Adds what a call of a reserved key or name breaks.
    fn add_fixed(&self, found: &mut UnportableList, event: Event) -> Result<(), AllocError>
        requires { event.at < event_count (plan_in self.now) event.proc.number }
        ensures { OnOk result (AddsUnportable found.old found.new (λ library. (words_in self.now library).known (event_of event) ≡ true)) }
    {
        self.add_untold(found, event)?;
        let plan = self.marked.plan();
        if self.settled || !is_unpublish(plan.scripts(), plan.call_of(event)) {
            return Ok(());
        }
        found.blame(plan, event, Rule::Unpublished, Libraries::all())
    }

    /// Adds what a publish breaks.
    fn add_publish(
        &self,
        found: &mut UnportableList,
        event: Event,
        name: u32,
    ) -> Result<(), AllocError>
        requires there { event.at < event_count (plan_in self.now) event.proc.number }
        requires is { kind (plan_in self.now) (event_of event) ≡ Some (Publish name) }
        ensures { OnOk result (AddsUnportable found.old found.new (λ library. FindsFree (plan_in self.now) name (event_of event))) }
    {
        if !is_published(self.marked, self.settled, self.stuck, event, name) {
            return Ok(());
        }
        let plan = self.marked.plan();
        found.blame(plan, event, Rule::Published, Libraries::all())
    }

    /// Adds what an unpublish breaks.
    fn add_unpublish(&self, found: &mut UnportableList, event: Event) -> Result<(), AllocError>
        requires { event.at < event_count (plan_in self.now) event.proc.number }
        ensures { OnOk result (AddsUnportable found.old found.new (λ library. (name : ℕ) → kind (plan_in self.now) (event_of event) ≡ Some (Unpublish name) →
            FindsOwnName (plan_in self.now) name (event_of event))) }
    {
        if !is_missed(self.marked, self.settled, self.stuck, event) {
            return Ok(());
        }
        let plan = self.marked.plan();
        found.blame(plan, event, Rule::Unpublished, Libraries::all())
    }

    /// Adds what a call breaks that takes away all names of its process.
    fn add_sweep(&self, found: &mut UnportableList, event: Event) -> Result<(), AllocError>
        requires { event.at < event_count (plan_in self.now) event.proc.number }
        ensures { OnOk result (AddsUnportable found.old found.new (λ library. (family_of library).star ≡ true)) }
    {
        let plan = self.marked.plan();
        found.blame(plan, event, Rule::UnpublishAll, Libraries::all())
    }

    /// Adds what a get breaks, if it is of another process's key.
    fn add_read(&self, found: &mut UnportableList, get: Event, asked: Key) -> Result<(), AllocError>
        requires is { kind (plan_in self.now) (event_of get) ≡ Some (Get asked.owner.number asked.key) }
        requires asked { IsAsked (plan_in self.now) (event_of get) }
        ensures { OnOk result (AddsUnportable found.old found.new (λ library.
            IsCallFine self.now library (event_of get) (Some (Get asked.owner.number asked.key)))) }
    {
        if asked.owner.number == get.proc.number {
            return Ok(());
        }
        // Scripts are sound, so the owner is one of the processes.
        let _ = self.marked.plan().scripts();
        self.add_get(found, get, asked)
    }

    /// Adds what a get-now breaks, if it is of another process's key.
    fn add_read_now(
        &self,
        found: &mut UnportableList,
        get: Event,
        asked: Key,
    ) -> Result<(), AllocError>
        requires is { kind (plan_in self.now) (event_of get) ≡ Some (GetNow asked.owner.number asked.key) }
        requires asked { IsAsked (plan_in self.now) (event_of get) }
        ensures { OnOk result (AddsUnportable found.old found.new (λ library.
            IsCallFine self.now library (event_of get) (Some (GetNow asked.owner.number asked.key)))) }
    {
        if asked.owner.number == get.proc.number {
            return Ok(());
        }
        // Scripts are sound, so the owner is one of the processes.
        let _ = self.marked.plan().scripts();
        self.add_now(found, get, asked)
    }

    /// Adds what a call that comes to be made breaks.
    fn add_asked(&self, found: &mut UnportableList, event: Event) -> Result<(), AllocError>
        requires there { event.at < event_count (plan_in self.now) event.proc.number }
        requires asked { IsAsked (plan_in self.now) (event_of event) }
        ensures { OnOk result (AddsUnportable found.old found.new (λ library.
            IsCallFine self.now library (event_of event) (kind (plan_in self.now) (event_of event)))) }
    {
        match self.marked.plan().kind(event) {
            Kind::Get { owner, key } => self.add_read(found, event, Key { owner, key }),
            Kind::GetNow { owner, key } => self.add_read_now(found, event, Key { owner, key }),
            Kind::Publish { name } => self.add_publish(found, event, name),
            Kind::Unpublish { .. } => self.add_unpublish(found, event),
            Kind::UnpublishAll => self.add_sweep(found, event),
            Kind::Fixed(_) => self.add_fixed(found, event),
            Kind::Put { .. } | Kind::Commit | Kind::Arrive { .. } | Kind::Leave { .. } => Ok(()),
            Kind::Lookup { .. } | Kind::LookupWait { .. } => Ok(()),
        }
    }

    /// Adds what a call breaks, if it comes to be made.
    fn add_call(&self, found: &mut UnportableList, event: Event) -> Result<(), AllocError>
        requires { event.at < event_count (plan_in self.now) event.proc.number }
        ensures { OnOk result (AddsUnportable found.old found.new (λ library. IsAsked (plan_in self.now) (event_of event) →
            IsCallFine self.now library (event_of event) (kind (plan_in self.now) (event_of event)))) }
    {
        if !is_asked(self.marked, event) {
            return Ok(());
        }
        self.add_asked(found, event)
    }

    /// Adds what an event of the plan breaks.
    fn add_event(&self, found: &mut UnportableList, event: Event) -> Result<(), AllocError>
        requires { event.at < event_count (plan_in self.now) event.proc.number }
        ensures { OnOk result (AddsUnportable found.old found.new (λ library. IsEventFine self.now library (event_of event))) }
    {
        match self.marked.plan().kind(event) {
            Kind::Put { key, .. } => self.add_put(found, event, key),
            Kind::Arrive { .. } => add_fence(self.marked, self.spelling, self.sets, found, event),
            Kind::Get { .. }
            | Kind::GetNow { .. }
            | Kind::Fixed(_)
            | Kind::Publish { .. }
            | Kind::Unpublish { .. }
            | Kind::UnpublishAll => self.add_call(found, event),
            Kind::Commit | Kind::Leave { .. } => Ok(()),
            Kind::Lookup { .. } | Kind::LookupWait { .. } => Ok(()),
        }
    }

    /// Adds what the events of a process break.
    fn add_process(&self, found: &mut UnportableList, proc: Proc) -> Result<(), AllocError>
        ensures { OnOk result (AddsUnportable found.old found.new (λ library.
            AreFineTo self.now library proc.number (event_count (plan_in self.now) proc.number))) }
    {
        for at in 0..self.marked.plan().event_count(proc) {
            self.add_event(found, Event { proc, at })?;
        }
        Ok(())
    }

    /// Adds what all events break.
    fn add_all(&self, found: &mut UnportableList) -> Result<(), AllocError>
        ensures { OnOk result (AddsUnportable found.old found.new (AreAllFine self.now)) }
    {
        for number in 0..self.marked.plan().process_count() {
            self.add_process(found, Proc { number })?;
        }
        Ok(())
    }

    /// The lines by the rules, in their order.
    fn ruled_lines(&self, alloc: Global) -> Result<UnportableList, AllocError>
        ensures { IfOk result (λ lines. (library : L) → IsUnblamed library lines → AreAllFine self.now library) }
    {
        let mut found = UnportableList::empty(alloc);
        self.add_all(&mut found)?;
        Ok(found.in_order())
    }

    /// All lines, in their order: where calls over one set spell it in two ways, those of calls that come then.
    fn all_lines(&self, alloc: Global) -> Result<UnportableList, AllocError>
        ensures { IfOk result (λ lines. (library : L) → IsUnblamed library lines → AreAllFine self.now library) }
    {
        let lines = self.ruled_lines(alloc)?;
        if !lines.has_spellings() {
            return Ok(lines);
        }
        let ruled = Ruled {
            lines: &lines,
            anywhere: self.anywhere,
        };
        let found = as_spelt(alloc, self.marked, self.spelling, self.sets, ruled)?;
        Ok(all_blamed(found, lines))
    }
}

/// Whether phases matter to how keys are read: to gets whose keys come late, and to get-nows beside gets.
fn ask_for_phases(reads: ReadWays) -> bool {
    reads.late || (reads.gets && reads.nows)
}

/// The phases of a plan, where they matter. Else all is one phase.
fn phases_of(alloc: Global, marked: &MarkedPlan<'_>, reads: ReadWays) -> Result<Phases, AllocError>
    ensures { IfOk result (λ phases. ArePhases (plan_of marked.now) phases) }
{
    if ask_for_phases(reads) {
        Phases::of(alloc, marked.plan())
    } else {
        Ok(Phases::one(alloc))
    }
}

/// The gets of a plan, where those beside some call are asked for: beside a get-now, or a get that may share its request
/// with one that is answered too early.
fn gets_of<'a>(
    alloc: Global,
    marked: &MarkedPlan<'_>,
    phases: &'a Phases,
    reads: ReadWays,
    anywhere: bool,
) -> Result<Option<GetTable<'a>>, AllocError>
    requires { ArePhases (plan_of marked.now) phases.now }
    ensures { IfOk result (λ gets. MatchOption gets (Unit {0}) (λ g. IsGetTable anywhere (plan_of marked.now) g)) }
{
    if !reads.late && !reads.nows {
        return Ok(None);
    }
    let gets = GetTable::of(alloc, marked, phases, reads, anywhere)?;
    Ok(Some(gets))
}

/// What processes hear of each other, for gets beside get-nows.
fn hearing_of(
    alloc: Global,
    marked: &MarkedPlan<'_>,
    gets: Option<&GetTable<'_>>,
    reads: ReadWays,
) -> Result<Hearing, AllocError> {
    match gets {
        Some(table) if reads.nows => table.hearing(alloc, marked.plan()),
        _ => Ok(Hearing::empty(alloc)),
    }
}

/// The lines of a plan, on its nodes or wherever its processes are.
fn lines_of(
    alloc: Global,
    marked: &MarkedPlan<'_>,
    spelling: &Spelling,
    settled: bool,
    anywhere: bool,
) -> Result<UnportableList, AllocError>
    requires { settled ≡ true → IsSettled (plan_of marked.now) }
    ensures { IfOk result (AreUnportableOn anywhere marked.now spelling.now) }
{
    // Scripts are sound.
    let _ = marked.plan().scripts();
    let judge = Judge::of(alloc, marked)?;
    let first_reads = reads_of(&judge);
    let phases = phases_of(alloc, marked, first_reads)?;
    let reads = by_phases(&judge, &phases, first_reads);
    let gets = gets_of(alloc, marked, &phases, reads, anywhere)?;
    let hearing = hearing_of(alloc, marked, gets.as_ref(), reads)?;
    let sets = SetTable::of(alloc, marked, spelling)?;
    let stuck = stuck_lookups(alloc, marked, settled)?;
    let search = Search {
        marked,
        judge: &judge,
        gets: gets.as_ref(),
        phases: &phases,
        hearing: &hearing,
        sets: &sets,
        spelling,
        settled,
        stuck: stuck.as_slice(),
        anywhere,
    };
    search.all_lines(alloc)
}

/// The calls of a plan by which it isn't portable, each once by each rule, in the order of processes, calls and rules
/// (that they are these, once and in order, is only tested), with the libraries for which it isn't. For a library that
/// none of them has, the plan is portable.
/// `settled` says that nothing is found in the plan: then it is told by the plain run whether a name is there. The one
/// fault is `Fault::Memory`.
pub fn find_unportable(
    alloc: Global,
    marked: &MarkedPlan<'_>,
    spelling: &Spelling,
    settled: bool,
) -> Result<UnportableList, Fault>
    requires { settled ≡ true → IsSettled (plan_of marked.now) }
    ensures ok { IfOk result (AreUnportable marked.now spelling.now) }
    ensures named { IfOk result EachNamesSome }
    ensures memory { IsOkUnless result Fault.Memory }
{
    let found = lines_of(alloc, marked, spelling, settled, false)?;
    found.each_names_some();
    Ok(found)
}

/// The same wherever the plan's processes are: for a library that none of these calls has, each placing of the plan is
/// portable. `settled` says that nothing is found in the plan as it is written. The one fault is `Fault::Memory`.
pub fn find_unportable_anywhere(
    alloc: Global,
    marked: &MarkedPlan<'_>,
    spelling: &Spelling,
    settled: bool,
) -> Result<UnportableList, Fault>
    requires { settled ≡ true → IsSettled (plan_of marked.now) }
    ensures ok { IfOk result (AreUnportableAnywhere marked.now spelling.now) }
    ensures named { IfOk result EachNamesSome }
    ensures memory { IsOkUnless result Fault.Memory }
{
    let found = lines_of(alloc, marked, spelling, settled, true)?;
    found.each_names_some();
    Ok(found)
}
