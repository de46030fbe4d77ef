//! A plan with the history of its steps.

ghost use Rattle.std.specs.Prelude.{◌≡◌, ◌+◌, ◌<◌, ◌^◌, ◌∷◌, ◌++◌, [], true, Some, None, ℕ, List, length, map};
ghost use Rattle.std.specs.Prelude.{option_map, slice_get, IsTrue, ◌↔◌, IfOk, IfErr};
ghost use Rattle.std.specs.Prelude.{OnOk, OnSome};
ghost use Rattle.wire_runs.specs.Plan.{event_of, process_count};
ghost use Rattle.wire_types.specs.Outcome.{ends_of};
ghost use Rattle.wire_scripts.specs.Planned.{plan_of};
ghost use Rattle.wire_plan.specs.Kinds.{kind_of};
ghost use Rattle.wire_runs.specs.State.{start, next_event, next_kind};
ghost use Rattle.wire_runs.specs.Step.{is_enabled, run, IsInterleaving, IsEnd, reply as answer};
ghost use Rattle.wire_runs.specs.PlainRun.{lowest, plain_from, plain_run};
ghost use Rattle.wire_runs.specs.Races.{IsSettled};
ghost use Rattle.wire_runs.specs.Plan.{event_total};
ghost use Rattle.wire_runs.specs.Ends.{calls_of, given, is_waiting, outcome, row};
ghost use Rattle.wire_core.specs.Course.{plan_in, state_of};
ghost use Rattle.wire_core.specs.Seeing.{replies_in};
ghost use Rattle.wire_core.specs.Ranks.{AreRanksOf};
ghost use Rattle.wire_core.specs.Following.{Follows, NotEnabledAt};

use crate::ends::{add_unanswered, end_at, ends_of_replies};
use crate::keeping::Keeping;
use crate::looks::Looks;
use crate::met::{find_fence, is_complete, note_arrival};
use crate::name_changes::note_name;
use crate::rank::Rank;
use crate::replies::{
    is_shown, reply_to_get, reply_to_lookup, reply_to_publish, reply_to_unpublish,
};
use crate::waits::{Awaited, Waits, what_comes};
use std::alloc::Global;
use std::marker::Model;
use wire_fence::{Arrivals, Fences};
use wire_names::Names;
use wire_plan::{Kind, Plan};
use wire_types::{CallAt, CallEnd, Event, Fault, Outcome, Proc, Reply, Status};

/// A run of a plan: the history of its steps, each of one event of a process that was ready when it came.
pub struct Core<'a> {
    pub(crate) plan: &'a Plan,
    pub(crate) fences: &'a Fences,
    pub(crate) ranks: Vec<Rank>,
    pub(crate) arrivals: Arrivals,
    pub(crate) names: Names,
    pub(crate) waits: Waits,
    pub(crate) looks: Looks,
    pub(crate) keeping: Keeping,
    history: Vec<Proc>,
}

// By hand and not derived: so dropping one is a call, and the proof of a function that drops one doesn't take it apart.
impl Drop for Core<'_> {
    fn drop(self) {
        let Core {
            plan: _,
            fences: _,
            ranks: _,
            arrivals: _,
            names: _,
            waits: _,
            looks: _,
            keeping: _,
            history: _,
        } = self;
    }
}

impl<'a> Model for Core<'a> {
    ghost use Rattle.std.specs.Prelude.{map, vec_capacity};
    ghost use Rattle.wire_core.specs.Course.{Course};
    ghost use Rattle.wire_core.specs.Core.{IsCore};

    ghost Value = { Course };

    ghost view = { λ c. record { scripts = c.plan.now; history = map (λ p. p.number) c.history.items } };

    ghost invariant = { λ c. IsCore c.plan.now c.fences.now (map (λ p. p.number) c.history.items) (vec_capacity c.history) c.ranks.items
        c.arrivals c.names c.waits c.looks c.keeping };
}

/// The ranks of processes that haven't begun.
fn new_ranks(alloc: Global, plan: &Plan) -> Result<Vec<Rank>, Fault>
    ensures ok { IfOk result (λ ranks. AreRanksOf (plan_of plan.now) start ranks.items) }
    ensures err { IfErr result (λ e. e ≡ Fault.Memory) }
{
    let mut ranks = Vec::with_capacity(alloc, plan.process_count() as usize)?;
    for number in 0..plan.process_count() {
        let rank = Rank::new(alloc, plan.events(Proc::new(number)))?;
        ranks.push_reserved(rank);
    }
    Ok(ranks)
}

impl<'a> Core<'a> {
    /// The run of a plan that hasn't begun, with memory for the whole history, and for all that gets bring. The one
    /// fault is `Fault::Memory`.
    pub fn new(alloc: Global, plan: &'a Plan) -> Result<Core<'a>, Fault>
        ensures ok { IfOk result (λ core. core ≡ record { scripts = plan.now; history = [] }) }
        ensures err { IfErr result (λ e. e ≡ Fault.Memory) }
    {
        let fences = plan.fences();
        let ranks = new_ranks(alloc, plan)?;
        let arrivals = Arrivals::new(alloc, fences)?;
        let names = Names::new(alloc, plan.scripts().names().len())?;
        let waits = Waits::new(alloc, plan.process_count())?;
        let events = plan.event_total();
        let nodes = plan.scripts().nodes().len();
        let looks = Looks::new(alloc, plan.process_count(), nodes, events)?;
        let keeping = Keeping::new(alloc, plan)?;
        let history = Vec::with_capacity(alloc, events)?;
        Ok(Core {
            plan,
            fences,
            ranks,
            arrivals,
            names,
            waits,
            looks,
            keeping,
            history,
        })
    }

    /// How many events of a process are done.
    pub(crate) fn done(&self, proc: Proc) -> u32
        ensures { result ≡ (state_of self.now).done proc.number }
    {
        match self.ranks.get(proc.index()) {
            Some(rank) => rank.done,
            None => 0,
        }
    }

    /// The next event of a process: the event with the number of those that are done. The process may have no such
    /// event.
    pub fn next_event(&self, proc: Proc) -> Event
        ensures { event_of result ≡ next_event (state_of self.now) proc.number }
    {
        let at = self.done(proc);
        Event { proc, at }
    }

    /// What the next event of a process is, where it has one.
    pub(crate) fn next_kind(&self, proc: Proc) -> Option<Kind>
        ensures kind { option_map (kind_of self.now.scripts.sets) result ≡ next_kind (plan_of self.now.scripts) (state_of self.now) proc.number }
        ensures fits { OnSome result ((state_of self.now).done proc.number + 1 < 2 ^ 32) }
    {
        let event = self.next_event(proc);
        if event.at < self.plan.event_count(proc) {
            Some(self.plan.kind(event))
        } else {
            None
        }
    }

    /// Whether a process has a next event that may happen now. A process that isn't of the plan has none.
    pub fn ready(&self, proc: Proc) -> bool
        ensures { result ≡ is_enabled (plan_of self.now.scripts) (state_of self.now) proc.number }
    {
        if self.waits.is_noted(proc) {
            return false;
        }
        self.looks_ready(proc)
    }

    /// The same, whatever is noted of the process: by its next event alone.
    fn looks_ready(&self, proc: Proc) -> bool
        ensures { result ≡ is_enabled (plan_of self.now.scripts) (state_of self.now) proc.number }
    {
        match self.next_kind(proc) {
            None => false,
            Some(
                Kind::Put { .. }
                | Kind::Commit
                | Kind::Arrive { .. }
                | Kind::GetNow { .. }
                | Kind::Publish { .. }
                | Kind::Lookup { .. }
                | Kind::Unpublish { .. }
                | Kind::UnpublishAll
                | Kind::Fixed(_),
            ) => true,
            Some(Kind::Leave { .. }) => is_complete(
                self.plan,
                self.fences,
                &self.arrivals,
                self.next_event(proc),
            ),
            Some(Kind::Get { owner, key }) => is_shown(self.see_key(proc, owner, key)),
            Some(Kind::LookupWait { name }) => self.names.lookup(name).is_some(),
        }
    }

    /// The reply of the next event of a process, which is of this kind. An arrival at a fence has none.
    fn reply(&self, proc: Proc, kind: Kind) -> Option<Reply>
        requires { next_kind (plan_of self.now.scripts) (state_of self.now) proc.number ≡ Some (kind_of self.now.scripts.sets kind) }
        ensures { given (plan_of self.now.scripts) (answer (plan_of self.now.scripts) (state_of self.now) (next_event (state_of self.now) proc.number)
            (Some (kind_of self.now.scripts.sets kind))) ≡ replies_in result }
    {
        match kind {
            Kind::Put { .. } | Kind::Commit | Kind::Leave { .. } => Some(Reply::bare(
                Status::Success,
            )),
            Kind::UnpublishAll => Some(Reply::bare(Status::Success)),
            Kind::Arrive { .. } => None,
            Kind::Get { owner, key } => Some(reply_to_get(self.see_key(proc, owner, key))),
            Kind::GetNow { owner, key } => Some(reply_to_get(self.see_key_now(proc, owner, key))),
            Kind::Publish { name } => Some(reply_to_publish(self.names.lookup(name))),
            Kind::Lookup { name } | Kind::LookupWait { name } => Some(reply_to_lookup(
                self.names.lookup(name),
            )),
            Kind::Unpublish { name } => Some(reply_to_unpublish(self.names.lookup(name), proc)),
            Kind::Fixed(reply) => Some(reply),
        }
    }

    /// Takes one event of a process that is ready. It takes no memory and can't fail.
    pub fn step(&mut self, proc: Proc)
        requires { is_enabled (plan_of self.old.scripts) (state_of self.old) proc.number ≡ true }
        ensures { self.new ≡ record { scripts = self.old.scripts; history = self.old.history ++ proc.number ∷ [] } }
    {
        self.look_back(proc);
        self.take(proc);
    }

    /// Takes one event of a process that is ready.
    fn take(&mut self, proc: Proc)
        requires { is_enabled (plan_of self.old.scripts) (state_of self.old) proc.number ≡ true }
        ensures { self.new ≡ record { scripts = self.old.scripts; history = self.old.history ++ proc.number ∷ [] } }
    {
        let Some(kind) = self.next_kind(proc) else {
            unreachable!();
        };
        let event = self.next_event(proc);
        let reply = self.reply(proc, kind);
        let gain = self.gain_of(proc, kind);
        let fence = find_fence(self.plan, self.fences, event, kind);
        let call = self.plan.call_of(event);
        note_arrival(&mut self.arrivals, fence, proc);
        note_name(&mut self.names, kind, call);
        self.waits
            .wake(what_comes(&self.arrivals, fence, kind, proc));
        self.waits.note(proc, Awaited::Unknown);
        self.keeping.note(gain);
        let rank = &mut self.ranks[proc.index()];
        rank.advance(kind, call, reply);
        self.history.push_reserved(proc);
    }

    /// The lowest process that is ready.
    pub fn lowest_ready(&self) -> Option<Proc>
        ensures { option_map (λ p. p.number) result ≡ lowest (plan_of self.now.scripts) (state_of self.now) (process_count (plan_of self.now.scripts)) }
    {
        for number in self.waits.lowest()..self.plan.process_count() {
            let proc = Proc::new(number);
            if self.ready(proc) {
                return Some(proc);
            }
        }
        None
    }

    /// Whether no process is ready.
    pub fn ended(&self) -> bool
        ensures { IsTrue result ↔ IsEnd (plan_of self.now.scripts) (state_of self.now) }
    {
        self.lowest_ready().is_none()
    }

    /// Steps the lowest process that is ready, until none is.
    pub fn run_lowest(&mut self)
        ensures run { self.new ≡ record {
          scripts = self.old.scripts;
          history = self.old.history
              ++ plain_from (plan_of self.old.scripts) (event_total (plan_of self.old.scripts)) (state_of self.old);
        } }
        ensures ended { IsEnd (plan_of self.new.scripts) (state_of self.new) }
    {
        // The steps so far are an interleaving, which bounds those to come.
        let _ = self.history();
        'steps: while let Some(proc) = self.next_lowest() {
            self.step(proc);
        }
    }

    /// Takes these steps, each of one event. Where a process isn't ready when it comes, the fault is
    /// `NotReady` with the number of the step, from 1, and the steps before it stand. Where the run
    /// hadn't begun, the plan is settled and no process is ready afterwards, the state is the one in which
    /// the plain run ends.
    pub fn follow(&mut self, order: &[Proc]) -> Result<(), Fault>
        ensures ok { OnOk result (Follows self.old (map (λ p. p.number) order.now) self.new) }
        ensures err { IfErr result (λ e. NotEnabledAt self.old (map (λ p. p.number) order.now) self.new e) }
        ensures settled { self.old.history ≡ [] → IsSettled (plan_in self.new) → IsEnd (plan_in self.new) (state_of self.new) →
            state_of self.new ≡ run (plan_in self.new) (plain_run (plan_in self.new)) }
    {
        for (step, proc) in order.iter().enumerate() {
            if !self.ready(*proc) {
                return Err(Fault::NotReady(step as u64 + 1));
            }
            self.step(*proc);
        }
        Ok(())
    }

    /// The steps so far.
    pub fn history(&self) -> &[Proc]
        ensures steps { map (λ p. p.number) result.now ≡ self.now.history }
        ensures legal { IsInterleaving (plan_of self.now.scripts) start self.now.history }
    {
        self.history.as_slice()
    }

    /// Whether a process stands at a call and isn't ready.
    fn is_waiting(&self, proc: Proc) -> bool
        ensures { result ≡ is_waiting (plan_of self.now.scripts) (state_of self.now) proc.number }
    {
        self.next_kind(proc).is_some() && !self.ready(proc)
    }

    /// What became of each call of a process of the plan.
    fn ends_of_process(&self, alloc: Global, proc: Proc) -> Result<Vec<CallEnd>, Fault>
        requires { proc.number < process_count (plan_of self.now.scripts) }
        ensures ok { IfOk result (λ ends. ends.items ≡ row (plan_of self.now.scripts) (state_of self.now) proc.number) }
        ensures err { IfErr result (λ e. e ≡ Fault.Memory) }
    {
        let calls = self.plan.scripts().processes()[proc.index()].calls().len();
        let replies = self.ranks[proc.index()].replies.as_slice();
        let mut ends = ends_of_replies(alloc, replies, calls)?;
        add_unanswered(
            &mut ends,
            self.ready(proc),
            calls.saturating_sub(replies.len()),
        )?;
        Ok(ends)
    }

    /// What became of a call of the plan. It takes no memory.
    pub fn end_of(&self, call: CallAt) -> CallEnd
        requires { call.call < length (calls_of (plan_of self.now.scripts) call.proc.number) }
        ensures { slice_get (row (plan_of self.now.scripts) (state_of self.now) call.proc.number) call.call ≡ Some result }
    {
        let replies = self.ranks[call.proc.index()].replies.as_slice();
        end_at(replies, self.ready(call.proc), call.call as usize)
    }

    /// What became of every call, and how many processes wait.
    pub fn outcome(&self, alloc: Global) -> Result<Outcome, Fault>
        ensures ok { IfOk result (λ o. ends_of o ≡ outcome (plan_of self.now.scripts) (state_of self.now)) }
        ensures err { IfErr result (λ e. e ≡ Fault.Memory) }
    {
        let mut rows = Vec::with_capacity(alloc, self.plan.process_count() as usize)?;
        let mut waiting = 0;
        for number in 0..self.plan.process_count() {
            let proc = Proc::new(number);
            let row = self.ends_of_process(alloc, proc)?;
            rows.push_reserved(row);
            if self.is_waiting(proc) {
                waiting += 1;
            }
        }
        Ok(Outcome { rows, waiting })
    }
}
