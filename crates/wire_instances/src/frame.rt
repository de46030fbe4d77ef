//! A pattern with a cast, and what the text of the instance needs to know of its processes.

ghost use Rattle.std.specs.Prelude.{◌≡◌, ◌≤◌, ◌<◌, ◌-◌, ◌++◌, ℕ, IfOk, OnOk, filter, map, nat_lt, true, length};
ghost use Rattle.std.specs.Prelude.{◌+◌, slice_index_or};
ghost use Rattle.std.specs.List.{range_with_len, list_all};
ghost use Rattle.wire_runs.specs.Patterns as plan;
ghost use Rattle.wire_runs.specs.Patterns.{group};
ghost use Rattle.wire_pattern.specs.Instances as spec;
ghost use Rattle.wire_pattern.specs.Instances.{IsCast, process_count, cast_of, job_at, rank_at};
ghost use Rattle.wire_pattern.specs.Views.{who_by, turns_by};
ghost use Rattle.wire_instances.specs.Views.{turn_by, choice_by, cast_by};
ghost use Rattle.wire_instances.specs.Tables.{takes, goes_round, first_of};

use crate::cast::{Cast, Choice, Turn};
use crate::tables::{firsts_of, job_of, ranks_of, roles_by};
use std::alloc::{AllocError, Global};
use std::marker::Model;
use wire_pattern::{Pattern, Turns, Who};

/// Who makes a call, and the process that the turn of a loop is for; outside loops that is the caller.
#[derive(Clone, Copy)]
pub(crate) struct Calling {
    pub(crate) caller: u32,
    pub(crate) each: u32,
}

/// A loop: its caller, the number of the step in the caller's script, and its turns.
#[derive(Clone, Copy)]
pub struct LoopTurns {
    pub caller: u32,
    pub step: usize,
    pub turns: Turns,
}

/// A pattern with a cast of it, and tables of its processes.
pub(crate) struct Frame<'a> {
    pattern: &'a Pattern,
    cast: &'a Cast,
    firsts: Vec<u32>,
    roles: Vec<u32>,
    ranks: Vec<u32>,
}

// By hand and not derived: so dropping one is a call, and the proof of a function that drops one doesn't take it apart.
impl Drop for Frame<'_> {
    fn drop(self) {
        let Frame {
            pattern: _,
            cast: _,
            firsts: _,
            roles: _,
            ranks: _,
        } = self;
    }
}

impl<'a> Model for Frame<'a> {
    ghost use Rattle.wire_instances.specs.Views.{cast_by};
    ghost use Rattle.wire_instances.specs.Tables.{Scene, AreTables};

    ghost Value = { Scene };

    ghost view = { λ f. record { pattern = f.pattern.now; cast = cast_by f.cast.now } };

    ghost invariant = { λ f. AreTables f.pattern.now (cast_by f.cast.now) f.firsts.items f.roles.items f.ranks.items };
}

/// Whether a turn of a loop of `for some` is taken.
fn is_taken(chosen: &[Choice], turn: Turn) -> bool
    ensures { result ≡ spec.is_taken (map choice_by chosen.now) (turn_by turn) }
{
    for choice in chosen {
        if choice.turn == turn {
            return choice.taken;
        }
    }
    true
}

/// Whether a loop goes round these processes: it is `cyclic`, and its caller is one of them.
fn goes_round(round: LoopTurns, first: u32, end: u32) -> bool
    ensures { result ≡ goes_round (turns_by round.turns) first end round.caller }
{
    match round.turns {
        Turns::InOrder | Turns::Chosen => false,
        Turns::Round => first <= round.caller && round.caller < end,
    }
}

impl<'a> Frame<'a> {
    /// The tables for a cast of a pattern.
    pub(crate) fn new(
        alloc: Global,
        pattern: &'a Pattern,
        cast: &'a Cast,
    ) -> Result<Frame<'a>, AllocError>
        requires { IsCast pattern.now (cast_by cast.now) }
        ensures { IfOk result (λ frame. frame ≡ record { pattern = pattern.now; cast = cast_by cast.now }) }
    {
        let declared = pattern.roles();
        let firsts = firsts_of(alloc, cast.sizes.as_slice())?;
        let roles = roles_by(alloc, cast.sizes.as_slice())?;
        let ranks = ranks_of(alloc, declared, roles.as_slice(), pattern.jobs().len())?;
        Ok(Frame {
            pattern,
            cast,
            firsts,
            roles,
            ranks,
        })
    }

    /// The pattern.
    pub(crate) fn pattern(&self) -> &'a Pattern
        ensures { result.now ≡ self.now.pattern }
    {
        self.pattern
    }

    /// The cast. It is one of the pattern.
    pub(crate) fn cast(&self) -> &'a Cast
        ensures value { cast_by result.now ≡ self.now.cast }
        ensures of_pattern { IsCast self.now.pattern self.now.cast }
    {
        self.cast
    }

    /// The processes of a role: from the first up to the second of these, which isn't one of them.
    pub(crate) fn group(&self, role: u32) -> (u32, u32)
        ensures members { range_with_len result.0 (result.1 - result.0)
            ≡ group role (cast_of self.now.cast).roles }
        ensures first { role < length self.now.cast.sizes → result.0 ≡ first_of self.now.cast.sizes role }
        ensures size { result.1 ≡ result.0 + slice_index_or self.now.cast.sizes role 0 }
        ensures there { result.1 ≤ process_count self.now.cast }
    {
        let number = role as usize;
        if number < self.cast.sizes.len() {
            (self.firsts[number], self.firsts[number + 1])
        } else {
            (0, 0)
        }
    }

    /// The role of a process; 0 where there is no such process.
    pub(crate) fn role(&self, process: u32) -> u32
        ensures { result ≡ slice_index_or (cast_of self.now.cast).roles process 0 }
    {
        match self.roles.get(process as usize) {
            Some(role) => *role,
            None => 0,
        }
    }

    /// The number of a process's job.
    pub(crate) fn job(&self, process: u32) -> u32
        requires { process < process_count self.now.cast }
        ensures { result ≡ job_at self.now.pattern self.now.cast process }
    {
        job_of(self.pattern().roles(), self.role(process))
    }

    /// The rank of a process in its job.
    pub(crate) fn rank(&self, process: u32) -> u32
        requires { process < process_count self.now.cast }
        ensures { result ≡ rank_at self.now.pattern self.now.cast process }
    {
        self.ranks[process as usize]
    }

    /// The process that a line names.
    pub(crate) fn who(&self, calling: Calling, who: Who) -> u32
        requires caller { calling.caller < process_count self.now.cast }
        requires each { calling.each < process_count self.now.cast }
        ensures who { result ≡ plan.who (cast_of self.now.cast) calling.caller calling.each (who_by who) }
        ensures there { result < process_count self.now.cast }
    {
        match who {
            Who::Only(role) => {
                let (first, end) = self.group(role);
                if first < end { first } else { 0 }
            }
            Who::Caller => calling.caller,
            Who::Each => calling.each,
        }
    }

    /// Whether a loop that isn't `cyclic` takes a turn for a process.
    fn takes(&self, round: LoopTurns, each: u32) -> bool
        ensures { result ≡ takes (cast_of self.now.cast) round.caller round.step (turns_by round.turns) each }
    {
        if each == round.caller {
            return false;
        }
        match round.turns {
            Turns::InOrder | Turns::Round => true,
            Turns::Chosen => is_taken(
                self.cast.chosen.as_slice(),
                Turn {
                    caller: round.caller,
                    step: round.step,
                    each,
                },
            ),
        }
    }

    /// Appends the turns for processes from one number up to another, which isn't one of them.
    fn add_turns(
        &self,
        out: &mut Vec<u32>,
        round: LoopTurns,
        from: u32,
        to: u32,
    ) -> Result<(), AllocError>
        ensures { OnOk result (out.new.items ≡ out.old.items ++ filter (takes (cast_of self.now.cast) round.caller
            round.step (turns_by round.turns)) (range_with_len from (to - from))) }
    {
        for each in from..to {
            if self.takes(round, each) {
                out.push(each)?;
            }
        }
        Ok(())
    }

    /// The processes for which a loop over a role takes a turn, in order.
    pub(crate) fn turns(&self, round: LoopTurns, role: u32) -> Result<Vec<u32>, AllocError>
        ensures turns { IfOk result (λ v. v.items
            ≡ plan.turns (cast_of self.now.cast) round.caller round.step role (turns_by round.turns)) }
        ensures there { IfOk result (λ v. list_all (λ e. nat_lt e (process_count self.now.cast)) v.items ≡ true) }
    {
        let mut turns = Vec::new(*self.firsts.allocator());
        let (first, end) = self.group(role);
        if goes_round(round, first, end) {
            self.add_turns(&mut turns, round, round.caller + 1, end)?;
            self.add_turns(&mut turns, round, first, round.caller)?;
        } else {
            self.add_turns(&mut turns, round, first, end)?;
        }
        Ok(turns)
    }
}

/// The processes for which a loop over a role takes a turn, in the order of its turns.
pub fn turns_of(
    alloc: Global,
    pattern: &Pattern,
    cast: &Cast,
    round: LoopTurns,
    group: u32,
) -> Result<Vec<u32>, AllocError>
    requires { IsCast pattern.now (cast_by cast.now) }
    ensures { IfOk result (λ v. v.items
        ≡ plan.turns (cast_of (cast_by cast.now)) round.caller round.step group (turns_by round.turns)) }
{
    let frame = Frame::new(alloc, pattern, cast)?;
    frame.turns(round, group)
}
