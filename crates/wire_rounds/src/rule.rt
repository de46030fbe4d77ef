//! What the passes of one deque know of it, and the rule that ties this to what the deque holds.

ghost use Rattle.std.specs.Prelude.{◌≡◌, ◌-◌, ◌++◌, []};
ghost use Rattle.wire_rounds.specs.Views.{deque_view, all_parts, Takes};
ghost use Rattle.wire_rounds.specs.Rules.{Dealt, Puts, TookAll};

use crossbeam_deque::protocol::{Join, Outcome, Protocol, Split};
use crossbeam_deque::{Pass, Stealer, Worker};
use std::alloc::Global;
use std::collections::LinkedList;
use wire_types::Proc;

/// A piece of the work of a round: one process. `round` is the number of the round.
#[derive(Clone, Copy, Debug, PartialEq, Eq)]
pub struct Piece {
    pub rank: Proc,
    pub round: u64,
}

/// What a pass knows of one deque: how many parts it has of the right to know all that was taken, how many pieces had
/// left the deque when it last took one, all that was dealt to the deque, and what the pass took of it. Only contracts
/// speak of it: no value of it is made.
pub struct DequeView {
    pub parts: u128,
    pub below: u64,
    pub dealt: LinkedList<Piece>,
    pub taken: LinkedList<Piece>,
}

/// The rule of a deque: what was dealt to it is what its passes took, and then what it holds, in order.
pub struct DequeRule;

impl Protocol<Piece, DequeView> for DequeRule {
    ghost holds = { Dealt };

    ghost first = { deque_view all_parts 0 [] [] };

    ghost guest = { deque_view 0 0 [] [] };
}

/// A pass is split, and joined again. The part that is cut off knows what was dealt, and has taken nothing.
pub struct Splits;

impl Split<DequeView> for Splits {
    ghost left = { λ v. deque_view (v.parts - 1) v.below v.dealt v.taken };

    ghost right = { λ v. deque_view 1 0 v.dealt [] };
}

impl Join<DequeView> for Splits {
    ghost use Rattle.std.specs.Prelude.{[]};
    ghost use Rattle.wire_rounds.specs.Views.{deque_view};
    ghost use Rattle.wire_rounds.specs.Rules.{joined};

    ghost both = { joined };

    ghost spent = { deque_view 0 0 [] [] };
}

/// A push: one more piece is dealt.
pub struct Deals;

impl Outcome<Piece, DequeView> for Deals {
    ghost then = { Puts };
}

/// A pop or a steal: the pass took the front piece, or found nothing.
pub struct TakesOne;

impl Outcome<Piece, DequeView> for TakesOne {
    ghost then = { Takes };

    ghost empty = { TookAll };
}

/// The end of a deque at which its own worker pushes and pops.
pub type Owner = Worker<Piece, Global, DequeView, DequeRule>;

/// A handle with which others steal from a deque.
pub type Thief = Stealer<Piece, Global, DequeView, DequeRule>;

/// What a pass needs to steal from one deque.
pub type Permit = Pass<Piece, DequeView>;
