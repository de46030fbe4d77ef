//! What a seat knows, the rule of the table of words, and the kinds of step.

use atomic_table::{Join, Play, Split, TableRule};
use std::collections::LinkedList;
use wire_scripts::Scripts;

/// What the owner of a rank knows: the scripts of the plan, its rank, and of each process a number of
/// events that are done. Only contracts speak of it: no value of it is made.
pub struct Hold {
    pub plan: Scripts,
    pub rank: u32,
    pub known: LinkedList<u64>,
}

/// What a thread steps with: it may own several ranks.
pub(crate) type TableSeat = atomic_table::Seat<(), LinkedList<Hold>>;

/// The rule of the words: they are the cut of a state that a run can come to, and each rank has one owner
/// at most.
pub(crate) struct Positions;

impl TableRule<(), LinkedList<Hold>, Scripts> for Positions {
    ghost use Rattle.wire_board.specs.Positions.{IsKeptBoard, opening_view};

    ghost holds = { IsKeptBoard };

    ghost first = { opening_view };
}

/// A load of any word: what is known of it rises to what is found there.
pub(crate) struct Reads;

impl Play<(), LinkedList<Hold>> for Reads {
    ghost use Rattle.wire_board.specs.Positions.{Learns};

    ghost then = { Learns };
}

/// A store to the owner's word, one up from its place: what is stored there is known from then on.
pub(crate) struct Stores;

impl Play<(), LinkedList<Hold>> for Stores {
    ghost use Rattle.wire_board.specs.Positions.{Stored};

    ghost then = { Stored };
}

/// A split cuts off the first rank. A join puts the other's ranks in front, and leaves the other none.
pub(crate) struct Ranks;

impl Split<LinkedList<Hold>> for Ranks {
    ghost use Rattle.std.specs.Prelude.{take, drop};

    ghost left = { drop 1 };

    ghost right = { take 1 };
}

impl Join<LinkedList<Hold>> for Ranks {
    ghost use Rattle.std.specs.Prelude.{◌++◌, []};

    ghost both = { λ v w. w ++ v };

    ghost spent = { [] };
}
