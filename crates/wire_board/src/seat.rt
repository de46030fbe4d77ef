//! Seats: what the owner of a rank knows of the words.

ghost use Rattle.std.specs.Prelude.{◌≡◌, ◌↔◌, ◌<◌, IsTrue};
ghost use Rattle.wire_runs.specs.Plan.{event_of};
ghost use Rattle.wire_plan.specs.Index.{source_list};
ghost use Rattle.wire_board.specs.Cuts.{procs_of, shows_event, skip_shown};
ghost use Rattle.wire_board.specs.Seats.{SeatIs, place_of, ShowsNext};

use crate::hold::TableSeat;
use crate::shown::{find_next_fate, shows_event, skip_shown};
use std::marker::Model;
use wire_fates::Settled;
use wire_plan::Sources;
use wire_types::{Event, Proc};

/// The owner of one rank: it alone moves the word of that rank. It knows a position of each process: a
/// number of its events that are done. That of its own rank is its place, and it is exact. Contracts see its
/// board, its rank and what it knows.
#[derive(Drop)]
pub struct Seat {
    pub(crate) token: TableSeat,
    pub(crate) rank: Proc,
    pub(crate) known: Vec<u64>,
}

impl Model for Seat {
    ghost use Rattle.std.specs.Prelude.{◌≡◌};
    ghost use Rattle.wire_board.specs.Positions.{scripts_in};
    ghost use Rattle.wire_board.specs.Seats.{SeatIs, IsHeld};

    ghost Value = { SeatIs };

    ghost view = { λ s. record { board = record { id = s.token.table_id; plan = scripts_in s.token.me.0 }; rank = s.rank.number; known = s.known.items } };

    ghost invariant = { λ s. IsHeld s.token.me (record {
      board = record { id = s.token.table_id; plan = scripts_in s.token.me.0 };
      rank = s.rank.number;
      known = s.known.items;
    }) };
}

impl Seat {
    /// The process that it owns.
    pub fn rank(&self) -> Proc
        ensures value { result ≡ record { number = self.now.rank } }
        ensures inside { result.number < procs_of self.now.board.plan }
    {
        self.rank
    }

    /// How many events of its rank are done.
    pub(crate) fn place(&self) -> u64
        ensures { result ≡ place_of self.now }
    {
        self.known[self.rank.index()]
    }

    /// Whether it knows that an event is done.
    pub fn knows(&self, event: Event) -> bool
        ensures { result ≡ shows_event self.now.known (event_of event) }
    {
        shows_event(self.known.as_slice(), event)
    }

    /// These sources from the first one on that it doesn't know to be done; none where it knows each.
    pub fn skip_known<'s>(&self, sources: Sources<'s>) -> Sources<'s>
        ensures { source_list result.previous result.awaited result.arrivals.now
            ≡ skip_shown self.now.known (source_list sources.entry.previous sources.entry.awaited sources.entry.arrivals.now) }
    {
        skip_shown(self.known.as_slice(), sources)
    }

    /// Whether the next event of its rank can happen: there is one, its fate isn't `Waits`, and the
    /// positions that the seat knows show all its sources. It takes no memory, and looks at each source
    /// once. The caller ensures that the seat's board was made of this settled plan. Only tests call this.
    pub fn shows(&self, settled: &Settled) -> bool
        requires { self.now.board.plan ≡ settled.now }
        ensures { IsTrue result ↔ ShowsNext self.now }
    {
        find_next_fate(settled, self.known.as_slice(), self.rank).is_some()
    }
}
