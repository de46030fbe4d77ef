//! The words, and what seats do with them.

ghost use Rattle.std.specs.Prelude.{◌≡◌, ℕ, ◌+◌, ◌<◌, ◌≤◌, All, [], length, map, replicate, IfOk, OnOk, IsOkUnless};
ghost use Rattle.std.specs.Prelude.{MatchOption, slice_index, slice_set};
ghost use Rattle.std.specs.Mem.Slots.{slots_items, slots_len, IsFull};
ghost use Rattle.wire_types.specs.declared.Fault.TheVariants.{Memory};
ghost use Rattle.wire_scripts.specs.Planned.{plan_of};
ghost use Rattle.wire_board.specs.Cuts.{procs_of, IsReachedCut};
ghost use Rattle.wire_board.specs.Seats.{place_of, hold_of, opening_seat, opening_seats, ranks_from, HasToken, ShowsNext};
ghost use Rattle.wire_board.specs.Seats.{ImpliesNext, IsTrueOf};

use crate::hold::{Hold, Positions, Ranks, Reads, Stores, TableSeat};
use crate::seat::Seat;
use atomic_table::{Closed, Table};
use std::alloc::{AllocError, Global};
use std::collections::LinkedList;
use std::marker::Model;
use wire_fates::Settled;
use wire_plan::Plan;
use wire_scripts::Scripts;
use wire_types::{Fault, Proc};

/// One atomic word for each process: the number of its events that are done. Between any two steps of any
/// threads the words are the cut of a state that a run can come to. Each store is one step of a run (the law
/// `stores_are_steps`). Contracts see which board it is, and the settled plan of which it was made.
#[derive(Drop)]
pub struct Board {
    table: Table<(), LinkedList<Hold>, Scripts, Positions, Global>,
}

impl Model for Board {
    ghost use Rattle.std.specs.Prelude.{◌≡◌};
    ghost use Rattle.wire_board.specs.Cuts.{procs_of};
    ghost use Rattle.wire_board.specs.Seats.{BoardIs};

    ghost Value = { BoardIs };

    ghost view = { λ b. record { id = b.table.shared.table_id; plan = b.table.shared.key } };

    ghost invariant = { λ b. (b.table.shared.table_id.words ≡ procs_of b.table.shared.key) × (b.table.shared.table_id.slots ≡ 0) };
}

/// So many zeros.
fn zeros(alloc: Global, count: u32) -> Result<Vec<u64>, AllocError>
    ensures { IfOk result (λ v. v.items ≡ replicate count 0) }
{
    vec![in alloc; 0; count as usize]
}

impl Board {
    /// A board for a settled plan, and a seat for each rank, in process order: no seat without ranks. No
    /// event is done yet. The one fault is `Fault::Memory`.
    pub fn new(alloc: Global, settled: &Settled) -> Result<(Board, Vec<Seat>), Fault>
        ensures plan { IfOk result (λ made. made.0.plan ≡ settled.now) }
        ensures seats { IfOk result (λ made. made.1.items ≡ opening_seats made.0) }
        ensures memory { IsOkUnless result Memory }
    {
        let plan = settled.plan();
        let (board, first) = Board::make(alloc, plan)?;
        let seats = board.deal(alloc, plan, first)?;
        Ok((board, seats))
    }

    /// A board, and a first token, which owns each rank.
    fn make(alloc: Global, plan: &Plan) -> Result<(Board, TableSeat), AllocError>
        ensures plan { IfOk result (λ made. made.0.plan ≡ plan.now) }
        ensures first { IfOk result (λ made. HasToken made.0 (ranks_from made.0 0) made.1.table_id made.1.me) }
    {
        let words = zeros(alloc, plan.process_count())?;
        let (table, first) = Table::of_words(alloc, &words, plan.scripts())?;
        Ok((Board { table }, first))
    }

    /// Cuts one seat for each rank off the first token.
    fn deal(
        &self,
        alloc: Global,
        plan: &Plan,
        mut first: TableSeat,
    ) -> Result<Vec<Seat>, AllocError>
        requires plan { self.now.plan ≡ plan.now }
        requires first { HasToken self.now (ranks_from self.now 0) first.table_id first.me }
        ensures { IfOk result (λ seats. seats.items ≡ opening_seats self.now) }
    {
        let count = plan.process_count();
        let mut seats = Vec::with_capacity(alloc, count as usize)?;
        for rank in 0..count {
            seats.push_reserved(self.cut(alloc, count, &mut first, rank)?);
        }
        Ok(seats)
    }

    /// A seat for the first of the ranks that are left.
    fn cut(
        &self,
        alloc: Global,
        count: u32,
        first: &mut TableSeat,
        rank: u32,
    ) -> Result<Seat, AllocError>
        requires count { count ≡ procs_of self.now.plan }
        requires rank { rank < procs_of self.now.plan }
        requires first { HasToken self.now (ranks_from self.now rank) first.old.table_id first.old.me }
        ensures first { OnOk result (HasToken self.now (ranks_from self.now (rank + 1)) first.new.table_id first.new.me) }
        ensures seat { IfOk result (λ seat. seat ≡ opening_seat self.now rank) }
    {
        let known = zeros(alloc, count)?;
        let token = self.table.shared.split_seat::<Ranks>(first);
        Ok(Seat {
            token,
            rank: Proc::new(rank),
            known,
        })
    }

    /// How many events of a process are done: never fewer than the seat knew, and of its own rank exactly
    /// its place. From now on the seat knows it. It waits for nobody, takes no memory and can't fail. The
    /// caller ensures that the seat is of this board, and the process of the plan.
    pub fn read(&self, seat: &mut Seat, proc: Proc) -> u64
        requires seat { seat.old.board ≡ self.now }
        requires proc { proc.number < procs_of self.now.plan }
        ensures known { seat.new ≡ record seat.old { known = slice_set seat.old.known proc.number result } }
        ensures rises { slice_index seat.old.known proc.number ≤ result }
        ensures own { proc.number ≡ seat.old.rank → result ≡ place_of seat.old }
    {
        let found = self
            .table
            .shared
            .load::<Reads>(&mut seat.token, proc.index());
        seat.known[proc.index()] = found;
        found
    }

    /// The next event of the seat's rank happens: one store, to the word of that rank alone. It waits for
    /// nobody, takes no memory and can't fail. The caller ensures that the seat is of this board, that the
    /// board was made of this settled plan, and that the seat shows that the event can happen
    /// (`Seat::shows`).
    pub fn advance(&self, seat: &mut Seat, settled: &Settled)
        requires seat { seat.old.board ≡ self.now }
        requires plan { self.now.plan ≡ settled.now }
        requires ready { ShowsNext seat.old }
        ensures known { seat.new ≡ record seat.old { known = slice_set seat.old.known seat.old.rank (place_of seat.old + 1) } }
        ensures place { place_of seat.new ≡ place_of seat.old + 1 }
    {
        self.advance_implied(seat, settled);
    }

    /// The same, where the caller ensures less: what the seat knows implies that the event can happen. Each source of
    /// it is known to be done, or an event is known to be done that waits for this source too.
    pub fn advance_implied(&self, seat: &mut Seat, settled: &Settled)
        requires seat { seat.old.board ≡ self.now }
        requires plan { self.now.plan ≡ settled.now }
        requires ready { ImpliesNext seat.old }
        ensures known { seat.new ≡ record seat.old { known = slice_set seat.old.known seat.old.rank (place_of seat.old + 1) } }
        ensures place { place_of seat.new ≡ place_of seat.old + 1 }
    {
        settled.has_fates();
        settled.fates_tell();
        let index = seat.rank.index();
        let place = seat.place();
        let most = settled.plan().event_count(seat.rank) as u64;
        prove!(place < most);
        let next = place + 1;
        self.table
            .shared
            .store::<Stores>(&mut seat.token, index, next);
        seat.known[index] = next;
    }

    /// One token that has the ranks of all of these.
    fn gather(&self, mut seats: Vec<Seat>) -> Option<TableSeat>
        requires { All (λ seat. seat.board ≡ self.now) seats.items }
        ensures { MatchOption result (seats.items ≡ []) (λ token. HasToken self.now (map hold_of seats.items) token.table_id token.me) }
    {
        let Seat {
            mut token,
            rank: _,
            known: _,
        } = seats.pop()?;
        while let Some(seat) = seats.pop() {
            let Seat {
                token: other,
                rank: _,
                known: _,
            } = seat;
            self.table.shared.join_seat::<Ranks>(&mut token, other);
        }
        Some(token)
    }

    /// Ends the table, with what these seats know of its words.
    fn shut(self, seats: Vec<Seat>) -> Closed<(), Global>
        requires { All (λ seat. seat.board ≡ self) seats.items }
        ensures counts { (slots_len result.words ≡ procs_of self.plan) × (slots_len result.slots ≡ 0) }
        ensures full { IsFull result.words }
        ensures cut { IsReachedCut (plan_of self.plan) (slots_items result.words) }
        ensures seats { All (IsTrueOf (slots_items result.words)) seats.items }
    {
        let bundle = self.gather(seats);
        let Board { table } = self;
        match bundle {
            None => table.close(),
            Some(token) => table.close_with(token),
        }
    }

    /// The words at the end: of each process the number of its events that are done. They are the cut of a
    /// state that a run can come to. Of each of these seats the place is the word of its rank, and nothing
    /// that it knew is above the words. The caller ensures that all seats are of this board; there may be
    /// none, and then the contract doesn't say of which run the words are. The one fault is `Fault::Memory`.
    pub fn close(self, alloc: Global, seats: Vec<Seat>) -> Result<Vec<u64>, Fault>
        requires { All (λ seat. seat.board ≡ self) seats.items }
        ensures count { IfOk result (λ words. length words.items ≡ procs_of self.plan) }
        ensures cut { IfOk result (λ words. IsReachedCut (plan_of self.plan) words.items) }
        ensures seats { IfOk result (λ words. All (IsTrueOf words.items) seats.items) }
        ensures memory { IsOkUnless result Memory }
    {
        let mut words = Vec::with_capacity(alloc, self.table.word_count())?;
        let closed = self.shut(seats);
        for i in 0..closed.words.len() {
            words.push_reserved(closed.word(i));
        }
        closed.free();
        Ok(words)
    }
}
