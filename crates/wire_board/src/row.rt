//! A row of lanes under no lock: how they begin, and what their trails are.

ghost use Rattle.std.specs.Prelude.{◌≡◌, All, map, IfOk, IsOkUnless};
ghost use Rattle.wire_types.specs.declared.Fault.TheVariants.{Memory};
ghost use Rattle.wire_scripts.specs.Planned.{plan_of};
ghost use Rattle.wire_board.specs.Seats.{place_of};
ghost use Rattle.wire_board.specs.Lanes.{new_lane, Tell};

use crate::board::Board;
use crate::lane::Lane;
use crate::seat::Seat;
use std::alloc::Global;
use wire_fates::{Fate, Settled};
use wire_types::{Fault, Proc};

/// A lane for each of these seats, in their order. Each has an empty trail, and reserves the whole of it. The
/// caller ensures that the board was made of this settled plan, and that the seats are of the board and at
/// place 0. The one fault is `Fault::Memory`.
pub fn lanes_of<'a>(
    alloc: Global,
    board: &'a Board,
    settled: &'a Settled,
    seats: Vec<Seat>,
) -> Result<Vec<Lane<'a>>, Fault>
    requires plan { board.now.plan ≡ settled.now }
    requires seats { All (λ seat. (seat.board ≡ board.now) × (place_of seat ≡ 0)) seats.items }
    ensures lanes { IfOk result (λ lanes. lanes.items ≡ map new_lane seats.items) }
    ensures memory { IsOkUnless result Memory }
{
    let mut seats = seats;
    let mut lanes = Vec::with_capacity(alloc, seats.len())?;
    'seats: while let Some(seat) = seats.pop() {
        lanes.push_reserved(Lane::new(alloc, board, settled, seat)?);
    }
    lanes.reverse();
    Ok(lanes)
}

/// The trails of these lanes, in their order, each as long as its seat's place: exactly where there are as many
/// lanes as this plan has ranks, each is of the rank that its place in the list says, and its entries are the
/// fates that this plan gives; else `None`. The one fault is `Fault::Memory`.
pub fn trails_of(
    alloc: Global,
    lanes: Vec<Lane<'_>>,
    settled: &Settled,
) -> Result<Option<Vec<Vec<Fate>>>, Fault>
    ensures trails { IfOk result (λ told. Tell (plan_of settled.now) lanes.entry.items told) }
    ensures memory { IsOkUnless result Memory }
{
    let mut lanes = lanes;
    let count = settled.plan().process_count();
    if lanes.len() != count as usize {
        return Ok(None);
    }
    let mut trails = Vec::with_capacity(alloc, lanes.len())?;
    'lanes: while let Some(lane) = lanes.pop() {
        let rank = Proc::new(lanes.len() as u32);
        let Some(trail) = lane.into_trail(settled, rank) else {
            return Ok(None);
        };
        trails.push_reserved(trail);
    }
    trails.reverse();
    Ok(Some(trails))
}
