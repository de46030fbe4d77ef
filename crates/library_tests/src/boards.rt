//! What seats of a board show, and what lanes serve.

ghost use Rattle.std.specs.Prelude.{◌≡◌, ◌<◌, IfOk, IfSome};
ghost use Rattle.std.specs.List.{All};
ghost use Rattle.wire_scripts.specs.Planned.{plan_of};
ghost use Rattle.wire_board.specs.Cuts.{procs_of};
ghost use Rattle.wire_board.specs.Seats.{opening_seats};
ghost use Rattle.wire_board.specs.Lanes.{AreTrails};

use crate::workers::{APART, CARDS, WAITING, are_alike, commits, settle};
use std::alloc::Global;
use std::sync::Wait;
use std::test::Fail;
use std::thread::{self, Threads, join};
use wire_board::{Board, Seat};
use wire_core::plain_outcome;
use wire_parallel_run::outcome_of;
use wire_races::{Fate, Settled};
use wire_sched::{Crew, Lanes, OpenGate, StealRound, take_turns, work};
use wire_types::{Fault, Outcome, Proc};

/// How often a thread looks before it gives up.
const MOST_TURNS: u32 = 1_000_000;

/// A board with its seats, which are all of it.
fn seat_all(alloc: Global, settled: &Settled) -> Result<(Board, Vec<Seat>), Fault>
    ensures plan { IfOk result (λ made. made.0.plan ≡ settled.now) }
    ensures seats { IfOk result (λ made. All (λ seat. seat.board ≡ made.0) made.1.items) }
{
    Board::new(alloc, settled)
}

/// The last seat.
fn take_last_seat(board: &Board, seats: &mut Vec<Seat>) -> Option<Seat>
    requires { All (λ seat. seat.board ≡ board.now) seats.old.items }
    ensures seat { IfSome result (λ seat. seat.board ≡ board.now) }
    ensures rest { All (λ seat. seat.board ≡ board.now) seats.new.items }
{
    seats.pop()
}

/// A board with the seats of its last two ranks; `None` where there are fewer.
fn seat_last_two(alloc: Global, settled: &Settled) -> Result<Option<(Board, Seat, Seat)>, Fault>
    ensures { IfOk result (λ o. IfSome o (λ t. (t.0.plan ≡ settled.now) × (t.1.board ≡ t.0) × (t.2.board ≡ t.0))) }
{
    let (board, seats) = seat_all(alloc, settled)?;
    let mut seats = seats;
    let Some(two) = take_last_seat(&board, &mut seats) else {
        return Ok(None);
    };
    let Some(one) = take_last_seat(&board, &mut seats) else {
        return Ok(None);
    };
    Ok(Some((board, one, two)))
}

/// These two seats.
fn pair_seats(alloc: Global, one: Seat, two: Seat) -> Result<Vec<Seat>, Fault>
    requires { one.board ≡ two.board }
    ensures { IfOk result (λ seats. All (λ seat. seat.board ≡ one.board) seats.items) }
{
    let mut seats = Vec::with_capacity(alloc, 2)?;
    seats.push_reserved(one);
    seats.push_reserved(two);
    Ok(seats)
}

/// The first seat does an event, if it shows that it can happen.
fn advance_seat(board: &Board, seat: &mut Seat, settled: &Settled) -> bool
    requires { (seat.old.board ≡ board.now) × (board.now.plan ≡ settled.now) }
    ensures { seat.new.board ≡ board.now }
{
    let shown = seat.shows(settled);
    if shown {
        board.advance(seat, settled);
    }
    shown
}

/// Steps through the board of a plan whose second rank waits for two events of the first. Whether the second seat shows
/// its event only once it has read that the first one has done its two.
fn step_both(board: &Board, zero: &mut Seat, one: &mut Seat, settled: &Settled) -> bool
    requires plan { board.now.plan ≡ settled.now }
    requires zero { zero.old.board ≡ board.now }
    requires one { one.old.board ≡ board.now }
    ensures zero { zero.new.board ≡ board.now }
    ensures one { one.new.board ≡ board.now }
{
    let before = one.shows(settled);
    if before || !advance_seat(board, zero, settled) || !advance_seat(board, zero, settled) {
        return false;
    }
    let unread = one.shows(settled);
    let read = board.read(one, zero.rank());
    !unread && read == 2 && advance_seat(board, one, settled)
}

/// Whether the last two seats of a board show what they have read, and the words at the end.
fn step_through(alloc: Global, settled: &Settled) -> Result<Option<(bool, Vec<u64>)>, Fault> {
    let Some((board, mut zero, mut one)) = seat_last_two(alloc, settled)? else {
        return Ok(None);
    };
    let shown = step_both(&board, &mut zero, &mut one, settled);
    let words = board.close(alloc, pair_seats(alloc, zero, one)?)?;
    Ok(Some((shown, words)))
}

/// A seat shows an event once it has read that the sources are done.
#[test]
fn a_seat_shows_what_it_has_read(rt: HostRuntime) -> Result<(), Fail> {
    let alloc = rt.alloc();
    let settled = settle(&rt, alloc, WAITING)?;
    let stepped = step_through(alloc, &settled);
    drop(settled);
    let Some((shown, words)) = stepped? else {
        panic!(rt; "two ranks")
    };
    assert!(rt; shown && words.as_slice() == [2u64, 1].as_slice());
    Ok(())
}

/// Reads another rank's word until it is 1. Whether it came to that.
fn comes(board: &Board, seat: &mut Seat, other: Proc) -> bool
    requires seat { seat.old.board ≡ board.now }
    requires other { other.number < procs_of board.now.plan }
{
    'turns: for _ in 0..MOST_TURNS {
        if board.read(seat, other) == 1 {
            return true;
        }
        thread::yield_now();
    }
    false
}

/// A seat does one event, and then reads another rank's word until that is 1. Whether it saw that.
fn step_and_look(board: &Board, settled: &Settled, seat: Seat, other: Proc) -> bool
    requires plan { board.now.plan ≡ settled.now }
    requires seat { seat.board ≡ board.now }
    requires other { other.number < procs_of board.now.plan }
{
    let mut seat = seat;
    advance_seat(board, &mut seat, settled) && comes(board, &mut seat, other)
}

/// Two threads, each with a seat. Whether each saw the other's event.
fn let_both_look<R: Threads + Wait + Sync>(
    rt: &R,
    alloc: Global,
    settled: &Settled,
) -> Result<(bool, bool), Fault> {
    let Some((board, zero, one)) = seat_last_two(alloc, settled)? else {
        return Ok((false, false));
    };
    let (first, second) = (zero.rank(), one.rank());
    let saw = join(
        rt,
        || step_and_look(&board, settled, zero, second),
        || step_and_look(&board, settled, one, first),
    );
    drop(board);
    Ok(saw)
}

/// What one seat stores, the other reads before long.
#[test]
fn each_seat_sees_the_others_event(rt: HostRuntime) -> Result<(), Fail> {
    let alloc = rt.alloc();
    let settled = settle(&rt, alloc, APART)?;
    let saw = let_both_look(&rt, alloc, &settled);
    drop(settled);
    assert_eq!(rt; saw?, (true, true));
    Ok(())
}

/// What one worker leaves of a plan: how many events it answered, the trails, and the words.
#[derive(Drop)]
struct Left {
    events: usize,
    trails: Option<Vec<Vec<Fate>>>,
    words: Vec<u64>,
}

/// What becomes of the lanes of two ranks, the second of which waits for two events of the first: which one is looked
/// at, whether it is ready, and how many events it then serves. The last row asks for a lane that isn't there.
const TURNS: [(u32, bool, usize); 5] = [
    (1, false, 0),
    (0, true, 2),
    (1, true, 1),
    (1, false, 0),
    (9, false, 0),
];

/// Whether lanes are ready and are served by these turns.
fn are_served_in_turn<R: Wait>(rt: &R, lanes: &Lanes<'_>) -> bool {
    for (rank, is_ready, events) in TURNS {
        let rank = Proc::new(rank);
        if lanes.ready(rt, rank) != is_ready || lanes.serve(rt, rank) != events {
            return false;
        }
    }
    true
}

/// The same of the lanes of a settled plan.
fn lanes_are_served<R: Wait>(rt: &R, alloc: Global, settled: &Settled) -> Result<bool, Fault> {
    let (board, seats) = Board::new(alloc, settled)?;
    let served = match Lanes::new(alloc, &board, settled, seats) {
        Ok(lanes) => {
            let served = are_served_in_turn(rt, &lanes);
            drop(lanes);
            Ok(served)
        }
        Err(fault) => Err(fault),
    };
    drop(board);
    served
}

/// A lane is ready exactly where its next event can happen, and is served as far as it goes.
#[test]
fn a_lane_is_served_once_it_is_ready(rt: HostRuntime) -> Result<(), Fail> {
    let alloc = rt.alloc();
    let settled = settle(&rt, alloc, WAITING)?;
    let served = lanes_are_served(&rt, alloc, &settled);
    drop(settled);
    assert!(rt; served?);
    Ok(())
}

/// What a worker does: a round, or a round and then turns.
#[derive(Clone, Copy)]
enum Way {
    StealRound,
    Turns,
}

/// A process waits for one that waits for a third.
const LATE: &[u8] = b"\
rehearsal 1
node n0
node n1
job app
rank n0
get app:1 k
rank n1
get app:2 k
put global k v
commit
rank n1
put global k v
commit
rank n1
commit
rank n1
commit
";

/// One worker serves a round of one deque in this thread. Answers how many events that were.
fn work_round<R: Wait>(
    rt: &R,
    alloc: Global,
    lanes: &Lanes<'_>,
    processes: u32,
    way: Way,
) -> Result<usize, Fault> {
    let (round, passes) = StealRound::deal(alloc, 0, processes, 1)?;
    let mut passes = passes;
    let events = match way {
        Way::StealRound => work(rt, lanes, &round, &mut passes[0], &OpenGate),
        Way::Turns => {
            let crew = Crew {
                served: lanes,
                round: &round,
                gate: &OpenGate,
            };
            take_turns(rt, alloc, &crew, &mut passes[0])
        }
    };
    drop(passes);
    drop(round);
    Ok(events)
}

/// One worker serves a round over the lanes of a board.
fn work_lanes<R: Wait>(
    rt: &R,
    alloc: Global,
    board: &Board,
    settled: &Settled,
    seats: Vec<Seat>,
    way: Way,
) -> Result<(usize, Option<Vec<Vec<Fate>>>), Fault>
    requires plan { board.now.plan ≡ settled.now }
    requires seats { seats.items ≡ opening_seats board.now }
{
    let lanes = Lanes::new(alloc, board, settled, seats)?;
    let events = work_round(rt, alloc, &lanes, settled.plan().process_count(), way);
    let trails = lanes.trails(alloc, settled)?;
    Ok((events?, trails))
}

/// One worker serves a round of a settled plan in this thread.
fn work_alone<R: Wait>(rt: &R, alloc: Global, settled: &Settled, way: Way) -> Result<Left, Fault> {
    let (board, seats) = Board::new(alloc, settled)?;
    let (events, trails) = work_lanes(rt, alloc, &board, settled, seats, way)?;
    let words = board.close(alloc, Vec::new(alloc))?;
    Ok(Left {
        events,
        trails,
        words,
    })
}

/// Whether there are trails, of these lengths.
fn are_as_long(trails: &Option<Vec<Vec<Fate>>>, lengths: &[usize]) -> bool {
    let Some(trails) = trails else {
        return false;
    };
    trails.len() == lengths.len()
        && trails
            .iter()
            .zip(lengths)
            .all(|(trail, length)| trail.len() == *length)
}

/// One worker serves a round of a file, which is a settled plan.
fn work_file<R: Threads + Wait + Sync>(
    rt: &R,
    alloc: Global,
    file: &[u8],
    way: Way,
) -> Result<Left, Fault> {
    let settled = settle(rt, alloc, file)?;
    let left = work_alone(rt, alloc, &settled, way);
    drop(settled);
    left
}

/// One worker serves all that it can over the board, and counts the events.
#[test]
fn one_worker_serves_a_round_over_the_board(rt: HostRuntime) -> Result<(), Fail> {
    let left = work_file(&rt, rt.alloc(), WAITING, Way::StealRound)?;
    assert!(rt; left.events == 3 && are_as_long(&left.trails, &[2, 1]));
    assert!(rt; left.words.as_slice() == [2u64, 1].as_slice());
    Ok(())
}

/// On 256 ranks with one commit each one worker answers 256 events.
#[test]
fn one_worker_serves_256_ranks_over_the_board(rt: HostRuntime) -> Result<(), Fail> {
    let file = commits(rt.alloc())?;
    let left = work_file(&rt, rt.alloc(), file.as_bytes(), Way::StealRound)?;
    assert!(rt; left.events == 256 && left.words.len() == 256);
    Ok(())
}

/// A round leaves what waits for a process that comes later, and turns serve it.
#[test]
fn turns_serve_what_a_round_leaves(rt: HostRuntime) -> Result<(), Fail> {
    let left = work_file(&rt, rt.alloc(), LATE, Way::StealRound)?;
    assert!(rt; left.events == 4 && are_as_long(&left.trails, &[0, 0, 2, 1, 1]));
    let left = work_file(&rt, rt.alloc(), LATE, Way::Turns)?;
    assert!(rt; left.events == 8 && are_as_long(&left.trails, &[1, 3, 2, 1, 1]));
    Ok(())
}

/// How often each of two threads serves all ranks.
const MOST_PASSES: u32 = 64;

/// Serves all ranks once. Answers how many events that were.
fn serve_once<R: Wait>(rt: &R, lanes: &Lanes<'_>, processes: u32) -> usize {
    let mut events = 0usize;
    for number in 0..processes {
        events = events.saturating_add(lanes.serve(rt, Proc::new(number)));
    }
    events
}

/// Serves all ranks, again and again. Answers how many events that were.
fn serve_often<R: Wait>(rt: &R, lanes: &Lanes<'_>, processes: u32) -> usize {
    let mut events = 0usize;
    for _ in 0..MOST_PASSES {
        events = events.saturating_add(serve_once(rt, lanes, processes));
    }
    events
}

/// Two threads serve the lanes of a board. Answers how many events that were, and the trails.
fn serve_by_two<R: Threads + Wait + Sync>(
    rt: &R,
    alloc: Global,
    board: &Board,
    settled: &Settled,
    seats: Vec<Seat>,
) -> Result<(usize, Option<Vec<Vec<Fate>>>), Fault>
    requires plan { board.now.plan ≡ settled.now }
    requires seats { seats.items ≡ opening_seats board.now }
    ensures { IfOk result (λ r. IfSome r.1 (λ trails. AreTrails (plan_of settled.now) trails.items)) }
{
    let lanes = Lanes::new(alloc, board, settled, seats)?;
    let processes = settled.plan().process_count();
    let (one, two) = join(
        rt,
        || serve_often(rt, &lanes, processes),
        || serve_often(rt, &lanes, processes),
    );
    let trails = lanes.trails(alloc, settled)?;
    Ok((one.saturating_add(two), trails))
}

/// What the trails and the words tell, once two threads have served the lanes, and how many events these did.
fn tell_by_two<R: Threads + Wait + Sync>(
    rt: &R,
    alloc: Global,
    settled: &Settled,
) -> Result<(usize, Option<Outcome>), Fault> {
    let (board, seats) = Board::new(alloc, settled)?;
    let served = serve_by_two(rt, alloc, &board, settled, seats);
    let words = board.close(alloc, Vec::new(alloc))?;
    match served? {
        (events, Some(trails)) => Ok((
            events,
            outcome_of(alloc, settled, trails.as_slice(), words.as_slice())?,
        )),
        (events, None) => Ok((events, None)),
    }
}

/// Two threads serve the lanes of a settled plan. Answers how many events these did, and whether the trails and the
/// words tell the plain run's outcome.
fn compare_with_plain<R: Threads + Wait + Sync>(
    rt: &R,
    alloc: Global,
    settled: &Settled,
) -> Result<(usize, bool), Fault> {
    let plain = plain_outcome(alloc, settled.plan())?;
    match tell_by_two(rt, alloc, settled)? {
        (events, Some(outcome)) => Ok((events, are_alike(&outcome, &plain))),
        (events, None) => Ok((events, false)),
    }
}

/// Two threads together do each event once, and then the trails and the words tell the plain run's outcome.
#[test]
fn two_threads_serve_the_lanes(rt: HostRuntime) -> Result<(), Fail> {
    let alloc = rt.alloc();
    let settled = settle(&rt, alloc, CARDS)?;
    let told = compare_with_plain(&rt, alloc, &settled);
    let total = settled.plan().event_total();
    drop(settled);
    assert_eq!(rt; told?, (total, true));
    Ok(())
}
