//! Whether processes can't go on.

ghost use Rattle.std.specs.Prelude.{IsTrue, ◌↔◌};
ghost use Rattle.wire_parallel_run.specs.Trails.{AreAtRest, IsAtRest};

use crate::rows::trail_of;
use wire_board::find_next_fate;
use wire_fates::{Fate, Settled};
use wire_types::Proc;

/// Whether a process's trail is as long as its word, and the process can't take an event.
fn is_at_rest(settled: &Settled, words: &[u64], proc: Proc, trail: &[Fate]) -> bool
    ensures { IsTrue result ↔ IsAtRest settled.now words.now proc.number trail.now }
{
    let place = match words.get(proc.index()) {
        Some(place) => *place,
        None => 0,
    };
    trail.len() as u64 == place && find_next_fate(settled, words, proc).is_none()
}

/// Whether each process's trail is as long as its word, and no process can take an event.
pub(crate) fn all_at_rest(settled: &Settled, trails: &[Vec<Fate>], words: &[u64]) -> bool
    ensures { IsTrue result ↔ AreAtRest settled.now words.now trails.now }
{
    for number in 0..settled.plan().process_count() {
        let proc = Proc::new(number);
        if !is_at_rest(settled, words, proc, trail_of(trails, proc)) {
            return false;
        }
    }
    true
}
