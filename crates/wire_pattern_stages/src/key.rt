//! Keys of events, and their order.

ghost use Rattle.std.specs.Prelude.{◌≡◌, true};
ghost use Rattle.wire_size_laws.specs.Stages as laws;
ghost use Rattle.wire_size_laws.specs.Stages.{IsLess};
ghost use Rattle.wire_pattern_stages.specs.Views as spec;

use crate::stage::{By, Stage};

/// The key of an event: its stage, two turns and a position.
#[derive(Clone, Copy)]
pub(crate) struct Key {
    pub(crate) one: u32,
    pub(crate) two: u64,
    pub(crate) three: u64,
    pub(crate) four: u32,
}

/// The number of the process by which turns come in order, from 1; 0 for none.
fn counted(by: By, caller: u32, each: u32) -> u64
    ensures { result ≡ laws.counted (spec.by_by by) caller each }
{
    match by {
        By::Nothing => 0,
        By::Caller => caller as u64 + 1,
        By::Other => each as u64 + 1,
        By::Lower => {
            if caller < each {
                caller as u64 + 1
            } else {
                each as u64 + 1
            }
        }
        By::Higher => {
            if caller < each {
                each as u64 + 1
            } else {
                caller as u64 + 1
            }
        }
    }
}

/// The key of an event of a stage, in the turn of a caller for a process.
pub(crate) fn key_at(stage: Stage, caller: u32, each: u32) -> Key
    ensures { spec.key_by result ≡ laws.key_at (spec.stage_by stage) caller each }
{
    Key {
        one: stage.stage,
        two: counted(stage.first, caller, each),
        three: counted(stage.second, caller, each),
        four: stage.position,
    }
}

/// Whether a key is less than another, by the first number that differs.
pub(crate) fn is_less(a: Key, b: Key) -> bool
    ensures { result ≡ true → IsLess (spec.key_by a) (spec.key_by b) }
{
    if a.one != b.one {
        return a.one < b.one;
    }
    if a.two != b.two {
        return a.two < b.two;
    }
    if a.three != b.three {
        return a.three < b.three;
    }
    a.four < b.four
}

/// Whether two keys are one.
pub(crate) fn is_same(a: Key, b: Key) -> bool
    ensures { result ≡ true → spec.key_by a ≡ spec.key_by b }
{
    a.one == b.one && a.two == b.two && a.three == b.three && a.four == b.four
}
