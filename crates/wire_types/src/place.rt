//! Processes, and the places of calls and events.

ghost use Rattle.std.specs.Prelude.{◌≡◌};

/// A process, by its number in process order: the file's job order, then rank. Counted from 0.
#[derive(Clone, Copy, Debug, PartialEq, Eq, PartialOrd, Ord, Hash)]
pub struct Proc {
    pub number: u32,
}

impl Proc {
    /// The process of a number.
    pub fn new(number: u32) -> Proc
        ensures { result ≡ record { number = number } }
    {
        Proc { number }
    }

    /// Its number in process order, as an index.
    pub fn index(self) -> usize
        ensures { result ≡ self.number }
    {
        self.number as usize
    }
}

/// The place of a call: its process, and its number among the calls of that process, from 0.
#[derive(Clone, Copy, Debug, PartialEq, Eq, PartialOrd, Ord)]
pub struct CallAt {
    pub proc: Proc,
    pub call: u32,
}

/// An event: its process, and its number among the events of that process, from 0.
/// A call is one event, a fence is two.
#[derive(Clone, Copy, Debug, PartialEq, Eq, PartialOrd, Ord)]
pub struct Event {
    pub proc: Proc,
    pub at: u32,
}
