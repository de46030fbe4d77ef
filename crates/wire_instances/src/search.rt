//! The search for a line of an instance's text.

ghost use Rattle.std.specs.Prelude.{◌≡◌, ◌∷◌, ◌↔◌, ◌-◌, [], IsSome, IsTrue, None};
ghost use Rattle.wire_instances.specs.Search.{found_in, past};

/// A search among lines of an instance's text that are gone through in their order: how many stand before the one that
/// is looked for, and once this is found, the line of the pattern's file that it comes from.
#[derive(Drop)]
pub(crate) struct LineSearch {
    before: u64,
    found: Option<u64>,
}

impl LineSearch {
    /// The search for the line of this number, counted from 1.
    pub(crate) fn of(line: u64) -> LineSearch
        ensures { result ≡ record { before = line - 1; found = None } }
    {
        LineSearch {
            before: line.saturating_sub(1),
            found: None,
        }
    }

    /// Whether the line is found.
    pub(crate) fn is_over(&self) -> bool
        ensures { IsTrue result ↔ IsSome self.now.found }
    {
        self.found.is_some()
    }

    /// The line that is found; 0 where none is.
    pub(crate) fn line(&self) -> u64
        ensures { result ≡ found_in self.now }
    {
        self.found.unwrap_or(0)
    }

    /// Passes a line that comes from the line of this number.
    pub(crate) fn pass(&mut self, number: u64)
        ensures { self.new ≡ past self.old (number ∷ []) }
    {
        if self.found.is_none() {
            if self.before == 0 {
                self.found = Some(number);
            } else {
                self.before -= 1;
            }
        }
    }
}
