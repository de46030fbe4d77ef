//! The libraries of which a plan is judged.

ghost use Rattle.std.specs.Prelude.{◌≡◌, ◌||◌, Bool};
ghost use Rattle.wire_portable.specs.Libraries as spec;

/// A line of versions of OpenPMIx, of which one was measured.
#[derive(Clone, Copy, PartialEq, Eq)]
pub enum Library {
    /// OpenPMIx 4.2.
    V4,
    /// OpenPMIx 5.0.
    V5,
    /// OpenPMIx 7.0.
    V7,
}

/// A set of libraries: whether each is of it.
#[derive(Clone, Copy, PartialEq, Eq)]
pub struct Libraries {
    /// OpenPMIx 4.2.
    pub v4: bool,
    /// OpenPMIx 5.0.
    pub v5: bool,
    /// OpenPMIx 7.0.
    pub v7: bool,
}

impl Libraries {
    /// None of them.
    pub fn none() -> Libraries
        ensures { result ≡ spec.none }
    {
        Libraries {
            v4: false,
            v5: false,
            v7: false,
        }
    }

    /// All of them.
    pub fn all() -> Libraries
        ensures { result ≡ spec.all }
    {
        Libraries {
            v4: true,
            v5: true,
            v7: true,
        }
    }

    /// OpenPMIx 4.2 alone.
    pub(crate) fn only_v4() -> Libraries
        ensures { result ≡ spec.only_v4 }
    {
        Libraries {
            v4: true,
            v5: false,
            v7: false,
        }
    }

    /// OpenPMIx 5.0 alone.
    pub(crate) fn only_v5() -> Libraries
        ensures { result ≡ spec.only_v5 }
    {
        Libraries {
            v4: false,
            v5: true,
            v7: false,
        }
    }

    /// Whether a library is of the set.
    pub fn has(self, library: Library) -> bool
        ensures { result ≡ spec.has self library }
    {
        match library {
            Library::V4 => self.v4,
            Library::V5 => self.v5,
            Library::V7 => self.v7,
        }
    }

    /// Whether no library is of the set.
    pub fn is_empty(self) -> bool
        ensures { result ≡ spec.is_empty self }
    {
        !self.v4 && !self.v5 && !self.v7
    }

    /// Whether all libraries are of the set.
    pub fn is_all(self) -> bool
        ensures { result ≡ spec.is_all self }
    {
        self.v4 && self.v5 && self.v7
    }

    /// Those of either set.
    pub fn or(self, other: Libraries) -> Libraries
        ensures { result ≡ spec.either self other }
    {
        Libraries {
            v4: self.v4 || other.v4,
            v5: self.v5 || other.v5,
            v7: self.v7 || other.v7,
        }
    }
}
