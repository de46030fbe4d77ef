//! The steps of a pattern's scripts: single lines, and loops.

use crate::call::Call;

/// A call line, with its number in the file.
pub struct Line {
    pub number: u64,
    pub call: Call,
}

// By hand and not derived: so dropping one is a call, and the proof of a function that drops one doesn't take it apart.
impl Drop for Line {
    fn drop(self) {
        let Line { number: _, call: _ } = self;
    }
}

/// For which processes of its role a loop takes a turn, and in which order. The caller is none of them.
#[derive(Clone, Copy, Debug, PartialEq, Eq)]
pub enum Turns {
    /// `for GROUP`: all, in the order of their ranks.
    InOrder,
    /// `for GROUP cyclic`: for a caller of the role those behind it, then those before it; for others as `InOrder`.
    Round,
    /// `for some GROUP`: those that are chosen, in the order of their ranks.
    Chosen,
}

/// A step of a script.
pub enum Step {
    /// One call.
    Once(Line),
    /// A loop: the number of its line and that of its role, its turns, and its call lines.
    Loop {
        number: u64,
        group: u32,
        turns: Turns,
        lines: Vec<Line>,
    },
}

// By hand and not derived: so dropping one is a call, and the proof of a function that drops one doesn't take it apart.
impl Drop for Step {
    fn drop(self) {
        match self {
            Step::Once(_) => {}
            Step::Loop {
                number: _,
                group: _,
                turns: _,
                lines: _,
            } => {}
        }
    }
}
