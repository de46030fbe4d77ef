//! One clock that is raised at many processes before it is put into its tree.

ghost use Rattle.std.specs.Prelude.{◌≡◌, ◌<◌, ◌≤◌, ◌*◌, ◌/◌, ◌%◌, ◌==◌, ℕ, IfOk, OnOk, max, if◌then◌else◌};
ghost use Rattle.wire_clocks.specs.ClockTrees.{says, IsRoot, Holds, Keeps};
ghost use Rattle.wire_clocks.specs.Rising.{rising_says, IsRaise};

use crate::rows::BLOCK;
use crate::trees::ClockTrees;
use std::alloc::AllocError;
use std::marker::Model;

/// A clock that is being made: the root of what is in its tree already, and the least numbers of one block of 16
/// processes that isn't. So to raise it at processes that stand side by side changes their block once.
#[derive(Clone, Copy)]
pub struct Rising {
    root: u32,
    block: u32,
    least: [u32; 16],
}

impl Model for Rising {
    ghost use Rattle.wire_clocks.specs.Rising.{Raise};

    ghost Value = { Raise };

    ghost view = { λ r. record { base = r.root; block = r.block; least = r.least } };

    ghost inverse = { λ v. record { root = v.base; block = v.block; least = v.least } };
}

impl Rising {
    /// The clock of zeros, to be raised.
    pub fn new(trees: &ClockTrees) -> Rising
        ensures rising { IsRaise trees.now result }
        ensures zeros { (q : ℕ) → rising_says trees.now result q ≡ 0 }
    {
        Rising {
            root: trees.zero(),
            block: 0,
            least: [0; 16],
        }
    }

    /// Raises it to another clock.
    pub fn join(&mut self, trees: &mut ClockTrees, root: u32) -> Result<(), AllocError>
        requires rising { IsRaise trees.old self.old }
        requires root { IsRoot trees.old root }
        ensures keeps { Keeps trees.old trees.new }
        ensures rising { OnOk result (IsRaise trees.new self.new) }
        ensures joined { OnOk result ((q : ℕ) → rising_says trees.new self.new q ≡ max (rising_says trees.old self.old q) (says trees.old root q)) }
    {
        self.root = trees.join(self.root, root)?;
        Ok(())
    }

    /// Goes on to another block.
    fn turn_to(&mut self, trees: &mut ClockTrees, block: u32) -> Result<(), AllocError>
        requires rising { IsRaise trees.old self.old }
        requires block { Holds trees.old (16 * block) }
        ensures keeps { Keeps trees.old trees.new }
        ensures rising { OnOk result (IsRaise trees.new self.new) }
        ensures block { OnOk result (self.new.block ≡ block) }
        ensures same { OnOk result ((q : ℕ) → rising_says trees.new self.new q ≡ rising_says trees.old self.old q) }
    {
        if block == self.block {
            return Ok(());
        }
        let root = trees.raise_block(self.root, self.block, &self.least)?;
        *self = Rising {
            root,
            block,
            least: [0; 16],
        };
        Ok(())
    }

    /// Raises it at a process.
    pub fn raise(
        &mut self,
        trees: &mut ClockTrees,
        process: u32,
        number: u32,
    ) -> Result<(), AllocError>
        requires rising { IsRaise trees.old self.old }
        requires process { Holds trees.old process }
        ensures keeps { Keeps trees.old trees.new }
        ensures rising { OnOk result (IsRaise trees.new self.new) }
        ensures raised { OnOk result ((q : ℕ) → rising_says trees.new self.new q ≡
            (if q == process then max (rising_says trees.old self.old q) number else rising_says trees.old self.old q)) }
    {
        self.turn_to(trees, process / BLOCK)?;
        let place = (process % BLOCK) as usize;
        self.least[place] = self.least[place].max(number);
        Ok(())
    }

    /// Puts it into its tree. The root of the clock.
    pub fn finish(self, trees: &mut ClockTrees) -> Result<u32, AllocError>
        requires { IsRaise trees.old self }
        ensures keeps { Keeps trees.old trees.new }
        ensures root { IfOk result (λ r. IsRoot trees.new r) }
        ensures says { IfOk result (λ r. (q : ℕ) → says trees.new r q ≡ rising_says trees.old self q) }
    {
        trees.raise_block(self.root, self.block, &self.least)
    }
}
