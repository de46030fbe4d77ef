//! The trees of the clocks of some processes.

ghost use Rattle.std.specs.Prelude.{◌≡◌, ◌<◌, ◌≤◌, ◌^◌, ◌↔◌, ◌==◌, ℕ, IsTrue, IfOk, max, if◌then◌else◌};

use crate::notes::{Note, add_note, flatten, number_at, root_of, shorten};
use crate::rows::{join, place, put, raise_block};
use std::alloc::{AllocError, Global};
use std::marker::Model;

/// Clocks of some processes, each kept as a root: the number of a tree, or that of a note above another clock. A
/// clock never changes: what raises or joins clocks makes another one.
pub struct ClockTrees {
    rows: Vec<[u32; 16]>,
    notes: Vec<Note>,
    levels: u32,
}

// By hand and not derived: so dropping one is a call, and the proof of a function that drops one doesn't take it apart.
impl Drop for ClockTrees {
    fn drop(self) {
        let ClockTrees {
            rows: _,
            notes: _,
            levels: _,
        } = self;
    }
}

impl Model for ClockTrees {
    ghost use Rattle.wire_clocks.specs.ClockTrees.{Clocks};
    ghost use Rattle.wire_clocks.specs.Trees.{clocks_of, AreTrees};

    ghost Value = { Clocks };

    ghost view = { λ t. clocks_of t.rows.items t.notes.items t.levels };

    ghost invariant = { λ t. AreTrees t.rows.items t.levels };
}

/// The height of trees for this many processes.
fn levels_for(processes: u32) -> u32
    ensures shallow { result ≤ 8 }
    ensures high { 0 < result }
    ensures enough { processes ≤ 16 ^ result }
{
    let last = processes.saturating_sub(1);
    let mut levels = 1;
    while levels < 8 && place(last, levels) != 0 {
        levels += 1;
    }
    levels
}

/// Whether a process is one that trees of this height have a number for.
fn is_within(levels: u32, process: u32) -> bool
    requires { levels ≤ 8 }
    ensures { IsTrue result ↔ (process < 16 ^ levels) }
{
    levels == 8 || place(process, levels) == 0
}

impl ClockTrees {
    ghost use Rattle.std.specs.Prelude.{◌≡◌, ◌<◌, ◌≤◌, ◌*◌, ◌^◌, ◌/◌, ◌%◌, ◌==◌, ℕ, IfOk, max, slice_index};
    ghost use Rattle.std.specs.Prelude.{if◌then◌else◌};
    ghost use Rattle.wire_clocks.specs.ClockTrees.{says, IsRoot, Holds, HasZeros, Keeps};

    /// Trees for clocks of this many processes, as yet with the clock of zeros alone. The only error is that
    /// memory ran out, here as in all that follows.
    pub fn new(alloc: Global, processes: u32) -> Result<ClockTrees, AllocError>
        ensures holds { IfOk result (λ trees. (process : ℕ) → process < processes → Holds trees process) }
        ensures zeros { IfOk result HasZeros }
    {
        let mut rows = Vec::new(alloc);
        rows.push([0; 16])?;
        Ok(ClockTrees {
            rows,
            notes: Vec::new(alloc),
            levels: levels_for(processes),
        })
    }

    /// The clock of zeros.
    pub fn zero(&self) -> u32
        ensures number { result ≡ 0 }
        ensures root { IsRoot self.now result }
        ensures says { (q : ℕ) → says self.now result q ≡ 0 }
        ensures first { Holds self.now 0 }
    {
        let _ = &self.rows;
        0
    }

    /// What a clock says of a process, 0 where the trees have no number for it.
    pub fn get(&self, root: u32, process: u32) -> u32
        ensures { result ≡ says self.now root process }
    {
        if is_within(self.levels, process) {
            number_at(&self.rows, &self.notes, self.levels, root, process)
        } else {
            0
        }
    }

    /// The tree with this number at a process, and as the given one elsewhere.
    fn raise_tree(&mut self, root: u32, process: u32, number: u32) -> Result<u32, AllocError>
        requires process { Holds self.old process }
        requires root { IsRoot self.old root }
        requires tree { root % 2 ≡ 0 }
        requires lower { says self.old root process < number }
        ensures keeps { Keeps self.old self.new }
        ensures root { IfOk result (λ r. IsRoot self.new r) }
        ensures says { IfOk result (λ r. (q : ℕ) → says self.new r q
            ≡ (if q == process then max (says self.old root q) number else says self.old root q)) }
    {
        let tree = put(&mut self.rows, self.levels, root / 2, process, number)?;
        root_of(tree)
    }

    /// The clock of a note above the given one.
    fn raise_by_note(&mut self, root: u32, process: u32, number: u32) -> Result<u32, AllocError>
        requires process { Holds self.old process }
        requires root { IsRoot self.old root }
        ensures keeps { Keeps self.old self.new }
        ensures root { IfOk result (λ r. IsRoot self.new r) }
        ensures says { IfOk result (λ r. (q : ℕ) → says self.new r q
            ≡ (if q == process then max (says self.old root q) number else says self.old root q)) }
    {
        let below = shorten(&mut self.rows, &self.notes, self.levels, root, process)?;
        let note = Note {
            below,
            process,
            number,
        };
        add_note(&mut self.notes, note)
    }

    /// Whether the root is that of the tree whose top row was added last. It promises only that such a root is a
    /// tree's, and nothing where the answer is no.
    fn is_newest(&self, root: u32) -> bool
        ensures { IsTrue result → root % 2 ≡ 0 }
    {
        root % 2 == 0 && (root / 2) as usize + 1 == self.rows.len()
    }

    /// The clock with at least this number at a process, and as the given one elsewhere.
    pub fn raise(&mut self, root: u32, process: u32, number: u32) -> Result<u32, AllocError>
        requires process { Holds self.old process }
        requires root { IsRoot self.old root }
        ensures keeps { Keeps self.old self.new }
        ensures root { IfOk result (λ r. IsRoot self.new r) }
        ensures says { IfOk result (λ r. (q : ℕ) → says self.new r q
            ≡ (if q == process then max (says self.old root q) number else says self.old root q)) }
    {
        if self.get(root, process) >= number {
            return Ok(root);
        }
        // A tree that was just joined is mostly joined again, which takes a tree.
        if self.is_newest(root) {
            return self.raise_tree(root, process, number);
        }
        self.raise_by_note(root, process, number)
    }

    /// The root of the tree that says what a clock says.
    fn flatten(&mut self, root: u32) -> Result<u32, AllocError>
        requires { IsRoot self.old root }
        ensures keeps { Keeps self.old self.new }
        ensures root { IfOk result (λ r. IsRoot self.new r) }
        ensures tree { IfOk result (λ r. r % 2 ≡ 0) }
        ensures says { IfOk result (λ r. (q : ℕ) → says self.new r q ≡ says self.old root q) }
    {
        let tree = flatten(&mut self.rows, &self.notes, self.levels, root)?;
        root_of(tree)
    }

    /// The tree with the greater number of two at each process.
    fn join_trees(&mut self, left: u32, right: u32) -> Result<u32, AllocError>
        requires left { IsRoot self.old left }
        requires right { IsRoot self.old right }
        requires left_tree { left % 2 ≡ 0 }
        requires right_tree { right % 2 ≡ 0 }
        ensures keeps { Keeps self.old self.new }
        ensures root { IfOk result (λ r. IsRoot self.new r) }
        ensures says { IfOk result (λ r. (q : ℕ) → says self.new r q ≡ max (says self.old left q) (says self.old right q)) }
    {
        let tree = join(&mut self.rows, self.levels, left / 2, right / 2)?;
        root_of(tree)
    }

    /// The clock with the greater number of two at each process.
    pub fn join(&mut self, left: u32, right: u32) -> Result<u32, AllocError>
        requires left { IsRoot self.old left }
        requires right { IsRoot self.old right }
        ensures keeps { Keeps self.old self.new }
        ensures root { IfOk result (λ r. IsRoot self.new r) }
        ensures says { IfOk result (λ r. (q : ℕ) → says self.new r q ≡ max (says self.old left q) (says self.old right q)) }
    {
        let zero = self.zero();
        if left == right || right == zero {
            return Ok(left);
        }
        if left == zero {
            return Ok(right);
        }
        let left_tree = self.flatten(left)?;
        let right_tree = self.flatten(right)?;
        self.join_trees(left_tree, right_tree)
    }

    /// The tree with at least these numbers at a block of 16 processes.
    fn raise_tree_block(
        &mut self,
        root: u32,
        block: u32,
        least: &[u32; 16],
    ) -> Result<u32, AllocError>
        requires block { Holds self.old (16 * block) }
        requires root { IsRoot self.old root }
        requires tree { root % 2 ≡ 0 }
        ensures keeps { Keeps self.old self.new }
        ensures root { IfOk result (λ r. IsRoot self.new r) }
        ensures says { IfOk result (λ r. (q : ℕ) → says self.new r q ≡
            (if q / 16 == block then max (says self.old root q) (slice_index least.now (q % 16)) else says self.old root q)) }
    {
        let tree = raise_block(&mut self.rows, self.levels, root / 2, block, least)?;
        root_of(tree)
    }

    /// The clock with at least these numbers at a block of 16 processes, the first of which is 16 times the block's
    /// number, and as the given one elsewhere.
    pub(crate) fn raise_block(
        &mut self,
        root: u32,
        block: u32,
        least: &[u32; 16],
    ) -> Result<u32, AllocError>
        requires block { Holds self.old (16 * block) }
        requires root { IsRoot self.old root }
        ensures keeps { Keeps self.old self.new }
        ensures root { IfOk result (λ r. IsRoot self.new r) }
        ensures says { IfOk result (λ r. (q : ℕ) → says self.new r q ≡
            (if q / 16 == block then max (says self.old root q) (slice_index least.now (q % 16)) else says self.old root q)) }
    {
        let tree = self.flatten(root)?;
        self.raise_tree_block(tree, block, least)
    }
}
