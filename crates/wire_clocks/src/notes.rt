//! Notes beside the trees. A note is a clock that says at least a number of one process, and of each other process
//! what the clock below it says. Notes are added, and never changed. The root of a note is an odd number and that
//! of a tree an even one: half of it is the place in the list of notes, or of rows.

ghost use Rattle.std.specs.Prelude.{◌≡◌, ◌<◌, ◌≤◌, ◌+◌, ◌-◌, ◌*◌, ◌/◌, ◌%◌, ◌^◌, ◌==◌, ◌&&◌};
ghost use Rattle.std.specs.Prelude.{◌++◌, ◌∷◌, [], ℕ, suc, true};
ghost use Rattle.std.specs.Prelude.{List, IsTrue, IfOk, length, slice_index, max, if◌then◌else◌};
ghost use Rattle.wire_clocks.specs.Rows.{tree_says, IsTree, IsZero, KeepsRows};
ghost use Rattle.wire_clocks.specs.Notes.{most_notes, most_below, note_at, next_note, is_near, raised_at};
ghost use Rattle.wire_clocks.specs.Notes.{clock_number, clock_stands, IsTopOf};
ghost use Rattle.wire_clocks.specs.Notes.{IsNotedClock, KeepsNotes, IsRisingTree, rising_tree_says};

use crate::rows::{BLOCK, number, raise_block};
use std::alloc::AllocError;

/// How many notes stand above a tree at most.
const MOST_NOTES: u32 = 16;

/// The last place in the list of rows, or of notes, with a root of 32 bits.
const LAST_PLACE: u32 = u32::MAX / 2;

/// A clock that says at least `number` of `process`, and else what the clock with the root `below` says.
#[derive(Clone, Copy)]
pub(crate) struct Note {
    pub below: u32,
    pub process: u32,
    pub number: u32,
}

/// A tree that is to be raised at one block of 16 processes.
#[derive(Clone, Copy)]
pub(crate) struct RisingTree {
    pub tree: u32,
    pub block: u32,
    pub least: [u32; 16],
}

/// The root of a tree.
pub(crate) fn root_of(tree: u32) -> Result<u32, AllocError>
    ensures { IfOk result (IsTopOf tree) }
{
    if tree > LAST_PLACE {
        return Err(AllocError);
    }
    Ok(2 * tree)
}

/// The note with this root, if it is a note's.
fn note_at(notes: &[Note], root: u32) -> Option<Note>
    ensures { result ≡ note_at notes.now root }
{
    if root % 2 == 0 {
        return None;
    }
    notes.get((root / 2) as usize).copied()
}

/// The note with this root, if it is a note's and notes are left.
fn next_note(notes: &[Note], left: u32, root: u32) -> Option<Note>
    ensures { result ≡ next_note notes.now left root }
{
    if left == 0 {
        return None;
    }
    note_at(notes, root)
}

/// A number of a process, raised to what a note says of it.
fn raise_number(note: Note, process: u32, number: u32) -> u32
    ensures { result ≡ raised_at note.process note.number process number }
{
    if process == note.process {
        number.max(note.number)
    } else {
        number
    }
}

/// What a clock says of a process: the greatest number of its notes and its tree.
pub(crate) fn number_at(
    rows: &[[u32; 16]],
    notes: &[Note],
    levels: u32,
    root: u32,
    process: u32,
) -> u32
    requires levels { levels ≤ 8 }
    requires zero { IsZero rows.now }
    ensures { result ≡ clock_number rows.now notes.now levels most_notes root process }
{
    let mut at = root;
    let mut least: u32 = 0;
    let mut left: u32 = MOST_NOTES;
    'down: while let Some(note) = next_note(notes, left, at) {
        least = raise_number(note, process, least);
        at = note.below;
        left -= 1;
    }
    number(rows, levels, at / 2, process).max(least)
}

/// Whether no more notes than this stand above the tree of a clock, where one more may.
fn is_low(notes: &[Note], left: u32, root: u32) -> bool
    ensures { (rows : List (List ℕ)) → (height : ℕ) → clock_stands rows notes.now height (suc left) root ≡ true →
        result ≡ clock_stands rows notes.now height left root }
{
    match note_at(notes, root) {
        None => true,
        Some(note) => left > 0 && is_low(notes, left - 1, note.below),
    }
}

/// Whether a note of a process may stand above a clock: fewer than 16 notes stand there, and the top one is of the same
/// block of 16 processes. So are all below it, as each was added so, and together they cost one path when they are put
/// into the tree.
fn takes_note(notes: &[Note], root: u32, process: u32) -> bool
    ensures { (rows : List (List ℕ)) → (height : ℕ) → clock_stands rows notes.now height most_notes root ≡ true →
        result ≡ (is_near process (note_at notes.now root) && clock_stands rows notes.now height most_below root) }
{
    let near = match note_at(notes, root) {
        None => true,
        Some(note) => note.process / BLOCK == process / BLOCK,
    };
    near && is_low(notes, MOST_NOTES - 1, root)
}

/// A tree as it is, to be raised, so far by nothing.
fn begin_rising(tree: u32) -> RisingTree
    ensures rising { (rows : List (List ℕ)) → (height : ℕ) → IsTree rows height tree → IsRisingTree rows height result }
    ensures says { (rows : List (List ℕ)) → (height : ℕ) → (q : ℕ) → rising_tree_says rows height result q ≡ tree_says rows height tree q }
{
    RisingTree {
        tree,
        block: 0,
        least: [0; 16],
    }
}

/// Goes on to another block.
fn turn_to(
    rows: &mut Vec<[u32; 16]>,
    levels: u32,
    rising: RisingTree,
    block: u32,
) -> Result<RisingTree, AllocError>
    requires levels { levels ≤ 8 }
    requires high { 0 < levels }
    requires zero { IsZero rows.old.items }
    requires rising { IsRisingTree rows.old.items levels rising }
    requires block { block < 16 ^ (levels - 1) }
    ensures keeps { KeepsRows rows.old.items rows.new.items }
    ensures rising { IfOk result (IsRisingTree rows.new.items levels) }
    ensures block { IfOk result (λ r. r.block ≡ block) }
    ensures same { IfOk result (λ r. (q : ℕ) → q < 16 ^ levels → rising_tree_says rows.new.items levels r q
        ≡ rising_tree_says rows.old.items levels rising q) }
{
    if block == rising.block {
        return Ok(rising);
    }
    let tree = raise_block(rows, levels, rising.tree, rising.block, &rising.least)?;
    Ok(RisingTree {
        tree,
        block,
        least: [0; 16],
    })
}

/// Raises it at a process.
fn raise_at(
    rows: &mut Vec<[u32; 16]>,
    levels: u32,
    rising: RisingTree,
    process: u32,
    number: u32,
) -> Result<RisingTree, AllocError>
    requires levels { levels ≤ 8 }
    requires high { 0 < levels }
    requires zero { IsZero rows.old.items }
    requires rising { IsRisingTree rows.old.items levels rising }
    requires process { process < 16 ^ levels }
    ensures keeps { KeepsRows rows.old.items rows.new.items }
    ensures rising { IfOk result (IsRisingTree rows.new.items levels) }
    ensures says { IfOk result (λ r. (q : ℕ) → q < 16 ^ levels → rising_tree_says rows.new.items levels r q ≡
        raised_at process number q (rising_tree_says rows.old.items levels rising q)) }
{
    let mut rising = turn_to(rows, levels, rising, process / BLOCK)?;
    let place = (process % BLOCK) as usize;
    rising.least[place] = rising.least[place].max(number);
    Ok(rising)
}

/// The tree of a clock, to be raised to what its notes say, of which there are no more than `left`.
fn gather_notes(
    rows: &mut Vec<[u32; 16]>,
    notes: &[Note],
    levels: u32,
    left: u32,
    root: u32,
) -> Result<RisingTree, AllocError>
    requires levels { levels ≤ 8 }
    requires high { 0 < levels }
    requires zero { IsZero rows.old.items }
    requires root { clock_stands rows.old.items notes.now levels left root ≡ true }
    ensures keeps { KeepsRows rows.old.items rows.new.items }
    ensures rising { IfOk result (IsRisingTree rows.new.items levels) }
    ensures says { IfOk result (λ r. (q : ℕ) → q < 16 ^ levels → rising_tree_says rows.new.items levels r q ≡
        clock_number rows.old.items notes.now levels left root q) }
{
    let Some(note) = next_note(notes, left, root) else {
        return Ok(begin_rising(root / 2));
    };
    let rising = gather_notes(rows, notes, levels, left - 1, note.below)?;
    raise_at(rows, levels, rising, note.process, note.number)
}

/// The tree that says what a clock says.
pub(crate) fn flatten(
    rows: &mut Vec<[u32; 16]>,
    notes: &[Note],
    levels: u32,
    root: u32,
) -> Result<u32, AllocError>
    requires levels { levels ≤ 8 }
    requires high { 0 < levels }
    requires zero { IsZero rows.old.items }
    requires root { clock_stands rows.old.items notes.now levels most_notes root ≡ true }
    ensures keeps { KeepsRows rows.old.items rows.new.items }
    ensures tree { IfOk result (λ t. IsTree rows.new.items levels t) }
    ensures says { IfOk result (λ t. (q : ℕ) → q < 16 ^ levels → tree_says rows.new.items levels t q ≡
        clock_number rows.old.items notes.now levels most_notes root q) }
{
    if root % 2 == 0 {
        return Ok(root / 2);
    }
    let rising = gather_notes(rows, notes, levels, MOST_NOTES, root)?;
    raise_block(rows, levels, rising.tree, rising.block, &rising.least)
}

/// A clock that says what the given one says, and above which a note of the process may stand.
pub(crate) fn shorten(
    rows: &mut Vec<[u32; 16]>,
    notes: &[Note],
    levels: u32,
    root: u32,
    process: u32,
) -> Result<u32, AllocError>
    requires levels { levels ≤ 8 }
    requires high { 0 < levels }
    requires zero { IsZero rows.old.items }
    requires root { clock_stands rows.old.items notes.now levels most_notes root ≡ true }
    ensures keeps { KeepsRows rows.old.items rows.new.items }
    ensures stands { IfOk result (λ r. clock_stands rows.new.items notes.now levels most_below r ≡ true) }
    ensures says { IfOk result (λ r. (q : ℕ) → q < 16 ^ levels → clock_number rows.new.items notes.now levels most_below r q ≡
        clock_number rows.old.items notes.now levels most_notes root q) }
{
    if takes_note(notes, root, process) {
        return Ok(root);
    }
    let tree = flatten(rows, notes, levels, root)?;
    root_of(tree)
}

/// Adds a note. Its root.
pub(crate) fn add_note(notes: &mut Vec<Note>, note: Note) -> Result<u32, AllocError>
    ensures keeps { KeepsNotes notes.old.items notes.new.items }
    ensures noted { IfOk result (IsNotedClock notes.old.items notes.new.items note) }
{
    if notes.len() > LAST_PLACE as usize {
        return Err(AllocError);
    }
    let root = 2 * notes.len() as u32 + 1;
    notes.push(note)?;
    Ok(root)
}
