//! Trees of fan-out 16 in one list of rows. A tree of height 0 is a number, and the numbers of a row are
//! its subtrees. Rows are added, and never changed. Row 0 is all zeros, and is a tree of each height.

ghost use Rattle.std.specs.Prelude.{◌≡◌, ◌<◌, ◌≤◌, ◌+◌, ◌-◌, ◌*◌, ◌/◌};
ghost use Rattle.std.specs.Prelude.{◌%◌, ◌^◌, ◌↔◌, ◌==◌, ℕ, IsTrue, IfOk, length};
ghost use Rattle.std.specs.Prelude.{slice_index, max, if◌then◌else◌};
ghost use Rattle.wire_clocks.specs.Rows.{entry, tree_says, IsTree, IsZero, KeepsRows};

use std::alloc::AllocError;

/// How many processes are in a block: as many as a row has numbers.
pub(crate) const BLOCK: u32 = 16;

/// Which subtree of a tree is a process's, where the subtrees have this height.
pub(crate) fn place(process: u32, level: u32) -> usize
    requires { level < 8 }
    ensures { result ≡ process / 16 ^ level }
{
    (process >> (4 * level)) as usize
}

/// Which process of its subtree a process is, where the subtree has this height.
fn place_below(process: u32, level: u32) -> u32
    requires { level < 8 }
    ensures { result ≡ process % 16 ^ level }
{
    process & ((1 << (4 * level)) - 1)
}

/// A number of a row, 0 past its end and past the last row.
fn entry(rows: &[[u32; 16]], row: u32, place: usize) -> u32
    ensures { result ≡ entry rows.now row place }
{
    match rows.get(row as usize) {
        Some(numbers) => numbers.get(place).copied().unwrap_or(0),
        None => 0,
    }
}

/// What the tree says of a process.
pub(crate) fn number(rows: &[[u32; 16]], levels: u32, root: u32, process: u32) -> u32
    requires levels { levels ≤ 8 }
    requires zero { IsZero rows.now }
    ensures { result ≡ tree_says rows.now levels root process }
{
    let mut row = root;
    let mut rest = process;
    let mut level = levels;
    'down: while level > 0 {
        if row == 0 {
            return 0;
        }
        level -= 1;
        row = entry(rows, row, place(rest, level));
        rest = place_below(rest, level);
    }
    row
}

/// Adds a row. Its number.
fn add(rows: &mut Vec<[u32; 16]>, row: [u32; 16]) -> Result<u32, AllocError>
    ensures keeps { KeepsRows rows.old.items rows.new.items }
    ensures there { IfOk result (λ n. n < length rows.new.items) }
    ensures row { IfOk result (λ n. (i : ℕ) → entry rows.new.items n i ≡ slice_index row i) }
{
    if rows.len() > u32::MAX as usize {
        return Err(AllocError);
    }
    let number = rows.len() as u32;
    rows.push(row)?;
    Ok(number)
}

/// The numbers of a row.
fn numbers(rows: &[[u32; 16]], row: u32) -> [u32; 16]
    requires { row < length rows.now }
    ensures width { length result ≡ 16 }
    ensures each { (i : ℕ) → slice_index result i ≡ entry rows.now row i }
{
    rows[row as usize]
}

/// The numbers of a row with one of them changed.
fn change_number(rows: &[[u32; 16]], row: u32, place: usize, number: u32) -> [u32; 16]
    requires there { row < length rows.now }
    requires place { place < 16 }
    ensures { (i : ℕ) → slice_index result i ≡ (if i == place then number else entry rows.now row i) }
{
    let mut numbers = numbers(rows, row);
    numbers[place] = number;
    numbers
}

/// A row with these numbers: one of two rows where it has them, else a new one.
fn row_of(
    rows: &mut Vec<[u32; 16]>,
    row: [u32; 16],
    left: u32,
    right: u32,
) -> Result<u32, AllocError>
    requires left { left < length rows.old.items }
    requires right { right < length rows.old.items }
    ensures keeps { KeepsRows rows.old.items rows.new.items }
    ensures there { IfOk result (λ n. n < length rows.new.items) }
    ensures row { IfOk result (λ n. (i : ℕ) → entry rows.new.items n i ≡ slice_index row i) }
{
    if numbers(rows, right) == row {
        return Ok(right);
    }
    if numbers(rows, left) == row {
        return Ok(left);
    }
    add(rows, row)
}

/// The tree with this number at a process, and as the given one elsewhere.
pub(crate) fn put(
    rows: &mut Vec<[u32; 16]>,
    level: u32,
    tree: u32,
    process: u32,
    number: u32,
) -> Result<u32, AllocError>
    requires level { level ≤ 8 }
    requires zero { IsZero rows.old.items }
    requires tree { IsTree rows.old.items level tree }
    requires process { process < 16 ^ level }
    ensures keeps { KeepsRows rows.old.items rows.new.items }
    ensures tree { IfOk result (λ t. IsTree rows.new.items level t) }
    ensures above { IfOk result (λ t. (k : ℕ) → IsTree rows.old.items (level + k) tree → IsTree rows.old.items k number →
        IsTree rows.new.items (level + k) t) }
    ensures says { IfOk result (λ t. (q : ℕ) → q < 16 ^ level → tree_says rows.new.items level t q ≡
        (if q == process then number else tree_says rows.old.items level tree q)) }
{
    if level == 0 {
        return Ok(number);
    }
    let below = level - 1;
    let at = place(process, below);
    let old = entry(rows, tree, at);
    let new = put(rows, below, old, place_below(process, below), number)?;
    let row = change_number(rows, tree, at, new);
    add(rows, row)
}

/// The greater of two numbers at each place.
fn greater_numbers(lefts: &[u32; 16], rights: &[u32; 16]) -> [u32; 16]
    ensures width { length result ≡ 16 }
    ensures each { (i : ℕ) → i < 16 → slice_index result i ≡ max (slice_index lefts.now i) (slice_index rights.now i) }
{
    let mut greater = *lefts;
    for i in 0..16 {
        greater[i] = greater[i].max(rights[i]);
    }
    greater
}

/// The tree with the greater number of two trees at each process.
pub(crate) fn join(
    rows: &mut Vec<[u32; 16]>,
    level: u32,
    left: u32,
    right: u32,
) -> Result<u32, AllocError>
    requires level { level ≤ 8 }
    requires zero { IsZero rows.old.items }
    requires left { IsTree rows.old.items level left }
    requires right { IsTree rows.old.items level right }
    ensures keeps { KeepsRows rows.old.items rows.new.items }
    ensures tree { IfOk result (λ t. IsTree rows.new.items level t) }
    ensures says { IfOk result (λ t. (q : ℕ) → q < 16 ^ level → tree_says rows.new.items level t q ≡
        max (tree_says rows.old.items level left q) (tree_says rows.old.items level right q)) }
{
    if level == 0 {
        return Ok(left.max(right));
    }
    if left == right || right == 0 {
        return Ok(left);
    }
    if left == 0 {
        return Ok(right);
    }
    let lefts = numbers(rows, left);
    let rights = numbers(rows, right);
    if level == 1 {
        return row_of(rows, greater_numbers(&lefts, &rights), left, right);
    }
    let mut joined = [0; 16];
    'each: for i in 0..16 {
        let number = join(rows, level - 1, lefts[i], rights[i])?;
        joined[i] = number;
    }
    row_of(rows, joined, left, right)
}

/// The tree with at least these numbers at 16 processes side by side, and as the given one elsewhere.
pub(crate) fn raise_block(
    rows: &mut Vec<[u32; 16]>,
    levels: u32,
    root: u32,
    block: u32,
    least: &[u32; 16],
) -> Result<u32, AllocError>
    requires levels { levels ≤ 8 }
    requires high { 0 < levels }
    requires zero { IsZero rows.old.items }
    requires root { IsTree rows.old.items levels root }
    requires block { block < 16 ^ (levels - 1) }
    ensures keeps { KeepsRows rows.old.items rows.new.items }
    ensures tree { IfOk result (λ t. IsTree rows.new.items levels t) }
    ensures says { IfOk result (λ t. (q : ℕ) → q < 16 ^ levels → tree_says rows.new.items levels t q ≡
        (if q / 16 == block then max (tree_says rows.old.items levels root q) (slice_index least.now (q % 16))
        else tree_says rows.old.items levels root q)) }
{
    let above = levels - 1;
    let lowest = number(rows, above, root, block);
    let stands = numbers(rows, lowest);
    let raised = row_of(rows, greater_numbers(&stands, least), lowest, lowest)?;
    if raised == lowest {
        return Ok(root);
    }
    put(rows, above, root, block, raised)
}
