//! A set of call lines.

ghost use Rattle.std.specs.Prelude.{◌≡◌, ◌<◌, ◌==◌, ◌&&◌, ◌||◌, ℕ, false, OnOk, length, slice_index_or};
ghost use Rattle.wire_types.specs.Texts.{lists_of};
ghost use Rattle.wire_pattern_waits.specs.LineSets.{has_line};

use std::alloc::{AllocError, Global};
use std::marker::Model;

/// Appends rows until there is one with this number.
fn add_rows(alloc: Global, rows: &mut Vec<Vec<bool>>, number: u32) -> Result<(), AllocError>
    ensures there { OnOk result (number < length rows.new.items) }
    ensures same { OnOk result ((role line : ℕ) → has_line (lists_of rows.new.items) role line ≡ has_line (lists_of rows.old.items) role line) }
{
    for _row in rows.len()..number as usize + 1 {
        rows.push(Vec::new(alloc))?;
    }
    Ok(())
}

/// Lengthens a row until it has a flag with this number. It fails only where memory runs out.
fn lengthen(row: &mut Vec<bool>, number: usize) -> Result<(), AllocError>
    ensures there { OnOk result (number < length row.new.items) }
    ensures same { OnOk result ((line : ℕ) → slice_index_or row.new.items line false ≡ slice_index_or row.old.items line false) }
{
    if number < row.len() {
        return Ok(());
    }
    let Some(count) = number.checked_add(1) else {
        return Err(AllocError);
    };
    row.resize(count, false)?;
    Ok(())
}

/// Sets the flag of this number, whether the row had it or not.
fn set_flag(row: &mut Vec<bool>, number: usize) -> Result<(), AllocError>
    ensures { OnOk result ((line : ℕ) → slice_index_or row.new.items line false ≡ slice_index_or row.old.items line false || number == line) }
{
    lengthen(row, number)?;
    row[number] = true;
    Ok(())
}

/// The flag of this number, not set where the row has none.
fn flag_at(row: &[bool], number: usize) -> bool
    ensures { result ≡ slice_index_or row.now number false }
{
    match row.get(number) {
        Some(flag) => *flag,
        None => false,
    }
}

/// Whether rows have the line of this number of the role's script.
fn has_flag(rows: &[Vec<bool>], role: u32, line: usize) -> bool
    ensures { result ≡ has_line (lists_of rows.now) role line }
{
    let Some(row) = rows.get(role as usize) else {
        return false;
    };
    flag_at(row.as_slice(), line)
}

/// A set of call lines, each told by the number of its role and its own in the role's script. To look one up, or to put
/// one in, takes no longer the more there are.
#[derive(Drop)]
pub struct LineSet {
    rows: Vec<Vec<bool>>,
}

impl Model for LineSet {
    ghost use Rattle.std.specs.Prelude.{List, Bool};
    ghost use Rattle.wire_types.specs.Texts.{lists_of};

    ghost Value = { List (List Bool) };

    ghost view = { λ s. lists_of s.rows.items };
}

impl LineSet {
    /// No line. Takes no memory.
    pub fn new(alloc: Global) -> LineSet
        ensures { (role line : ℕ) → has_line result role line ≡ false }
    {
        LineSet {
            rows: Vec::new(alloc),
        }
    }

    /// Whether it has the line of this number of the role's script.
    pub fn has(&self, role: u32, line: usize) -> bool
        ensures { result ≡ has_line self.now role line }
    {
        has_flag(self.rows.as_slice(), role, line)
    }

    /// Puts a line in.
    pub fn insert(&mut self, alloc: Global, role: u32, line: usize) -> Result<(), AllocError>
        ensures { OnOk result ((r l : ℕ) → has_line self.new r l ≡ has_line self.old r l || (role == r && line == l)) }
    {
        add_rows(alloc, &mut self.rows, role)?;
        set_flag(&mut self.rows[role as usize], line)?;
        Ok(())
    }
}
