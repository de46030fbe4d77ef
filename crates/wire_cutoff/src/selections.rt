//! The instances that are judged: how many processes each role has, and which turns are taken.

ghost use Rattle.std.specs.Prelude.{◌≡◌, ◌++◌, ◌∷◌, [], ◌<◌, ◌^◌, ℕ, List, Some, OnOk, IfOk, map, slice_get};
ghost use Rattle.wire_types.specs.Texts.{lists_of};
ghost use Rattle.wire_pattern.specs.Lawful.{IsSoundPattern};
ghost use Rattle.wire_cutoff.specs.Selections as spec;
ghost use Rattle.wire_cutoff.specs.Selections.{most_sizes};
ghost use Rattle.wire_cutoff.specs.Views.{selection_by};
ghost use Rattle.wire_cutoff_laws.specs.Sizes as counted;
ghost use Rattle.wire_cutoff_laws.specs.Sizes.{AreFewSizes};

use crate::choices::optional_turns;
use crate::sizes::{all_sizes, most_of_each};
use std::alloc::{AllocError, Global};
use wire_instances::{process_total, roles_by};
use wire_pattern::Pattern;

/// How many processes each role has, and which of the turns that may be left out are taken.
#[derive(Drop)]
pub struct Selection {
    pub sizes: Vec<u32>,
    pub taken: Vec<bool>,
}

/// A pattern is sound.
pub(crate) fn note_sound(pattern: &Pattern)
    ensures { IsSoundPattern pattern.now }
{
    let _roles = pattern.roles();
}

/// How many processes all roles have.
pub(crate) fn total_of(sizes: &[u32]) -> u32
    requires { counted.total_of sizes.now < 2 ^ 31 }
    ensures { result ≡ counted.total_of sizes.now }
{
    let Some(total) = process_total(sizes) else {
        unreachable!();
    };
    total
}

/// A list with one value before it.
fn with_bit(alloc: Global, bit: bool, bits: &[bool]) -> Result<Vec<bool>, AllocError>
    ensures { IfOk result (λ v. v.items ≡ bit ∷ bits.now) }
{
    let mut longer = Vec::with_capacity(alloc, bits.len() + 1)?;
    longer.push(bit)?;
    longer.extend_from_slice(bits)?;
    Ok(longer)
}

/// Adds one selection.
fn add_selection(
    all: &mut Vec<Selection>,
    alloc: Global,
    sizes: &[u32],
    taken: &[bool],
) -> Result<(), AllocError>
    ensures { OnOk result (map selection_by all.new.items ≡ map selection_by all.old.items ++ spec.select sizes.now taken.now ∷ []) }
{
    let sizes = Vec::from_slice(alloc, sizes)?;
    let taken = Vec::from_slice(alloc, taken)?;
    all.push(Selection { sizes, taken })?;
    Ok(())
}

/// Adds the selections with each choice of the first turns, so many of them, and these of the turns behind.
fn add_ways(
    all: &mut Vec<Selection>,
    alloc: Global,
    sizes: &[u32],
    count: usize,
    behind: &[bool],
) -> Result<(), AllocError>
    ensures { OnOk result (map selection_by all.new.items
        ≡ map selection_by all.old.items ++ map (spec.select sizes.now) (spec.ways count behind.now)) }
{
    if count == 0 {
        return add_selection(all, alloc, sizes, behind);
    }
    let left = with_bit(alloc, false, behind)?;
    add_ways(all, alloc, sizes, count - 1, left.as_slice())?;
    let taken = with_bit(alloc, true, behind)?;
    add_ways(all, alloc, sizes, count - 1, taken.as_slice())
}

/// Adds the selections with so many processes of each role.
fn add_sizes(
    all: &mut Vec<Selection>,
    alloc: Global,
    pattern: &Pattern,
    sizes: &[u32],
) -> Result<(), AllocError>
    requires sizes { AreFewSizes pattern.now.roles sizes.now }
    requires few { counted.total_of sizes.now < 2 ^ 31 }
    ensures { OnOk result (map selection_by all.new.items ≡ map selection_by all.old.items ++ spec.of_sizes pattern.now sizes.now) }
{
    note_sound(pattern);
    let roles = roles_by(alloc, sizes)?;
    let turns = optional_turns(alloc, pattern, roles.as_slice())?;
    let none = Vec::new(alloc);
    add_ways(all, alloc, sizes, turns.len(), none.as_slice())
}

/// Adds the selections of those of these sizes that have so many processes in all.
fn add_total(
    all: &mut Vec<Selection>,
    alloc: Global,
    pattern: &Pattern,
    lists: &[Vec<u32>],
    total: u32,
) -> Result<(), AllocError>
    requires sizes { (i : ℕ) (list : List ℕ) → slice_get (lists_of lists.now) i ≡ Some list → AreFewSizes pattern.now.roles list }
    requires few { counted.total_of (most_sizes pattern.now.roles) < 2 ^ 31 }
    ensures { OnOk result (map selection_by all.new.items
        ≡ map selection_by all.old.items ++ spec.of_total pattern.now (lists_of lists.now) total) }
{
    for sizes in lists {
        if total_of(sizes.as_slice()) == total {
            add_sizes(all, alloc, pattern, sizes.as_slice())?;
        }
    }
    Ok(())
}

/// The instances that are judged, in their order: those with the fewest processes first.
pub fn all_selections(alloc: Global, pattern: &Pattern) -> Result<Vec<Selection>, AllocError>
    requires { counted.total_of (most_sizes pattern.now.roles) < 2 ^ 31 }
    ensures { IfOk result (λ v. map selection_by v.items ≡ spec.selections pattern.now) }
{
    let lists = all_sizes(alloc, pattern.roles())?;
    let most = most_of_each(alloc, pattern.roles())?;
    let end = total_of(most.as_slice()) + 1;
    let mut all = Vec::new(alloc);
    for total in 0..end {
        add_total(&mut all, alloc, pattern, lists.as_slice(), total)?;
    }
    Ok(all)
}
