//! How many processes of each role are judged.

ghost use Rattle.std.specs.Prelude.{◌≡◌, ◌++◌, [], ◌∷◌, OnOk, IfOk, map};
ghost use Rattle.wire_types.specs.Texts.{lists_of};
ghost use Rattle.wire_pattern.specs.Views.{role_by};
ghost use Rattle.wire_cutoff.specs.Selections.{most_sizes};
ghost use Rattle.wire_cutoff_laws.specs.Sizes as spec;

use std::alloc::{AllocError, Global};
use wire_pattern::Role;

/// The most processes of a role that are judged: of a group three, or its least number where that is more.
pub fn most_of(role: &Role) -> u32
    ensures { result ≡ spec.most_of (role_by role.now) }
{
    if role.single {
        1
    } else if role.least < 3 {
        3
    } else {
        role.least
    }
}

/// A list with one number more.
fn followed_by(alloc: Global, sizes: &[u32], size: u32) -> Result<Vec<u32>, AllocError>
    ensures { IfOk result (λ v. v.items ≡ sizes.now ++ size ∷ []) }
{
    let mut longer = Vec::with_capacity(alloc, sizes.len() + 1)?;
    longer.extend_from_slice(sizes)?;
    longer.push(size)?;
    Ok(longer)
}

/// Adds a list for each number of processes of the role: these sizes, followed by that number.
#[tactic(auto, using(crate::proofs::Numbers::one_followed, crate::proofs::Numbers::numbers_none))]
fn add_followed(
    lists: &mut Vec<Vec<u32>>,
    alloc: Global,
    sizes: &[u32],
    role: &Role,
) -> Result<(), AllocError>
    ensures { OnOk result (lists_of lists.new.items
        ≡ lists_of lists.old.items ++ spec.followed sizes.now (spec.sizes_of (role_by role.now))) }
{
    let most = most_of(role) as u64;
    let mut size = role.least as u64;
    'sizes: while size <= most {
        let longer = followed_by(alloc, sizes, size as u32)?;
        lists.push(longer)?;
        size += 1;
    }
    Ok(())
}

/// These lists, each followed by each number of processes of the role.
fn with_role(alloc: Global, lists: &[Vec<u32>], role: &Role) -> Result<Vec<Vec<u32>>, AllocError>
    ensures { IfOk result (λ v. lists_of v.items ≡ spec.with_role (lists_of lists.now) (role_by role.now)) }
{
    let mut longer = Vec::new(alloc);
    for sizes in lists {
        add_followed(&mut longer, alloc, sizes.as_slice(), role)?;
    }
    Ok(longer)
}

/// The lists of sizes that are judged, in lexicographic order: a number for each role, from its least to its most.
pub fn all_sizes(alloc: Global, roles: &[Role]) -> Result<Vec<Vec<u32>>, AllocError>
    ensures { IfOk result (λ v. lists_of v.items ≡ spec.all_sizes (map role_by roles.now)) }
{
    let mut lists = Vec::new(alloc);
    lists.push(Vec::new(alloc))?;
    for role in roles {
        lists = with_role(alloc, lists.as_slice(), role)?;
    }
    Ok(lists)
}

/// The most processes of each role that are judged.
pub(crate) fn most_of_each(alloc: Global, roles: &[Role]) -> Result<Vec<u32>, AllocError>
    ensures { IfOk result (λ v. v.items ≡ most_sizes (map role_by roles.now)) }
{
    let mut sizes = Vec::with_capacity(alloc, roles.len())?;
    for role in roles {
        sizes.push(most_of(role))?;
    }
    Ok(sizes)
}
