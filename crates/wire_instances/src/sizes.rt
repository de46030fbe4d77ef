//! How many processes the roles of an instance have, where some groups are named.

ghost use Rattle.std.specs.Prelude.{◌≡◌, ◌≤◌, ◌<◌, ◌^◌, ℕ, true, false, map, sum_by, length, IfOk, IfErr, IfSome};
ghost use Rattle.std.specs.Prelude.{MatchOption};
ghost use Rattle.std.specs.Str.{bytes_eq};
ghost use Rattle.wire_pattern.specs.Instances.{HaveLeast};
ghost use Rattle.wire_pattern.specs.Views.{role_by};
ghost use Rattle.wire_instances.specs.Asked as spec;
ghost use Rattle.wire_instances.specs.Asked.{asked_by, IsPassed};
ghost use Rattle.wire_instances.specs.Tables.{AreSizes};

use std::alloc::{AllocError, Global};
use wire_pattern::{Pattern, Role};
use wire_types::Fault;

/// So many processes of the group of this name.
#[derive(Drop)]
pub struct Asked {
    pub name: Vec<u8>,
    pub count: u32,
}

/// Whether two names are the same.
fn same_name(a: &[u8], b: &[u8]) -> bool
    ensures { result ≡ bytes_eq a.now b.now }
{
    a == b
}

/// Whether a role is a group of the name that is asked for, and may have so many processes.
fn fits_role(role: &Role, asked: &Asked) -> bool
    ensures { result ≡ spec.fits_role (asked_by asked.now) (role_by role.now) }
{
    same_name(asked.name.as_slice(), role.name.as_slice())
        && !role.single
        && role.least <= asked.count
}

/// Whether a group of the name is there, and may have so many processes.
fn fits(roles: &[Role], asked: &Asked) -> bool
    ensures { result ≡ spec.fits (map role_by roles.now) (asked_by asked.now) }
{
    for role in roles {
        if fits_role(role, asked) {
            return true;
        }
    }
    false
}

/// Whether one of these has the name.
fn is_named(asked: &[Asked], name: &[u8]) -> bool
    ensures { result ≡ spec.is_named (map asked_by asked.now) name.now }
{
    for other in asked {
        if same_name(other.name.as_slice(), name) {
            return true;
        }
    }
    false
}

/// Whether each of these fits, and none is named twice.
fn are_fit(roles: &[Role], asked: &[Asked]) -> bool
    ensures { result ≡ spec.are_fit (map role_by roles.now) (map asked_by asked.now) }
{
    for number in 0..asked.len() {
        let one = &asked[number];
        if !fits(roles, one) || is_named(&asked[number + 1..], one.name.as_slice()) {
            return false;
        }
    }
    true
}

/// How many processes a group has: its least number where it isn't named.
fn group_size(asked: &[Asked], role: &Role) -> u32
    ensures { result ≡ spec.group_size (map asked_by asked.now) (role_by role.now) }
{
    for one in asked {
        if same_name(one.name.as_slice(), role.name.as_slice()) {
            return one.count;
        }
    }
    role.least
}

/// How many processes each role has: a single one 1, a group as many as are asked for, or else its least number.
/// Nothing where a name that is asked for isn't that of a group, or is there twice, or where the number is lower than
/// the group's least.
pub fn sizes_asked(
    alloc: Global,
    pattern: &Pattern,
    asked: &[Asked],
) -> Result<Option<Vec<u32>>, AllocError>
    ensures fit { IfOk result (λ o. MatchOption o (spec.are_fit pattern.now.roles (map asked_by asked.now) ≡ false)
        (λ v. spec.are_fit pattern.now.roles (map asked_by asked.now) ≡ true)) }
    ensures sizes { IfOk result (λ o. IfSome o (λ v. v.items ≡ map (spec.size_asked (map asked_by asked.now)) pattern.now.roles)) }
    ensures cast { IfOk result (λ o. IfSome o (λ v. AreSizes pattern.now.roles v.items)) }
    ensures least { IfOk result (λ o. IfSome o (λ v. HaveLeast pattern.now.roles v.items)) }
{
    let roles = pattern.roles();
    if !are_fit(roles, asked) {
        return Ok(None);
    }
    let mut sizes = Vec::with_capacity(alloc, roles.len())?;
    for role in roles {
        let size = if role.single {
            1
        } else {
            group_size(asked, role)
        };
        sizes.push(size)?;
    }
    Ok(Some(sizes))
}

/// How many processes roles of these sizes have. If these are more than `most`, the fault is TooMany, with the line
/// of the role with whose processes they are.
pub fn processes_within(pattern: &Pattern, sizes: &[u32], most: u32) -> Result<u32, Fault>
    requires { length sizes.now ≡ length pattern.now.roles }
    ensures ok { IfOk result (λ total. total ≡ sum_by (λ (size : ℕ). size) sizes.now) }
    ensures within { IfOk result (λ total. total ≤ most) }
    ensures err { IfErr result (λ e. IsPassed pattern.now.roles sizes.now most e) }
{
    let roles = pattern.roles();
    let mut total: u32 = 0;
    for number in 0..sizes.len() {
        if sizes[number] > most - total {
            return Err(Fault::TooMany(roles[number].number));
        }
        total += sizes[number];
    }
    Ok(total)
}
