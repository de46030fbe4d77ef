//! What a call names, and whether it may.

ghost use Rattle.std.specs.Prelude.{◌≡◌, map, length, slice_get};
ghost use Rattle.std.specs.List.{list_all, list_any};
ghost use Rattle.wire_pattern.specs.Lawful as pattern;
ghost use Rattle.wire_pattern.specs.Planned.{single_in};
ghost use Rattle.wire_pattern.specs.Instances.{job_in};
ghost use Rattle.wire_pattern.specs.Views.{who_by, indexed_by, view_item, view_call, role_by, turns_by};
ghost use Rattle.wire_pattern_script.specs.Faults as spec;

use wire_pattern::{Call, Indexed, Item, Role, Turns, Who};

/// Whether the role of this number is of one process.
fn is_single(roles: &[Role], role: u32) -> bool
    ensures { result ≡ single_in (slice_get (map role_by roles.now) role) }
{
    match roles.get(role as usize) {
        Some(role) => role.single,
        None => false,
    }
}

/// The number of a role's job.
fn job_of(roles: &[Role], role: u32) -> u32
    ensures { result ≡ job_in (slice_get (map role_by roles.now) role) }
{
    match roles.get(role as usize) {
        Some(role) => role.job,
        None => 0,
    }
}

/// Whether the role of a process is declared.
fn is_declared_who(roles: usize, who: &Who) -> bool
    ensures { result ≡ spec.is_declared_who roles (who_by who.now) }
{
    match who {
        Who::Only(role) => (*role as usize) < roles,
        Who::Caller | Who::Each => true,
    }
}

/// Whether the roles of these processes are declared.
fn are_declared_whos(roles: usize, whos: &[Who]) -> bool
    ensures { result ≡ list_all (λ w. spec.is_declared_who roles (who_by w)) whos.now }
{
    whos.iter().all(|who| is_declared_who(roles, who))
}

/// Whether the roles that index a word are declared.
fn is_declared_word(roles: usize, word: &Indexed) -> bool
    ensures { result ≡ list_all (spec.is_declared_who roles) (indexed_by word.now).indices }
{
    are_declared_whos(roles, &word.indices)
}

/// Whether the role or the job of an item is declared.
fn is_declared_item(jobs: usize, roles: usize, item: &Item) -> bool
    ensures { result ≡ spec.is_declared_item jobs roles (view_item item.now) }
{
    match item {
        Item::One(who) => is_declared_who(roles, who),
        Item::Group(role) => (*role as usize) < roles,
        Item::Job(job) => (*job as usize) < jobs,
    }
}

/// Whether the roles and jobs of these items are declared.
fn are_declared_items(jobs: usize, roles: usize, items: &[Item]) -> bool
    ensures { result ≡ list_all (λ i. spec.is_declared_item jobs roles (view_item i)) items.now }
{
    items.iter().all(|item| is_declared_item(jobs, roles, item))
}

/// Whether the roles and jobs that a call names are declared.
pub fn is_declared(jobs: usize, roles: usize, call: &Call) -> bool
    ensures { result ≡ spec.is_declared jobs roles (view_call call.now) }
{
    match call {
        Call::Commit | Call::UnpublishAll => true,
        Call::Put { key, .. } => is_declared_word(roles, key),
        Call::Fence { items, .. } => are_declared_items(jobs, roles, items),
        Call::Get { owner, key } | Call::GetNow { owner, key } => is_declared_who(roles, owner)
            && is_declared_word(roles, key),
        Call::Publish { name, .. }
        | Call::Lookup { name }
        | Call::LookupWait { name }
        | Call::Unpublish { name } => is_declared_word(roles, name),
    }
}

/// Whether a role that stands for a process is of one.
fn is_known_who(roles: &[Role], who: &Who) -> bool
    ensures { result ≡ pattern.is_known_who (map role_by roles.now) (who_by who.now) }
{
    match who {
        Who::Only(role) => is_single(roles, *role),
        Who::Caller | Who::Each => true,
    }
}

/// Whether the roles that stand for these processes are of one.
fn are_known_whos(roles: &[Role], whos: &[Who]) -> bool
    ensures { result ≡ list_all (λ w. pattern.is_known_who (map role_by roles.now) (who_by w)) whos.now }
{
    whos.iter().all(|who| is_known_who(roles, who))
}

/// Whether the roles that index a word are of one process.
fn is_known_word(roles: &[Role], word: &Indexed) -> bool
    ensures { result ≡ list_all (pattern.is_known_who (map role_by roles.now)) (indexed_by word.now).indices }
{
    are_known_whos(roles, &word.indices)
}

/// Whether what an item names is there.
fn is_known_item(jobs: usize, roles: &[Role], item: &Item) -> bool
    ensures { result ≡ pattern.is_known_item jobs (map role_by roles.now) (view_item item.now) }
{
    match item {
        Item::One(who) => is_known_who(roles, who),
        Item::Group(role) => (*role as usize) < roles.len(),
        Item::Job(job) => (*job as usize) < jobs,
    }
}

/// Whether what these items name is there.
fn are_known_items(jobs: usize, roles: &[Role], items: &[Item]) -> bool
    ensures { result ≡ list_all (λ i. pattern.is_known_item jobs (map role_by roles.now) (view_item i)) items.now }
{
    items.iter().all(|item| is_known_item(jobs, roles, item))
}

/// Whether all that a call names is there, and one process where it stands for one.
pub fn is_known(jobs: usize, roles: &[Role], call: &Call) -> bool
    ensures { result ≡ pattern.names_known jobs (map role_by roles.now) (view_call call.now) }
{
    match call {
        Call::Commit | Call::UnpublishAll => true,
        Call::Put { key, .. } => is_known_word(roles, key),
        Call::Fence { items, .. } => are_known_items(jobs, roles, items),
        Call::Get { owner, key } | Call::GetNow { owner, key } => is_known_who(roles, owner)
            && is_known_word(roles, key),
        Call::Publish { name, .. }
        | Call::Lookup { name }
        | Call::LookupWait { name }
        | Call::Unpublish { name } => is_known_word(roles, name),
    }
}

/// Whether an item has the caller, a process of this role.
fn has_caller(roles: &[Role], caller: u32, item: &Item) -> bool
    ensures { result ≡ pattern.has_caller (map role_by roles.now) caller (view_item item.now) }
{
    match item {
        Item::One(Who::Caller) => true,
        Item::One(Who::Each) => false,
        Item::One(Who::Only(role)) => *role == caller,
        Item::Group(role) => *role == caller,
        Item::Job(job) => job_of(roles, caller) == *job,
    }
}

/// Whether one of these items has the caller, a process of this role.
fn have_caller(roles: &[Role], caller: u32, items: &[Item]) -> bool
    ensures { result ≡ list_any (λ i. pattern.has_caller (map role_by roles.now) caller (view_item i)) items.now }
{
    items.iter().any(|item| has_caller(roles, caller, item))
}

/// Whether the caller, a process of this role, is in the set of its fence.
pub fn is_member_call(roles: &[Role], caller: u32, call: &Call) -> bool
    ensures { result ≡ pattern.is_member_call (map role_by roles.now) caller (view_call call.now) }
{
    match call {
        Call::Fence { items, .. } => have_caller(roles, caller, items),
        _ => true,
    }
}

/// Whether an item has all processes of the role.
fn has_role(roles: &[Role], role: u32, item: &Item) -> bool
    ensures { result ≡ pattern.has_role (map role_by roles.now) role (view_item item.now) }
{
    match item {
        Item::One(_) => false,
        Item::Group(group) => *group == role,
        Item::Job(job) => job_of(roles, role) == *job,
    }
}

/// Whether one of these items has all processes of the role.
fn have_role(roles: &[Role], role: u32, items: &[Item]) -> bool
    ensures { result ≡ list_any (λ i. pattern.has_role (map role_by roles.now) role (view_item i)) items.now }
{
    items.iter().any(|item| has_role(roles, role, item))
}

/// Whether the set of a fence has an item with all processes of the role.
fn has_whole(roles: &[Role], role: u32, call: &Call) -> bool
    ensures { result ≡ list_any (pattern.has_role (map role_by roles.now) role) (pattern.items_in (view_call call.now)) }
{
    match call {
        Call::Fence { items, .. } => have_role(roles, role, items),
        _ => false,
    }
}

/// Whether a call may stand in a loop of these turns.
fn is_turn_call(turns: Turns, call: &Call) -> bool
    ensures { result ≡ pattern.is_turn_call (turns_by turns) (view_call call.now) }
{
    match turns {
        Turns::InOrder | Turns::Round => true,
        Turns::Chosen => !matches!(
            call,
            Call::Fence { .. } | Call::Publish { .. } | Call::Unpublish { .. } | Call::UnpublishAll
        ),
    }
}

/// Whether a call may stand in a loop of these turns over this role.
pub fn fits_loop(roles: &[Role], role: u32, turns: Turns, call: &Call) -> bool
    ensures { result ≡ spec.fits_loop (map role_by roles.now) role (turns_by turns) (view_call call.now) }
{
    !has_whole(roles, role, call) && is_turn_call(turns, call)
}
