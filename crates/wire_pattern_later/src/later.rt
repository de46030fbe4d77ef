//! Where something waits first in larger instances.

ghost use Rattle.std.specs.Prelude.{◌≡◌, ◌≢◌, ◌<◌, ◌≤◌, ◌^◌, ◌↔◌, true, ℕ, Ok, Err, None, IfOk, IfErr, IfSome, MatchOption, map};
ghost use Rattle.wire_types.specs.declared.Fault.{Fault as FaultSpec};
ghost use Rattle.wire_types.specs.declared.Fault.TheVariants.{Memory};
ghost use Rattle.wire_reader.specs.declared.Size.TheVariants.{OfVersion};
ghost use Rattle.wire_reader.specs.Reads.{Reads};
ghost use Rattle.wire_pattern.specs.Instances.{IsCast, instance_text};
ghost use Rattle.wire_pattern.specs.Views.{role_by};
ghost use Rattle.wire_instances.specs.Views.{cast_by};
ghost use Rattle.wire_cutoff_laws.specs.Sizes.{total_of};
ghost use Rattle.wire_pattern_waits.specs.LineSets.{has_line};
ghost use Rattle.wire_pattern_waits.specs.Stops.{StuckAt};
ghost use Rattle.wire_pattern_later.specs.Later as spec;
ghost use Rattle.wire_pattern_later.specs.Later.{AreLater, AreWaitingWith, IsInstanceWith, IsNoneLater, IsPastLimits, IsReadWith, IsUnreadWith, StopsWith};

use crate::through::{end_size, first_size};
use std::alloc::{AllocError, Global};
use wire_instances::{Cast, all_alone, process_total, write_front};
use wire_pattern::{Pattern, Role};
use wire_pattern_waits::{CallLine, LineSet, ends_of_run, note_waits, noted_lines};
use wire_reader::{Size, read_sized, reads_once};
use wire_scripts::Scripts;
use wire_types::Fault;

/// The least number of processes of each group, from the first size on, with which something waits, and the call lines
/// at which it does.
#[derive(Drop)]
pub struct Later {
    pub ranks: u32,
    pub lines: Vec<CallLine>,
}

/// An instance: how many processes each role has, its text, and what that reads as.
#[derive(Drop)]
pub struct Instance {
    pub sizes: Vec<u32>,
    pub text: Vec<u8>,
    pub scripts: Scripts,
}

/// So many processes of each group, and one of each single role.
fn sizes_with(alloc: Global, ranks: u32, roles: &[Role]) -> Result<Vec<u32>, AllocError>
    ensures { IfOk result (λ v. v.items ≡ spec.sizes_with ranks (map role_by roles.now)) }
{
    let mut sizes = Vec::with_capacity(alloc, roles.len())?;
    for role in roles {
        sizes.push(if role.single { 1 } else { ranks })?;
    }
    Ok(sizes)
}

/// The instance with so many processes of each group, each on a node of its own, with all turns; none where it has 2^31
/// processes or more.
fn grown(alloc: Global, pattern: &Pattern, ranks: u32) -> Result<Option<Cast>, AllocError>
    ensures is { IfOk result (λ r. IfSome r (λ c. cast_by c ≡ spec.grown pattern.now ranks)) }
    ensures cast { IfOk result (λ r. IfSome r (λ c. IsCast pattern.now (cast_by c))) }
    ensures many { result ≡ Ok None → 2 ^ 31 ≤ total_of (spec.sizes_with ranks pattern.now.roles) }
{
    let sizes = sizes_with(alloc, ranks, pattern.roles())?;
    let Some(total) = process_total(sizes.as_slice()) else {
        return Ok(None);
    };
    let nodes = all_alone(alloc, total)?;
    Ok(Some(Cast {
        sizes,
        chosen: Vec::new(alloc),
        nodes,
    }))
}

/// Nothing, where a text has this fault; a fault of memory says nothing about the text.
fn unread(fault: Fault) -> Result<Option<Instance>, Fault>
    ensures ok { IfOk result (λ r. r ≡ None) }
    ensures none { result ≡ Ok None → fault ≢ Memory }
    ensures err { IfErr result (λ e. e ≡ Memory) }
{
    match fault {
        Fault::Memory => Err(Fault::Memory),
        _ => Ok(None),
    }
}

/// The instance of a cast; none where its text doesn't read as a plan.
fn instance_of(alloc: Global, pattern: &Pattern, cast: &Cast) -> Result<Option<Instance>, Fault>
    requires { IsCast pattern.now (cast_by cast.now) }
    ensures sizes { IfOk result (λ r. IfSome r (λ it. it.sizes.items ≡ (cast_by cast.now).sizes)) }
    ensures text { IfOk result (λ r. IfSome r (λ it. it.text.items ≡ instance_text pattern.now (cast_by cast.now))) }
    ensures reads { IfOk result (λ r. IfSome r (λ it. Reads OfVersion (instance_text pattern.now (cast_by cast.now)) (Ok it.scripts))) }
    ensures none { result ≡ Ok None → (fault : FaultSpec) × Reads OfVersion (instance_text pattern.now (cast_by cast.now)) (Err fault) }
    ensures err { IfErr result (λ e. e ≡ Memory) }
{
    let sizes = Vec::from_slice(alloc, cast.sizes.as_slice())?;
    let text = write_front(alloc, pattern, cast, Size::OfVersion.file_bytes() + 1)?;
    match read_sized(alloc, Size::OfVersion, text.as_slice()) {
        Ok(scripts) => Ok(Some(Instance {
            sizes,
            text,
            scripts,
        })),
        Err(fault) => unread(fault),
    }
}

/// The instance with so many processes of each group, each on a node of its own, with all turns; none where its text
/// doesn't read as a plan, as past the limits of one.
pub fn instance_with(
    alloc: Global,
    pattern: &Pattern,
    ranks: u32,
) -> Result<Option<Instance>, Fault>
    ensures ok { IfOk result (λ r. MatchOption r (IsUnreadWith pattern.now ranks)
        (λ it. IsInstanceWith pattern.now ranks it.sizes.items it.text.items it.scripts)) }
    ensures err { IfErr result (λ e. e ≡ Memory) }
{
    let Some(cast) = grown(alloc, pattern, ranks)? else {
        return Ok(None);
    };
    let found = instance_of(alloc, pattern, &cast)?;
    Ok(found)
}

/// The call lines at which the processes of this instance wait: these, and no others.
fn waits_of(
    alloc: Global,
    pattern: &Pattern,
    cast: &Cast,
    instance: Instance,
) -> Result<LineSet, Fault>
    requires { IsCast pattern.now (cast_by cast.now) }
    ensures ok { IfOk result (λ v. (role line : ℕ) → (has_line v role line ≡ true) ↔ StuckAt pattern.now (cast_by cast.now) instance.scripts role line) }
    ensures err { IfErr result (λ e. e ≡ Memory) }
{
    let Instance {
        sizes: _,
        text: _,
        scripts,
    } = instance;
    let outcome = ends_of_run(alloc, scripts)?;
    let mut noted = LineSet::new(alloc);
    note_waits(&mut noted, alloc, pattern, cast, outcome.rows.as_slice())?;
    Ok(noted)
}

/// The call lines at which something waits in this instance: these, and no others. None where its text doesn't read as
/// a plan.
fn waits_there(
    alloc: Global,
    pattern: &Pattern,
    ranks: u32,
    cast: &Cast,
) -> Result<Option<LineSet>, Fault>
    requires is { cast_by cast.now ≡ spec.grown pattern.now ranks }
    requires cast { IsCast pattern.now (cast_by cast.now) }
    ensures ok { IfOk result (λ r. IfSome r (λ v. (role line : ℕ) → (has_line v role line ≡ true) ↔ StopsWith pattern.now ranks role line)) }
    ensures read { IfOk result (λ r. IfSome r (λ v. IsReadWith pattern.now ranks)) }
    ensures none { result ≡ Ok None → IsPastLimits pattern.now ranks }
    ensures err { IfErr result (λ e. e ≡ Memory) }
{
    reads_once();
    let Some(instance) = instance_of(alloc, pattern, cast)? else {
        return Ok(None);
    };
    let noted = waits_of(alloc, pattern, cast, instance)?;
    Ok(Some(noted))
}

/// The same in the instance with so many processes of each group.
fn waits_with(alloc: Global, pattern: &Pattern, ranks: u32) -> Result<Option<LineSet>, Fault>
    ensures ok { IfOk result (λ r. IfSome r (λ v. (role line : ℕ) → (has_line v role line ≡ true) ↔ StopsWith pattern.now ranks role line)) }
    ensures read { IfOk result (λ r. IfSome r (λ v. IsReadWith pattern.now ranks)) }
    ensures none { result ≡ Ok None → IsPastLimits pattern.now ranks }
    ensures err { IfErr result (λ e. e ≡ Memory) }
{
    let Some(cast) = grown(alloc, pattern, ranks)? else {
        return Ok(None);
    };
    let noted = waits_there(alloc, pattern, ranks, &cast)?;
    Ok(noted)
}

/// The call lines at which something waits with so many processes of each group, in the order of roles and lines; none
/// where they are past the limits.
fn lines_with(alloc: Global, pattern: &Pattern, ranks: usize) -> Result<Option<Later>, Fault>
    ensures ok { IfOk result (λ r. IfSome r (λ l. (l.ranks ≡ ranks) × AreWaitingWith pattern.now ranks l.lines.items)) }
    ensures none { result ≡ Ok None → IsPastLimits pattern.now ranks }
    ensures err { IfErr result (λ e. e ≡ Memory) }
{
    if ranks >= 1 << 31 {
        return Ok(None);
    }
    let ranks = ranks as u32;
    let Some(noted) = waits_with(alloc, pattern, ranks)? else {
        return Ok(None);
    };
    let lines = noted_lines(alloc, pattern, &noted)?;
    Ok(Some(Later { ranks, lines }))
}

/// The least number of processes of each group with which something waits, from the first size on, and the call lines
/// at which it does: exactly these. Looked at are the instances with as many of each group, all turns taken, up to one
/// more than there are through loops over a group, if that is more (`last_size`), and up to one whose text doesn't read
/// as a plan; none where nothing waits in them.
pub fn later_lines(alloc: Global, pattern: &Pattern) -> Result<Option<Later>, Fault>
    ensures some { IfOk result (λ r. IfSome r (λ l. AreLater pattern.now l.ranks l.lines.items)) }
    ensures none { result ≡ Ok None → IsNoneLater pattern.now }
    ensures err { IfErr result (λ e. e ≡ Memory) }
{
    let end = end_size(pattern)?;
    for ranks in first_size(pattern.roles()) as usize..end {
        let Some(later) = lines_with(alloc, pattern, ranks)? else {
            return Ok(None);
        };
        if !later.lines.as_slice().is_empty() {
            return Ok(Some(later));
        }
    }
    Ok(None)
}
