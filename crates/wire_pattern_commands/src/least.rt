//! The lines that tell for which numbers of ranks a verdict is.

ghost use Rattle.std.specs.Prelude.{◌≡◌, ◌++◌, map, OnOk};
ghost use Rattle.std.specs.List.{flat_map};
ghost use Rattle.wire_pattern.specs.Views.{role_by};
ghost use Rattle.wire_pattern_commands.specs.AtLeast as spec;

use std::alloc::AllocError;
use wire_pattern::{Pattern, Role};
use wire_words::push_number;

/// Appends that a role has at least so many ranks, if it is a group of which this is said.
fn write_role(out: &mut Vec<u8>, role: &Role) -> Result<(), AllocError>
    ensures { OnOk result (out.new.items ≡ out.old.items ++ spec.least_line (role_by role.now)) }
{
    if role.single || role.least == 0 {
        return Ok(());
    }
    out.extend_from_slice(b"at least ")?;
    push_number(out, role.least as u64)?;
    out.extend_from_slice(b" ")?;
    out.extend_from_slice(role.name.as_slice())?;
    out.extend_from_slice(b"\n")
}

/// Appends the lines of these roles.
fn write_roles(out: &mut Vec<u8>, roles: &[Role]) -> Result<(), AllocError>
    ensures { OnOk result (out.new.items ≡ out.old.items ++ flat_map spec.least_line (map role_by roles.now)) }
{
    for role in roles {
        write_role(out, role)?;
    }
    Ok(())
}

/// Appends a line `at least N ROLE` for each group that has a `min`.
pub(crate) fn write_least(out: &mut Vec<u8>, pattern: &Pattern) -> Result<(), AllocError>
    ensures { OnOk result (out.new.items ≡ out.old.items ++ spec.least_text pattern.now) }
{
    write_roles(out, pattern.roles())
}
