//! How much a pattern's file may declare.

/// The bytes of a name of a job or a role, and of the base of a key.
pub const NAME_BYTES: usize = 63;

/// The bytes of a value.
pub const VALUE_BYTES: usize = 255;

/// How many jobs, roles, and roles of any number of processes a file may have.
pub const JOBS: usize = 16;

pub const ROLES: usize = 64;

pub const GROUPS: usize = 6;

/// How many roles a loop may list.
pub const LISTED: usize = 8;
