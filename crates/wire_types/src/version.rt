//! The versions of the format.

/// The version of the format, as the header says it.
#[derive(Clone, Copy, PartialEq, Eq)]
pub enum Version {
    One,
    Two,
}
