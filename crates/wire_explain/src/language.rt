//! In which language a file is written.

/// The format that a file has.
#[derive(Clone, Copy, Debug, PartialEq, Eq)]
pub enum Language {
    Plan,
    Pattern,
}
