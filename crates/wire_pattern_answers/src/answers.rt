//! With which statuses a get-now line is answered.

use wire_pattern_waits::CallLine;

/// A get-now line of a pattern, and with which statuses it is answered.
#[derive(Clone, Copy)]
pub struct LineAnswers {
    pub line: CallLine,
    /// Whether with `PMIX_SUCCESS`.
    pub success: bool,
    /// Whether with `PMIX_ERR_NOT_FOUND`.
    pub not_found: bool,
    /// Whether with `PMIX_ERR_EXISTS_OUTSIDE_SCOPE`.
    pub outside: bool,
}
