//! What `check --pattern` is asked for.

/// What is asked for besides the verdict about a pattern, and the form.
#[derive(Clone, Copy, Debug, PartialEq, Eq)]
pub struct PatternAsked {
    /// With which statuses each get-now is answered.
    pub answers: bool,
    /// By how the command ends, whether every call is answered with every number of ranks, and in the instances that
    /// are judged with success alone.
    pub complete: bool,
    /// Where nothing is found, who waits for ever in the first instance that is judged in which a rank does, else in the
    /// larger one in which one does first.
    pub explain: bool,
    /// All is written as JSON.
    pub json: bool,
}
