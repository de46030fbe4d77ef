//! What a command line asks for.

/// What was asked for: a command, its words in order, and the options of all commands.
#[derive(Drop)]
pub struct Asked<'a> {
    pub command: &'a str,
    pub words: Vec<&'a str>,
    /// The word of `--workers`, `1` where none was given.
    pub workers: &'a str,
    /// The word of `--most`, `1000` where none was given.
    pub most: &'a str,
    /// The words of the options of `expand`, where they were given.
    pub ranks: Option<&'a str>,
    pub per_node: Option<&'a str>,
    pub by: Option<&'a str>,
    pub nodes: Option<&'a str>,
    pub anywhere: bool,
    pub same: bool,
    pub portable: bool,
    pub pattern: bool,
    pub answers: bool,
    pub lines: bool,
    pub json: bool,
    pub anyway: bool,
    pub complete: bool,
    pub first: bool,
    pub second: bool,
    pub large: bool,
    pub explain: bool,
}
