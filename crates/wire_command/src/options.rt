//! How a command works.

use wire_reader::Size;
use wire_report::SourceLines;
use wire_types::OutputFormat;

/// What all commands share: the name by which the places in a plan are told, the limits within which it is read, and
/// the form in which the answer is written.
#[derive(Clone, Copy)]
pub struct CommandOptions<'a> {
    /// A byte that isn't printable ASCII is shown as `?`.
    pub name: &'a [u8],
    pub size: Size,
    pub form: OutputFormat,
}

/// How calls are told: with these places, in this form.
#[derive(Clone, Copy)]
pub struct AnswerStyle<'a> {
    pub places: SourceLines<'a>,
    pub form: OutputFormat,
}

/// A command, how it is to work, and who reads the lines of its plan.
#[derive_where(Clone, Copy)]
pub struct CommandRun<'a, C, L> {
    pub command: &'a C,
    pub lines: &'a L,
    pub options: CommandOptions<'a>,
}
