//! A call whose reply isn't the same on every placement.

use wire_types::{CallAt, Proc, Status, Verb};

/// A get of another process's key whose reply isn't the same on every placement.
#[derive(Clone, Copy)]
pub struct Differing {
    pub call: CallAt,
    /// `Verb::Get` or `Verb::GetNow`.
    pub verb: Verb,
    pub owner: Proc,
    /// The key by its number.
    pub key: u32,
    /// What it replies where its process and the owner have a node of their own.
    pub near: Status,
    /// What it replies where its process is alone on its node.
    pub alone: Status,
}
