//! What the checker reports.

use wire_types::{CallAt, Proc};

/// A rewrite of a key, or a race on a key or on a name. A fence call stands for the arrival at its
/// fence.
#[derive(Clone, Copy)]
pub enum Finding {
    /// The first put of a key, and a later put of it by the same process.
    Rewrite(CallAt, CallAt),
    /// The two calls, the lower first, then the owner of the key and the key by its number.
    KeyRace(CallAt, CallAt, Proc, u32),
    /// The two calls, the lower first, then the name by its number.
    NameRace(CallAt, CallAt, u32),
}
