//! What shows that the order of two calls matters.

use wire_types::{CallAt, CallEnd, Proc};

/// Two runs that can't go on, by their steps, in which two calls come in different orders; and a call of the
/// two that ends differently in them.
#[derive(Drop)]
pub struct Witness {
    /// The steps of the run in which the first call comes first.
    pub first: Vec<Proc>,
    /// The steps of the run in which the second call comes first.
    pub second: Vec<Proc>,
    /// The call that ends differently.
    pub call: CallAt,
    /// The other of the two.
    pub other: CallAt,
    /// How it ends in the first run.
    pub first_end: CallEnd,
    /// How it ends in the second run.
    pub second_end: CallEnd,
}
