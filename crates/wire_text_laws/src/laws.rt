//! What was written reads as what it was written of. Each law is the contract of a function that does nothing.

ghost use Rattle.wire_text_laws.specs.Again.{OrderReadsBack};
ghost use Rattle.wire_text_laws.specs.Following.{OrderIsFollowed};
ghost use Rattle.wire_text_laws.specs.Kept.{NothingReplaced};
ghost use Rattle.wire_text_laws.specs.Witnessed.{WitnessIsFollowed};

/// The lines of a run's steps, as a replay writes them, read as an order of just these steps. With large
/// limits that is so where they are within the limit of an order; without, they always are.
pub fn order_reads_back()
    ensures { OrderReadsBack }
{}

/// `follow` of the lines of a run's steps writes the report of this run, and no fault of the file or of
/// these lines stops it, where they are within the limit of an order.
pub fn order_is_followed()
    ensures { OrderIsFollowed }
{}

/// Each order that `witness` writes by itself reads as the steps of that run, and `follow` of it writes the
/// report of this run.
pub fn witness_is_followed()
    ensures { WitnessIsFollowed }
{}

/// In the JSON forms no byte is replaced of scripts that were read: each string has its text as it is.
pub fn nothing_replaced()
    ensures { NothingReplaced }
{}
