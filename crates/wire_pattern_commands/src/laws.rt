//! What holds of texts in JSON, and of calls that succeed. Each law is the contract of a function that does nothing.

ghost use Rattle.wire_pattern_commands.specs.Views.{InstancesReadBack};
ghost use Rattle.wire_pattern_commands.specs.Strings.{TextsReadBack};
ghost use Rattle.wire_pattern_commands.specs.Succeeding.{SucceedTogether};

/// A text of printable bytes and line feeds is what its string says.
#[tactic(auto, using(crate::proofs::StringsBack::texts_read_back))]
pub fn texts_read_back()
    ensures { TextsReadBack }
{}

/// The text of an instance, as that of a counterexample, is what its string says.
pub fn instances_read_back()
    ensures { InstancesReadBack }
{}

/// Where nothing is found in a plan on any nodes, and no key is put for other nodes alone: if every call succeeds on the
/// nodes where the processes are, every call does with all of them on one.
#[tactic(auto, using(crate::proofs::Together::all_together))]
pub fn succeed_together()
    ensures { SucceedTogether }
{}
