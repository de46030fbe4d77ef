//! The laws of embeddings, a small plan that stands in a large one, and of instances of a pattern. Each is the
//! contract of a function that does nothing.

ghost use Rattle.wire_runs.specs.Embeddings.{EmbeddingsKeepOrder, EmbeddingsKeepFindings, PairsSuffice};
ghost use Rattle.wire_runs.specs.Parts.{PartsEmbed, ReadsKeepFindings};
ghost use Rattle.wire_runs.specs.Patterns.{Coding};
ghost use Rattle.wire_runs.specs.Renamed.{RenumberedSettle};
ghost use Rattle.wire_runs.specs.Restrictions.{RestrictionsEmbed, FewerSettle, ThreeSuffice};

/// Where a small plan stands in a large one, what is before an event whose image is live has its image
/// before that image, and the event is live too.
#[tactic(auto, using(crate::proofs::EmbeddedOrder::embeddings_keep_order))]
pub fn embeddings_keep_order()
    ensures { EmbeddingsKeepOrder }
{}

/// Where a small plan stands in a large one, what is found in the large one among images is found in the
/// small one.
pub fn embeddings_keep_findings()
    ensures { EmbeddingsKeepFindings }
{}

/// A plan that is settled wherever at most two of its processes share a node, is settled on all nodes.
pub fn pairs_suffice()
    ensures { PairsSuffice }
{}

/// A part of a plan, told process by process, is embedded in it.
pub fn parts_embed()
    ensures { PartsEmbed }
{}

/// More get-nows and lookups take no finding away.
pub fn reads_keep_findings()
    ensures { ReadsKeepFindings }
{}

/// A plan under other numbers of its keys and names is settled where the plan is.
pub fn renumbered_settle()
    ensures { RenumberedSettle }
{}

/// There is a coding: a number for each base with each list of processes, and back.
pub fn have_coding()
    ensures { Coding }
{}

/// An instance of a pattern without one rank, of a role that has at least four, stands in the whole
/// instance.
pub fn restrictions_embed()
    ensures { RestrictionsEmbed }
{}

/// Where a role has at least four ranks, and each instance with one of them fewer is settled, the instance is
/// settled.
pub fn fewer_settle()
    ensures { FewerSettle }
{}

/// Where the instances of a pattern with at most three ranks of each role, of which at most two share a node, are
/// settled, each instance is, with any number of ranks on any nodes.
pub fn three_suffice()
    ensures { ThreeSuffice }
{}
