//! What events do to names.

ghost use Rattle.std.specs.Prelude.{◌≡◌, ℕ, List, Some};
ghost use Rattle.wire_names.specs.Changes.{names_after, HasName};
ghost use Rattle.wire_plan.specs.Kinds.{kind_of};

use wire_names::Names;
use wire_plan::Kind;
use wire_types::CallAt;

/// Notes what an event of this kind, of this call, does to the names.
pub(crate) fn note_name(names: &mut Names, kind: Kind, call: CallAt)
    requires { (sets : List (List ℕ)) → HasName (Some (kind_of sets kind)) names.old }
    ensures { (sets : List (List ℕ)) → names.new ≡ names_after call (Some (kind_of sets kind)) names.old }
{
    match kind {
        Kind::Publish { name } => {
            names.publish(name, call);
        }
        Kind::Unpublish { name } => {
            names.unpublish(name, call.proc);
        }
        Kind::UnpublishAll => names.unpublish_all(call.proc),
        _ => {}
    }
}
