//! The laws of libraries. Each is the contract of a function that does nothing.

ghost use Rattle.wire_library_laws.specs.Anywhere.{PortableThere, LibraryAnywhere};
ghost use Rattle.wire_library_laws.specs.Promised.{Refines, EndsByRules, LibraryOneEnd, NamesByReplies, NamesOnce};

/// On a portable plan, the events that a library has answered, in that order, are an interleaving by the rules, with the
/// same replies.
pub fn refines()
    ensures { Refines }
{}

/// Where a run of a library on a portable plan can't go on, neither can that interleaving.
pub fn ends_by_rules()
    ensures { EndsByRules }
{}

/// If the plan has one end besides, each run of a library that can't go on ends there.
pub fn library_one_end()
    ensures { LibraryOneEnd }
{}

/// Where in the plain run of a settled plan no publish and no unpublish is refused, none is in any interleaving.
pub fn names_by_replies()
    ensures { NamesByReplies }
{}

/// Where each name is published at most once, and none is taken away, no publish is refused in any interleaving.
pub fn names_once()
    ensures { NamesOnce }
{}

/// What is portable whatever the nodes is portable on each.
pub fn portable_there()
    ensures { PortableThere }
{}

/// Where nothing is found on any nodes besides, each run of a library that can't go on ends as the plain run on its nodes.
pub fn library_anywhere()
    ensures { LibraryAnywhere }
{}
