//! The laws of the list of the findings of all placements. Each is the contract of a function that does nothing.

ghost use Rattle.std.specs.Prelude.{◌≡◌, ◌↔◌, List, []};
ghost use Rattle.wire_runs.specs.Plan.{Plan};
ghost use Rattle.wire_runs.specs.Races.{IsSettled};
ghost use Rattle.wire_runs.specs.Placings.{IsPlacing};
ghost use Rattle.wire_scripts.specs.Scripts.{Scripts};
ghost use Rattle.wire_scripts.specs.Planned.{plan_of};
ghost use Rattle.wire_anywhere.specs.declared.placed.PlacedFinding.{PlacedFinding};
ghost use Rattle.wire_anywhere.specs.Anywhere.{AreFoundAnywhere};

/// The list of scripts is empty exactly where every placing of their plan is settled.
pub fn settled_exactly()
    ensures { (s : Scripts) (found : List PlacedFinding) → AreFoundAnywhere s found →
        ((found ≡ []) ↔ ((other : Plan) → IsPlacing (plan_of s) other → IsSettled other)) }
{}

/// Scripts have one such list at most.
pub fn one_list()
    ensures { (s : Scripts) (found other : List PlacedFinding) → AreFoundAnywhere s found → AreFoundAnywhere s other → found ≡ other }
{}
