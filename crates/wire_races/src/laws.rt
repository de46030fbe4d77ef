//! The laws of the list of findings. Each is the contract of a function that does nothing.

ghost use Rattle.std.specs.Prelude.{◌≡◌, ◌↔◌, List, []};
ghost use Rattle.wire_runs.specs.Races.{IsSettled};
ghost use Rattle.wire_scripts.specs.Scripts.{Scripts};
ghost use Rattle.wire_scripts.specs.Planned.{plan_of};
ghost use Rattle.wire_findings.specs.declared.finding.Finding.{Finding as Told};
ghost use Rattle.wire_types.specs.declared.CallAt.{CallAt};
ghost use Rattle.wire_findings.specs.Findings.{AreFindings};
ghost use Rattle.wire_races.specs.Racing.{AreRacing};
ghost use Rattle.wire_races.specs.Reported.{IsReported};

/// The list of the findings of scripts is empty exactly where their plan is settled.
pub fn settled_exactly()
    ensures { (s : Scripts) (found : List Told) → AreFindings s found → ((found ≡ []) ↔ IsSettled (plan_of s)) }
{}

/// Scripts have one list of findings at most.
pub fn one_list()
    ensures { (s : Scripts) (found other : List Told) → AreFindings s found → AreFindings s other → found ≡ other }
{}

/// Two calls race exactly where a race of the two is among the findings.
pub fn reported_exactly()
    ensures { (s : Scripts) (found : List Told) (x y : CallAt) → AreFindings s found → (IsReported found x y ↔ AreRacing (plan_of s) x y) }
{}
