//! A plan with its marks.

ghost use Rattle.std.specs.Prelude.{◌≡◌, ◌↔◌, IsTrue};
ghost use Rattle.wire_runs.specs.Plan.{event_of};
ghost use Rattle.wire_scripts.specs.Planned.{plan_of};
ghost use Rattle.wire_runs.specs.Order.{Live, Before};
ghost use Rattle.wire_happens_before.specs.Clocks.{AreMarks};

use crate::marks::HappensBefore;
use std::marker::Model;
use wire_plan::Plan;
use wire_types::Event;

/// A plan with its marks, which belong together. It is seen as the plan.
#[derive(Drop)]
pub struct MarkedPlan<'a> {
    plan: &'a Plan,
    marks: &'a HappensBefore,
}

impl<'a> Model for MarkedPlan<'a> {
    ghost use Rattle.wire_scripts.specs.Scripts as spec;
    ghost use Rattle.wire_scripts.specs.Planned.{plan_of};
    ghost use Rattle.wire_happens_before.specs.Clocks.{AreMarks};

    ghost Value = { spec.Scripts };

    ghost view = { λ m. m.plan.now };

    ghost invariant = { λ m. AreMarks (plan_of m.plan.now) m.marks.now };
}

impl HappensBefore {
    /// The plan with its marks. The caller ensures that the marks are those of the plan.
    pub fn with<'a>(&'a self, plan: &'a Plan) -> MarkedPlan<'a>
        requires { AreMarks (plan_of plan.now) self.now }
        ensures { result ≡ plan.now }
    {
        MarkedPlan { plan, marks: self }
    }
}

impl<'a> MarkedPlan<'a> {
    /// The plan.
    pub fn plan(&self) -> &'a Plan
        ensures { result.now ≡ self.now }
    {
        self.plan
    }

    /// The marks.
    pub fn marks(&self) -> &'a HappensBefore
        ensures { AreMarks (plan_of self.now) result.now }
    {
        self.marks
    }

    /// Whether an event is live: the scripts don't rule it out, and all its sources are live.
    pub fn live(&self, event: Event) -> bool
        ensures { IsTrue result ↔ Live (plan_of self.now) (event_of event) }
    {
        self.marks.live(event)
    }

    /// Whether there is a chain from x to y, through live events.
    pub fn before(&self, x: Event, y: Event) -> bool
        ensures { IsTrue result ↔ Before (plan_of self.now) (event_of x) (event_of y) }
    {
        self.marks.before(x, y)
    }
}
