//! The plan that a core runs.

ghost use Rattle.std.specs.Prelude.{◌≡◌};

use crate::running::Core;
use wire_plan::Plan;

impl<'a> Core<'a> {
    /// The plan that was handed to `new`.
    pub fn plan(&self) -> &'a Plan
        ensures { result.now ≡ self.now.scripts }
    {
        self.plan
    }
}
