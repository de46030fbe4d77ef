//! The second pass: each line by all jobs and roles.

ghost use Rattle.std.specs.Prelude.{◌≡◌, ◌+◌, ◌<◌, ◌^◌, map, length};
ghost use Rattle.wire_pattern.specs.Views.{line_by, step_by, role_by, turns_by};
ghost use Rattle.wire_pattern_script.specs.Faults as spec;

use crate::calls::{fits_loop, is_declared, is_known, is_member_call};
use wire_pattern::{Line, Role, Step, Turns};
use wire_types::Fault;

/// A script's surroundings: how many jobs there are, all roles, and the number of the script's role.
#[derive(Drop)]
struct Script<'a> {
    jobs: usize,
    roles: &'a [Role],
    caller: u32,
}

/// The role of a step, where it is a loop that the line of this number begins.
fn role_listed(number: u64, step: &Step) -> Option<u32>
    ensures { result ≡ spec.role_listed number (step_by step.now) }
{
    match step {
        Step::Once(_) => None,
        Step::Loop {
            number: own,
            group: role,
            turns: _,
            lines: _,
        } => (*own == number).then_some(*role),
    }
}

impl Script<'_> {
    /// The fault of a line, where `fits` says whether it may stand where it stands.
    fn line_fault(&self, fits: bool, line: &Line) -> Option<Fault>
        ensures { result ≡ spec.line_fault self.now.jobs (map role_by self.now.roles.now) self.now.caller fits (line_by line.now) }
    {
        if !is_declared(self.jobs, self.roles.len(), &line.call) {
            Some(Fault::UnknownName(line.number))
        } else if !is_known(self.jobs, self.roles, &line.call) {
            Some(Fault::BadLine(line.number))
        } else if !fits {
            Some(Fault::BadLine(line.number))
        } else if !is_member_call(self.roles, self.caller, &line.call) {
            Some(Fault::NotMember(line.number))
        } else {
            None
        }
    }

    /// The fault of the first line of a loop.
    fn role_fault(&self, number: u64, role: u32) -> Option<Fault>
        ensures { result ≡ spec.role_fault (map role_by self.now.roles.now) number role }
    {
        if (role as usize) < self.roles.len() {
            None
        } else {
            Some(Fault::UnknownName(number))
        }
    }

    /// The fault of the line of this number, where it lists several roles: the first of these steps are its loops.
    fn list_fault(&self, number: u64, steps: &[Step]) -> Option<Fault>
        ensures { result ≡ spec.list_fault (map role_by self.now.roles.now) number (map step_by steps.now) }
    {
        for step in steps {
            let Some(role) = role_listed(number, step) else {
                return None;
            };
            if let Some(fault) = self.role_fault(number, role) {
                return Some(fault);
            }
        }
        None
    }

    /// The fault of the line that begins a step, by the roles that it lists behind its first: these steps follow.
    fn names_fault(&self, step: &Step, steps: &[Step]) -> Option<Fault>
        ensures { result ≡ spec.names_fault (map role_by self.now.roles.now) (step_by step.now) (map step_by steps.now) }
    {
        match step {
            Step::Once(_) => None,
            Step::Loop { number, .. } => self.list_fault(*number, steps),
        }
    }

    /// The fault of a line in a loop over this role.
    fn turn_fault(&self, role: u32, turns: Turns, line: &Line) -> Option<Fault>
        ensures { result
            ≡ spec.turn_fault self.now.jobs (map role_by self.now.roles.now) self.now.caller role (turns_by turns) (line_by line.now) }
    {
        let fits = fits_loop(self.roles, role, turns, &line.call);
        self.line_fault(fits, line)
    }

    /// The first fault of the lines of a loop.
    fn lines_fault(&self, role: u32, turns: Turns, lines: &[Line]) -> Option<Fault>
        ensures { result ≡ spec.first_fault (spec.turn_fault self.now.jobs (map role_by self.now.roles.now) self.now.caller role (turns_by turns))
            (map line_by lines.now) }
    {
        for line in lines {
            if let Some(fault) = self.turn_fault(role, turns, line) {
                return Some(fault);
            }
        }
        None
    }

    /// The first fault of a step.
    fn step_fault(&self, step: &Step) -> Option<Fault>
        ensures { result ≡ spec.step_fault self.now.jobs (map role_by self.now.roles.now) self.now.caller (step_by step.now) }
    {
        match step {
            Step::Once(line) => self.line_fault(true, line),
            Step::Loop {
                number,
                group: role,
                turns,
                lines,
            } => match self.role_fault(*number, *role) {
                Some(fault) => Some(fault),
                None => self.lines_fault(*role, *turns, lines),
            },
        }
    }

    /// The first fault of these steps: all roles that a line lists are judged before the lines of its loop.
    fn steps_fault(&self, steps: &[Step]) -> Option<Fault>
        ensures { result ≡ spec.steps_fault self.now.jobs (map role_by self.now.roles.now) self.now.caller (map step_by steps.now) }
    {
        for (index, step) in steps.iter().enumerate() {
            if let Some(fault) = self.names_fault(step, &steps[index + 1..]) {
                return Some(fault);
            }
            if let Some(fault) = self.step_fault(step) {
                return Some(fault);
            }
        }
        None
    }
}

/// The first fault of the scripts of these roles, where there are so many jobs.
pub fn second_fault(jobs: usize, roles: &[Role]) -> Option<Fault>
    requires { length roles.now < 2 ^ 32 }
    ensures { result ≡ spec.second_fault jobs (map role_by roles.now) }
{
    let mut caller = 0;
    for role in roles {
        let script = Script {
            jobs,
            roles,
            caller,
        };
        if let Some(fault) = script.steps_fault(&role.steps) {
            return Some(fault);
        }
        caller += 1;
    }
    None
}
