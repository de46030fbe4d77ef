//! A pattern: jobs, and roles with their scripts.

ghost use Rattle.std.specs.Prelude.{◌≡◌, map};
ghost use Rattle.wire_pattern.specs.Lawful.{IsSoundPattern};
ghost use Rattle.wire_pattern.specs.Views.{job_by, role_by};

use crate::step::Step;
use std::marker::Model;

/// A job, with the number of its line in the file.
pub struct Job {
    pub name: Vec<u8>,
    pub number: u64,
}

// By hand and not derived: so dropping one is a call, and the proof of a function that drops one doesn't take it apart.
impl Drop for Job {
    fn drop(self) {
        let Job { name: _, number: _ } = self;
    }
}

/// A role of a job: one process, or a group of any number of processes, at least `least`. `number` is that of its line.
pub struct Role {
    pub job: u32,
    pub name: Vec<u8>,
    pub single: bool,
    pub least: u32,
    pub number: u64,
    pub steps: Vec<Step>,
}

// By hand and not derived: so dropping one is a call, and the proof of a function that drops one doesn't take it apart.
impl Drop for Role {
    fn drop(self) {
        let Role {
            job: _,
            name: _,
            single: _,
            least: _,
            number: _,
            steps: _,
        } = self;
    }
}

/// A pattern: its jobs as declared, and its roles in the order of their jobs.
pub struct Pattern {
    keeps: bool,
    jobs: Vec<Job>,
    roles: Vec<Role>,
}

// By hand and not derived: so dropping one is a call, and the proof of a function that drops one doesn't take it apart.
impl Drop for Pattern {
    fn drop(self) {
        let Pattern {
            keeps: _,
            jobs: _,
            roles: _,
        } = self;
    }
}

impl Model for Pattern {
    ghost use Rattle.std.specs.Prelude.{map};
    ghost use Rattle.wire_pattern.specs.Pattern as spec;
    ghost use Rattle.wire_pattern.specs.Lawful.{IsSoundPattern};
    ghost use Rattle.wire_pattern.specs.Views.{job_by, role_by};

    ghost Value = { spec.Pattern };

    ghost view = { λ p. record { keeps = p.keeps; jobs = map job_by p.jobs.items; roles = map role_by p.roles.items } };

    ghost invariant = { λ p. IsSoundPattern (record { keeps = p.keeps; jobs = map job_by p.jobs.items; roles = map role_by p.roles.items }) };
}

impl Pattern {
    /// A pattern of these jobs and roles.
    pub fn new(keeps: bool, jobs: Vec<Job>, roles: Vec<Role>) -> Pattern
        requires { IsSoundPattern (record { keeps = keeps; jobs = map job_by jobs.items; roles = map role_by roles.items }) }
        ensures { result ≡ record { keeps = keeps; jobs = map job_by jobs.items; roles = map role_by roles.items } }
    {
        Pattern { keeps, jobs, roles }
    }

    /// Whether what a get brings to a node stays there.
    pub fn keeps(&self) -> bool
        ensures { result ≡ self.now.keeps }
    {
        self.keeps
    }

    /// Its jobs, by number.
    pub fn jobs(&self) -> &[Job]
        ensures { map job_by result.now ≡ self.now.jobs }
    {
        self.jobs.as_slice()
    }

    /// Its roles, by number. They are sound.
    pub fn roles(&self) -> &[Role]
        ensures roles { map role_by result.now ≡ self.now.roles }
        ensures sound { IsSoundPattern self.now }
    {
        self.roles.as_slice()
    }
}
