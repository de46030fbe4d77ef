//! What the lines so far declare.

ghost use Rattle.std.specs.Prelude.{◌≤◌, vec_len};

use wire_pattern::Turns;
use wire_pattern_lines::CallLine;

/// A call line, with its number.
pub struct LocatedCall<'a> {
    pub number: u64,
    pub call: CallLine<'a>,
}

// By hand and not derived: so dropping one is a call, and the proof of a function that drops one doesn't take it apart.
impl Drop for LocatedCall<'_> {
    fn drop(self) {
        let LocatedCall { number: _, call: _ } = self;
    }
}

/// A loop with its lines so far: the number of its own line, its turns, and the names of its roles.
pub struct LoopDraft<'a> {
    pub number: u64,
    pub turns: Turns,
    pub roles: Vec<&'a [u8]>,
    pub lines: Vec<LocatedCall<'a>>,
}

// By hand and not derived: so dropping one is a call, and the proof of a function that drops one doesn't take it apart.
impl Drop for LoopDraft<'_> {
    fn drop(self) {
        let LoopDraft {
            number: _,
            turns: _,
            roles: _,
            lines: _,
        } = self;
    }
}

/// A step of a script.
pub enum StepDraft<'a> {
    Once(LocatedCall<'a>),
    Loop(LoopDraft<'a>),
}

// By hand and not derived: so dropping one is a call, and the proof of a function that drops one doesn't take it apart.
impl Drop for StepDraft<'_> {
    fn drop(self) {
        match self {
            StepDraft::Once(_) | StepDraft::Loop(_) => {}
        }
    }
}

/// A role with its script so far: the number of its job, its name, whether it is of one process, how many it has at
/// least, and the number of its line.
pub struct RoleDraft<'a> {
    pub job: u32,
    pub name: &'a [u8],
    pub single: bool,
    pub least: u32,
    pub number: u64,
    pub steps: Vec<StepDraft<'a>>,
}

// By hand and not derived: so dropping one is a call, and the proof of a function that drops one doesn't take it apart.
impl Drop for RoleDraft<'_> {
    fn drop(self) {
        let RoleDraft {
            job: _,
            name: _,
            single: _,
            least: _,
            number: _,
            steps: _,
        } = self;
    }
}

/// A job, with the number of its line.
#[derive(Drop)]
pub struct JobDraft<'a> {
    pub name: &'a [u8],
    pub number: u64,
}

/// What was declared so far: whether what a get brings to a node stays there, the jobs, the roles of all jobs, whether
/// the last job has one, and the loop that no line has ended yet.
pub struct Draft<'a> {
    pub keeps: bool,
    pub jobs: Vec<JobDraft<'a>>,
    pub roles: Vec<RoleDraft<'a>>,
    pub begun: bool,
    pub open_loop: Option<LoopDraft<'a>>,
    ghost few_jobs: { vec_len jobs ≤ 16 },
    ghost few_roles: { vec_len roles ≤ 64 },
}

// By hand and not derived: so dropping one is a call, and the proof of a function that drops one doesn't take it apart.
impl Drop for Draft<'_> {
    fn drop(self) {
        let Draft {
            keeps: _,
            jobs: _,
            roles: _,
            begun: _,
            open_loop: _,
        } = self;
    }
}
