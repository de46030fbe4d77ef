//! What the lines so far declare.

ghost use Rattle.std.specs.Prelude.{◌≡◌, ◌≤◌, ◌<◌, ◌^◌, vec_len, IfOk};
ghost use Rattle.wire_scripts.specs.Scripts.{IsSound};
ghost use Rattle.wire_reader.specs.Tabled.{scripts_said, seen_of};

use crate::limits::Limits;
use crate::numbered_tables::NumberedTables;
use crate::numbered_texts::NumberedTexts;
use std::alloc::{AllocError, Global};
use wire_lines::CallLine;
use wire_scripts::{Format, Process, Scripts};
use wire_types::Version;

/// A call line, with its number.
pub struct LocatedCall<'a> {
    pub line: u64,
    pub call: CallLine<'a>,
}

// By hand and not derived: so dropping one is a call, and the proof of a function that drops one doesn't take it apart.
impl Drop for LocatedCall<'_> {
    fn drop(self) {
        let LocatedCall { line: _, call: _ } = self;
    }
}

/// A process with its calls so far.
pub struct Started<'a> {
    pub job: u32,
    pub rank: u32,
    pub node: u32,
    pub calls: Vec<LocatedCall<'a>>,
}

// By hand and not derived: so dropping one is a call, and the proof of a function that drops one doesn't take it apart.
impl Drop for Started<'_> {
    fn drop(self) {
        let Started {
            job: _,
            rank: _,
            node: _,
            calls: _,
        } = self;
    }
}

/// What was declared so far, under which version and within which limits, whether what a get brings to a
/// node stays there, and the number of processes of the last job and that of all calls.
pub struct Draft<'a> {
    pub version: Version,
    pub keeps: bool,
    pub limits: Limits,
    pub nodes: NumberedTexts,
    pub jobs: NumberedTexts,
    pub processes: Vec<Started<'a>>,
    pub ranks: u32,
    pub calls: usize,
    ghost within: { ranks ≤ vec_len processes },
    ghost few_nodes: { limits.nodes < 2 ^ 32 },
    ghost few_jobs: { limits.jobs < 2 ^ 32 },
    ghost few_processes: { limits.processes < 2 ^ 32 },
    ghost few_calls: { limits.calls < 2 ^ 32 },
}

// By hand and not derived: so dropping one is a call, and the proof of a function that drops one doesn't take it apart.
impl Drop for Draft<'_> {
    fn drop(self) {
        let Draft {
            version: _,
            keeps: _,
            limits: _,
            nodes: _,
            jobs: _,
            processes: _,
            ranks: _,
            calls: _,
        } = self;
    }
}

impl Draft<'_> {
    /// The scripts of what was declared: its processes with numbers for what their calls name, which these tables hold.
    pub fn into_scripts(
        self,
        alloc: Global,
        tables: NumberedTables,
        numbered: Vec<Process>,
    ) -> Result<Scripts, AllocError>
        requires { IsSound (scripts_said self.version self.keeps self.nodes self.jobs (seen_of tables) numbered.items) }
        ensures { IfOk result (λ s. s ≡ scripts_said self.entry.version self.entry.keeps self.entry.nodes self.entry.jobs (seen_of tables) numbered.items) }
    {
        let Draft {
            version,
            keeps,
            limits: _,
            nodes,
            jobs,
            processes,
            ranks: _,
            calls: _,
        } = self;
        drop(processes);
        let nodes = nodes.into_texts(alloc)?;
        let jobs = jobs.into_texts(alloc)?;
        let tables = tables.into_tables(alloc)?;
        let format = Format { version, keeps };
        Ok(Scripts::new(format, nodes, jobs, tables, numbered))
    }
}
