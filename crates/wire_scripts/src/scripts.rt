//! The scripts of all processes.

ghost use Rattle.std.specs.Prelude.{◌≡◌, false, slice_index_or, if◌then◌else◌, OnOk, IfOk, IfErr};
ghost use Rattle.wire_runs.specs.Placings.{IsPlacing};
ghost use Rattle.wire_scripts.specs.Scripts.{IsSound, numbers_of, under_version_2};
ghost use Rattle.wire_scripts.specs.Placed.{AreAloneTogether, moved_from, node_beside, placed};
ghost use Rattle.wire_scripts.specs.Planned.{plan_of};
ghost use Rattle.wire_scripts.specs.Tabled.{scripts_from_parts};

use crate::process::{Process, move_to};
use crate::set_word::presence;
use crate::sets::Sets;
use crate::texts::Texts;
use std::alloc::{AllocError, Global};
use std::marker::Model;
use wire_types::{Fault, Proc, Version};

/// What calls name, numbered as first seen: keys of puts and gets, published names, values of puts and
/// publishes, and the sets of processes of fences.
#[derive(Drop)]
pub struct Tables {
    pub keys: Texts,
    pub names: Texts,
    pub values: Texts,
    pub sets: Sets,
}

/// What the first lines of a file say of all its scripts: the version of its format, and whether what a get
/// brings to a node stays there.
#[derive(Clone, Copy)]
pub struct Format {
    pub version: Version,
    pub keeps: bool,
}

/// What a plan says: its format, its nodes and jobs as declared, what its calls
/// name, and its processes in process order, which is the file's job order, then rank.
pub struct Scripts {
    format: Format,
    nodes: Texts,
    jobs: Texts,
    tables: Tables,
    processes: Vec<Process>,
}

// By hand and not derived: so dropping one is a call, and the proof of a function that drops one doesn't take it apart.
impl Drop for Scripts {
    fn drop(self) {
        let Scripts {
            format: _,
            nodes: _,
            jobs: _,
            tables: _,
            processes: _,
        } = self;
    }
}

impl Model for Scripts {
    ghost use Rattle.wire_scripts.specs.Scripts as spec;
    ghost use Rattle.wire_scripts.specs.Tabled.{scripts_from_parts};

    ghost Value = { spec.Scripts };

    ghost view = { λ s. scripts_from_parts s.format s.nodes s.jobs s.tables s.processes.items };

    ghost invariant = { λ s. spec.IsSound (scripts_from_parts s.format s.nodes s.jobs s.tables s.processes.items) };
}

/// Puts the processes for which this is true on the second node, and all others on the first.
fn place_each(processes: &mut Vec<Process>, named: &[bool])
    ensures { processes.new.items ≡ moved_from 0 (λ p. if slice_index_or named.now p false then 1 else 0) processes.old.items }
{
    for number in 0..processes.len() {
        move_to(&mut processes[number], node_for(named, number));
    }
}

/// Puts these ranks on the second node, and all others on the first.
fn place_all(alloc: Global, processes: &mut Vec<Process>, ranks: &[Proc]) -> Result<(), AllocError>
    ensures { OnOk result (processes.new.items ≡ moved_from 0 (node_beside (numbers_of ranks.now)) processes.old.items) }
{
    let named = presence(alloc, ranks, processes.len())?;
    place_each(processes, named.as_slice());
    Ok(())
}

/// The number of the node of a process.
fn node_for(named: &[bool], number: usize) -> u32
    ensures { result ≡ (if slice_index_or named.now number false then 1 else 0) }
{
    match named.get(number) {
        Some(true) => 1,
        _ => 0,
    }
}

impl Scripts {
    /// Scripts of these parts.
    pub fn new(
        format: Format,
        nodes: Texts,
        jobs: Texts,
        tables: Tables,
        processes: Vec<Process>,
    ) -> Scripts
        requires { IsSound (scripts_from_parts format nodes jobs tables processes.items) }
        ensures { result ≡ scripts_from_parts format nodes jobs tables processes.items }
    {
        Scripts {
            format,
            nodes,
            jobs,
            tables,
            processes,
        }
    }

    /// The same nodes, jobs and calls under version 2 of the format. What they mean as a plan doesn't change.
    /// Takes no memory.
    pub fn into_version_2(self) -> Scripts
        ensures scripts { result ≡ under_version_2 self }
        ensures plan { plan_of result ≡ plan_of self }
    {
        let Scripts {
            format: was,
            nodes,
            jobs,
            tables,
            processes,
        } = self;
        Scripts {
            format: Format {
                version: Version::Two,
                keeps: was.keeps,
            },
            nodes,
            jobs,
            tables,
            processes,
        }
    }

    /// The same jobs and calls, with these ranks on the second node and all others on the first. Where there is only
    /// one node, a second one gets a name that the first doesn't have. The only fault is `Memory`.
    pub fn place(self, alloc: Global, ranks: &[Proc]) -> Result<Scripts, Fault>
        ensures scripts { IfOk result (λ s. s ≡ placed self (numbers_of ranks.now)) }
        ensures plan { IfOk result (λ s. IsPlacing (plan_of self) (plan_of s)) }
        ensures alone { IfOk result (λ s. AreAloneTogether (plan_of s) (numbers_of ranks.now)) }
        ensures err { IfErr result (λ e. e ≡ Fault.Memory) }
    {
        let Scripts {
            format: header,
            nodes,
            jobs,
            tables,
            mut processes,
        } = self;
        place_all(alloc, &mut processes, ranks)?;
        let nodes = nodes.into_two(alloc)?;
        Ok(Scripts {
            format: header,
            nodes,
            jobs,
            tables,
            processes,
        })
    }

    /// The version of the format.
    pub fn version(&self) -> Version
        ensures { result ≡ self.now.version }
    {
        self.format.version
    }

    /// The names of the nodes, by number.
    pub fn nodes(&self) -> &Texts
        ensures { result.now ≡ self.now.nodes }
    {
        &self.nodes
    }

    /// The names of the jobs, by number.
    pub fn jobs(&self) -> &Texts
        ensures { result.now ≡ self.now.jobs }
    {
        &self.jobs
    }

    /// The keys of puts and gets, by number.
    pub fn keys(&self) -> &Texts
        ensures { result.now ≡ self.now.keys }
    {
        &self.tables.keys
    }

    /// The names that are published, looked up and unpublished, by number.
    pub fn names(&self) -> &Texts
        ensures { result.now ≡ self.now.names }
    {
        &self.tables.names
    }

    /// The values of puts and publishes, by number.
    pub fn values(&self) -> &Texts
        ensures { result.now ≡ self.now.values }
    {
        &self.tables.values
    }

    /// The sets of processes of fences, by number.
    pub fn sets(&self) -> &Sets
        ensures { result.now ≡ self.now.sets }
    {
        &self.tables.sets
    }

    /// The processes, in process order: few enough that they, and their calls, can be numbered, the ranks of
    /// each job counted from 0, each process a member of the fences that it calls, and the owner of each
    /// get among them.
    pub fn processes(&self) -> &[Process]
        ensures processes { result.now ≡ self.now.processes }
        ensures sound { IsSound self.now }
    {
        self.processes.as_slice()
    }

    /// Whether what a get brings to a node stays there, for gets of the node's processes that are answered
    /// at once.
    pub fn keeps(&self) -> bool
        ensures { result ≡ self.now.keeps }
    {
        self.format.keeps
    }
}

impl Scripts {
    ghost use Rattle.std.specs.Prelude.{◌≡◌};
    ghost use Rattle.wire_scripts.specs.Same.{same_scripts};

    /// Whether both say the same, part by part.
    fn has_same_parts(&self, other: &Scripts) -> bool
        ensures { result ≡ same_scripts self.now other.now }
    {
        self.format.version == other.format.version
            && self.nodes == other.nodes
            && self.jobs == other.jobs
            && self.tables.keys == other.tables.keys
            && self.tables.names == other.tables.names
            && self.tables.values == other.tables.values
            && self.tables.sets == other.tables.sets
            && self.processes.as_slice() == other.processes.as_slice()
            && self.format.keeps == other.format.keeps
    }
}

impl PartialEq for Scripts {
    ghost use Rattle.std.specs.Prelude.{◌≡◌};
    ghost use Rattle.std.specs.Bool.{Decides};
    ghost use Rattle.wire_scripts.specs.Same.{same_scripts, scripts_alike};

    ghost eq = { same_scripts };

    ghost laws = { scripts_alike };

    /// Whether both say the same, with the same numbers. Takes no memory.
    fn eq(&self, other: &Scripts) -> bool
        ensures tested { result ≡ same_scripts self.now other.now }
        ensures same { Decides result (self.now ≡ other.now) }
    {
        self.has_same_parts(other)
    }
}
