//! The process map.

ghost use Rattle.std.specs.Prelude.{◌≡◌, ℕ, ◌<◌, IfOk, IsOkUnless, IfSome, IfNone};
ghost use Rattle.wire_types.specs.Said.{is_reserved};
ghost use Rattle.wire_scripts.specs.Scripts.{Scripts, text_at};
ghost use Rattle.wire_scripts.specs.Map.{job_at, node_at, rank_of, local_rank_of, node_rank_of, size_of_job};
ghost use Rattle.wire_scripts.specs.Reserved.{reserved_reply};
ghost use Rattle.wire_procmap.specs.Keys as keys;
ghost use Rattle.wire_procmap.specs.Map.{map_of, row_count};
ghost use Rattle.wire_procmap.specs.Places.{IsAt};
ghost use Rattle.wire_procmap.specs.Rows as rows;

use crate::key::{KeyKind, kinds_of};
use crate::row::{ProcessNumbers, place_in, rows_of, size_in};
use std::alloc::Global;
use std::marker::Model;
use wire_scripts::Scripts;
use wire_types::{Fault, Proc, Reply};

/// The process map of scripts.
pub struct ProcMap {
    rows: Vec<ProcessNumbers>,
    kinds: Vec<KeyKind>,
}

// By hand and not derived: so dropping one is a call, and the proof of a function that drops one doesn't take it apart.
impl Drop for ProcMap {
    fn drop(self) {
        let ProcMap { rows: _, kinds: _ } = self;
    }
}

impl Model for ProcMap {
    ghost use Rattle.std.specs.Prelude.{◌<◌, ◌^◌, length};
    ghost use Rattle.wire_procmap.specs.Map.{Map};

    ghost Value = { Map };

    ghost view = { λ m. record { rows = m.rows.items; kinds = m.kinds.items } };

    ghost invariant = { λ m. length m.rows.items < 2 ^ 31 };
}

impl ProcMap {
    /// The map of scripts. The only error is `Fault::Memory`.
    #[tactic(auto, using(crate::proofs::Rows::length_of_rows))]
    pub fn new(alloc: Global, scripts: &Scripts) -> Result<ProcMap, Fault>
        ensures ok { IfOk result (λ map. map ≡ map_of scripts.now) }
        ensures memory { IsOkUnless result Fault.Memory }
    {
        Ok(ProcMap {
            rows: rows_of(alloc, scripts.processes())?,
            kinds: kinds_of(alloc, scripts.keys())?,
        })
    }

    /// The numbers of a process.
    fn numbers(&self, proc: Proc) -> ProcessNumbers
        requires { proc.number < row_count self.now }
        ensures { (s : Scripts) → self.now ≡ map_of s → result ≡ rows.row_of s.processes proc.number }
    {
        let rows = self.rows.as_slice();
        rows[proc.index()]
    }

    /// The kind of the key of this number.
    fn kind(&self, key: u32) -> KeyKind
        ensures { (s : Scripts) → self.now ≡ map_of s → result ≡ keys.key_kind (text_at s.keys key) }
    {
        match self.kinds.get(key as usize) {
            Some(kind) => *kind,
            None => KeyKind::Plain,
        }
    }

    /// The number of the node of a process of the map.
    pub fn node_of(&self, proc: Proc) -> u32
        requires { proc.number < row_count self.now }
        ensures { (s : Scripts) → self.now ≡ map_of s → result ≡ node_at s.processes proc.number }
    {
        self.numbers(proc).node
    }

    /// How many processes of its job on its node stand before a process of the map (PMIX_LOCAL_RANK).
    pub fn local_rank(&self, proc: Proc) -> u32
        requires { proc.number < row_count self.now }
        ensures { (s : Scripts) → self.now ≡ map_of s → result ≡ local_rank_of s.processes proc.number }
    {
        self.numbers(proc).local_rank
    }

    /// How many processes of all jobs on its node stand before a process of the map (PMIX_NODE_RANK).
    pub fn node_rank(&self, proc: Proc) -> u32
        requires { proc.number < row_count self.now }
        ensures { (s : Scripts) → self.now ≡ map_of s → result ≡ node_rank_of s.processes proc.number }
    {
        self.numbers(proc).node_rank
    }

    /// The job of a process of the map, and its rank there (PMIX_RANK).
    pub fn place_of(&self, proc: Proc) -> (u32, u32)
        requires { proc.number < row_count self.now }
        ensures job { (s : Scripts) → self.now ≡ map_of s → result.0 ≡ job_at s.processes proc.number }
        ensures rank { (s : Scripts) → self.now ≡ map_of s → result.1 ≡ rank_of s.processes proc.number }
    {
        let row = self.numbers(proc);
        (row.job, row.rank)
    }

    /// How many processes a job has (PMIX_JOB_SIZE).
    pub fn job_size(&self, job: u32) -> u32
        ensures { (s : Scripts) → self.now ≡ map_of s → result ≡ size_of_job s.processes job }
    {
        size_in(&self.rows, job)
    }

    /// The process of a job and a rank, or nothing where there is none.
    pub fn proc_at(&self, job: u32, rank: u32) -> Option<Proc>
        ensures found { IfSome result (λ p. (s : Scripts) → self.now ≡ map_of s → IsAt s.processes job rank p.number) }
        ensures none { IfNone result ((s : Scripts) (p : ℕ) → self.now ≡ map_of s → ¬ IsAt s.processes job rank p) }
    {
        match place_in(&self.rows, job, rank) {
            Some(number) => Some(Proc::new(number as u32)),
            None => None,
        }
    }

    /// Whether the standard keeps the key of this number for itself.
    pub fn is_reserved(&self, key: u32) -> bool
        ensures { (s : Scripts) → self.now ≡ map_of s → result ≡ is_reserved (text_at s.keys key) }
    {
        self.kind(key).is_reserved()
    }

    /// What a get of a reserved key of a process of the map replies. Any other key isn't found.
    pub fn reserved(&self, proc: Proc, key: u32) -> Reply
        requires { proc.number < row_count self.now }
        ensures { (s : Scripts) → self.now ≡ map_of s → result ≡ reserved_reply s.processes proc.number (text_at s.keys key) }
    {
        self.numbers(proc).reply(self.kind(key))
    }
}
