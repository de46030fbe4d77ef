//! The counterexample: an instance with its findings, on the first placement that has some.

ghost use Rattle.std.specs.Prelude.{◌≡◌, ◌<◌, ◌≤◌, ◌^◌, ◌⊎◌, ℕ, Ok, None, IfOk, IfErr, IfSome, length};
ghost use Rattle.wire_types.specs.declared.Fault.TheVariants.{Memory};
ghost use Rattle.wire_scripts.specs.Planned.{plan_of};
ghost use Rattle.wire_runs.specs.Races.{IsSettled};
ghost use Rattle.wire_findings.specs.Findings.{AreFindings};
ghost use Rattle.wire_pattern.specs.Instances.{process_count};
ghost use Rattle.wire_instances.specs.Nodes.{AreNodes};
ghost use Rattle.wire_instances.specs.Views.{cast_by};
ghost use Rattle.wire_cutoff.specs.FirstNodes.{AreFirstNodes};
ghost use Rattle.wire_cutoff.specs.Judged.{IsFewCast, IsFoundIn, IsJudgeFault};
ghost use Rattle.wire_cutoff.specs.Sharing.{IsSettledLike, IsPairSettled};
ghost use Rattle.wire_cutoff.specs.Views.{AreUsed, IsShownFor, IsShownBeside};
ghost use Rattle.wire_cutoff_laws.specs.Promised.{IsChoiceSettled};

use crate::judge::instance_scripts;
use crate::selections::note_sound;
use std::alloc::{AllocError, Global};
use std::thread::Threads;
use wire_findings::Finding;
use wire_happens_before::HappensBefore;
use wire_instances::{Cast, Nodes, all_alone, paired};
use wire_pattern::Pattern;
use wire_plan::Plan;
use wire_races::findings;
use wire_scripts::Scripts;
use wire_types::Fault;

/// An instance with findings: the text of its plan, what that reads as, and all its findings.
pub struct Counterexample {
    pub cast: Cast,
    pub text: Vec<u8>,
    pub plan: Plan,
    pub findings: Vec<Finding>,
}

// By hand and not derived: so dropping one is a call, and the proof of a function that drops one doesn't take it apart.
impl Drop for Counterexample {
    fn drop(self) {
        let Counterexample {
            cast: _,
            text: _,
            plan: _,
            findings: _,
        } = self;
    }
}

/// All findings of a plan.
fn find_all(rt: &(impl Threads + Sync), alloc: Global, plan: &Plan) -> Result<Vec<Finding>, Fault>
    ensures ok { IfOk result (λ found. AreFindings plan.now found.items) }
    ensures err { IfErr result (λ e. e ≡ Memory) }
{
    let marks = HappensBefore::of(alloc, plan)?;
    findings(rt, alloc, plan, &marks)
}

/// The plan of an instance's scripts with its findings, if there are some.
fn find_in(
    rt: &(impl Threads + Sync),
    alloc: Global,
    cast: Cast,
    text: Vec<u8>,
    scripts: Scripts,
) -> Result<Option<Counterexample>, Fault>
    ensures ok { IfOk result (λ found. IfSome found (λ c. (c.cast ≡ cast) × (c.text ≡ text) × (c.plan ≡ scripts)
        × IsFoundIn scripts c.findings.items)) }
    ensures settled { result ≡ Ok None → IsSettled (plan_of scripts) }
    ensures err { IfErr result (λ e. e ≡ Memory) }
{
    let plan = Plan::build(alloc, scripts)?;
    match find_all(rt, alloc, &plan) {
        Ok(findings) => {
            if findings.as_slice().is_empty() {
                drop(plan);
                return Ok(None);
            }
            Ok(Some(Counterexample {
                cast,
                text,
                plan,
                findings,
            }))
        }
        Err(fault) => {
            drop(plan);
            Err(fault)
        }
    }
}

/// The same instance on other nodes.
fn cast_on(alloc: Global, cast: &Cast, nodes: Nodes) -> Result<Cast, AllocError>
    ensures sizes { IfOk result (λ c. c.sizes.items ≡ cast.now.sizes.items) }
    ensures chosen { IfOk result (λ c. c.chosen.items ≡ cast.now.chosen.items) }
    ensures nodes { IfOk result (λ c. c.nodes ≡ nodes) }
{
    let sizes = Vec::from_slice(alloc, cast.sizes.as_slice())?;
    let chosen = Vec::from_slice(alloc, cast.chosen.as_slice())?;
    Ok(Cast {
        sizes,
        chosen,
        nodes,
    })
}

/// How many processes a cast has.
fn count_of(cast: &Cast) -> u32
    requires placed { length cast.now.nodes.of.items ≡ process_count (cast_by cast.now) }
    requires few { process_count (cast_by cast.now) < 2 ^ 31 }
    ensures { result ≡ process_count (cast_by cast.now) }
{
    cast.nodes.of.len() as u32
}

/// The instance on these nodes with its findings, if there are some.
fn find_on(
    rt: &(impl Threads + Sync),
    alloc: Global,
    pattern: &Pattern,
    cast: &Cast,
    nodes: Nodes,
) -> Result<Option<Counterexample>, Fault>
    requires cast { IsFewCast pattern.now (cast_by cast.now) }
    requires nodes { AreNodes (process_count (cast_by cast.now)) nodes }
    requires used { AreUsed nodes }
    ensures found { IfOk result (λ r. IfSome r (λ c. IsShownFor pattern.now (cast_by cast.now) c)) }
    ensures there { IfOk result (λ r. IfSome r (λ c. c.cast.nodes ≡ nodes)) }
    ensures settled { result ≡ Ok None → IsSettledLike pattern.now (cast_by cast.now) nodes }
    ensures err { IfErr result (λ e. IsJudgeFault pattern.now e) }
{
    note_sound(pattern);
    let placed = cast_on(alloc, cast, nodes)?;
    let (text, scripts) = instance_scripts(alloc, pattern, &placed)?;
    find_in(rt, alloc, placed, text, scripts)
}

/// The instance with its findings, where the process a shares its node with one of the processes behind it.
fn find_beside(
    rt: &(impl Threads + Sync),
    alloc: Global,
    pattern: &Pattern,
    cast: &Cast,
    a: u32,
) -> Result<Option<Counterexample>, Fault>
    requires cast { IsFewCast pattern.now (cast_by cast.now) }
    requires there { a < process_count (cast_by cast.now) }
    ensures found { IfOk result (λ r. IfSome r (λ c. IsShownFor pattern.now (cast_by cast.now) c)) }
    ensures beside { IfOk result (λ r. IfSome r (λ c. IsShownBeside pattern.now (cast_by cast.now) a c)) }
    ensures settled { result ≡ Ok None → (b : ℕ) → a < b → b < process_count (cast_by cast.now)
        → IsPairSettled pattern.now (cast_by cast.now) a b }
    ensures err { IfErr result (λ e. IsJudgeFault pattern.now e) }
{
    let total = count_of(cast);
    for b in a + 1..total {
        let nodes = paired(alloc, total, a, b)?;
        match find_on(rt, alloc, pattern, cast, nodes)? {
            Some(found) => return Ok(Some(found)),
            None => {}
        }
    }
    Ok(None)
}

/// The instance with its findings, on the first placement that has some: each process alone, else the first pair of
/// processes that share a node. If there is none, nothing is found on any placement.
pub(crate) fn find_counterexample(
    rt: &(impl Threads + Sync),
    alloc: Global,
    pattern: &Pattern,
    cast: &Cast,
) -> Result<Option<Counterexample>, Fault>
    requires { IsFewCast pattern.now (cast_by cast.now) }
    ensures found { IfOk result (λ r. IfSome r (λ c. IsShownFor pattern.now (cast_by cast.now) c)) }
    ensures nodes { IfOk result (λ r. IfSome r (λ c. AreFirstNodes pattern.now (cast_by cast.now) c.cast.nodes.of.items)) }
    ensures settled { result ≡ Ok None → IsChoiceSettled pattern.now (cast_by cast.now).sizes (cast_by cast.now).chosen }
    ensures err { IfErr result (λ e. IsJudgeFault pattern.now e) }
{
    let total = count_of(cast);
    let nodes = all_alone(alloc, total)?;
    match find_on(rt, alloc, pattern, cast, nodes)? {
        Some(found) => return Ok(Some(found)),
        None => {}
    }
    for a in 0..total {
        match find_beside(rt, alloc, pattern, cast, a)? {
            Some(found) => return Ok(Some(found)),
            None => {}
        }
    }
    Ok(None)
}
