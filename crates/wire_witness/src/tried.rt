//! Races that were tried: whether a witness was found of each.

ghost use Rattle.std.specs.Prelude.{◌≡◌, ◌++◌, ◌∷◌, [], map, IfOk, IfErr, OnOk};
ghost use Rattle.wire_types.specs.declared.Fault.TheVariants.{Memory};
ghost use Rattle.wire_witness.specs.Tried as spec;
ghost use Rattle.wire_witness.specs.Tried.{AreTried, IsTried};

use crate::search::find_witness;
use std::alloc::{AllocError, Global};
use wire_findings::Finding;
use wire_happens_before::MarkedPlan;
use wire_races::race_calls;
use wire_types::{CallAt, Fault};

/// A race of which a witness was looked for.
#[derive(Clone, Copy)]
pub struct TriedRace {
    pub race: Finding,
    /// The call that ends differently in the two runs of a witness, where one was found.
    pub shown: Option<CallAt>,
}

/// Looks for a witness of a race.
fn try_race(alloc: Global, marked: &MarkedPlan<'_>, race: Finding) -> Result<TriedRace, Fault>
    ensures race { IfOk result (λ tried. tried.race ≡ race) }
    ensures shown { IfOk result (IsTried marked.now) }
    ensures err { IfErr result (λ e. e ≡ Memory) }
{
    let Some((x, y)) = race_calls(race) else {
        return Ok(TriedRace { race, shown: None });
    };
    match find_witness(alloc, marked, x, y)? {
        Some(witness) => Ok(TriedRace {
            race,
            shown: Some(witness.call),
        }),
        None => Ok(TriedRace { race, shown: None }),
    }
}

/// Appends a race that was tried.
fn add(tried: &mut Vec<TriedRace>, one: TriedRace) -> Result<(), AllocError>
    ensures { OnOk result (tried.new.items ≡ tried.old.items ++ one ∷ []) }
{
    tried.push(one)?;
    Ok(())
}

/// Looks for a witness of each of these races.
pub(crate) fn try_races(
    alloc: Global,
    marked: &MarkedPlan<'_>,
    races: &[Finding],
) -> Result<Vec<TriedRace>, Fault>
    ensures races { IfOk result (λ tried. map (λ t. t.race) tried.items ≡ races.now) }
    ensures shown { IfOk result (λ tried. AreTried marked.now tried.items) }
    ensures err { IfErr result (λ e. e ≡ Memory) }
{
    let mut tried = Vec::new(alloc);
    for race in races {
        let one = try_race(alloc, marked, *race)?;
        add(&mut tried, one)?;
    }
    Ok(tried)
}

/// How many of these races are shown.
pub(crate) fn count_shown(tried: &[TriedRace]) -> usize
    ensures { result ≡ spec.count_shown tried.now }
{
    tried.iter().filter(|one| one.shown.is_some()).count()
}
