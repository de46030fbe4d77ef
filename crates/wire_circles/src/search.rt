//! The search for a circle, depth first, without recursion.

ghost use Rattle.std.specs.Prelude.{◌≡◌, ◌<◌, ◌≤◌, ◌+◌, ◌-◌, ◌^◌, ◌++◌, ◌∷◌, [], ℕ, List, None, map, length};
ghost use Rattle.std.specs.Prelude.{slice_index, IfOk, OnOk, MatchOption};
ghost use Rattle.std.specs.List.{Contains};
ghost use Rattle.wire_circles.specs.Circles as spec;
ghost use Rattle.wire_circles.specs.Circles.{WaitsFor, IsCircle};
ghost use Rattle.wire_circles.specs.Search.{IsChain, IsSearch, EndsPath, MayGoOn, Lowers, Falls, StaysBelow};

use std::alloc::{AllocError, Global};

/// Those for whom one waits.
fn waited_by(waits: &[Vec<u32>], number: u32) -> &[u32]
    ensures { result.now ≡ spec.waited_by waits.now number }
{
    match waits.get(number as usize) {
        Some(list) => list.as_slice(),
        None => &[],
    }
}

/// What is left of one, 0 past the end of the table.
fn left_of(left: &[usize], number: u32) -> usize
    ensures { result ≡ slice_index left.now number }
{
    match left.get(number as usize) {
        Some(left) => *left,
        None => 0,
    }
}

/// How much is to be done with each at first: 2 more than those for whom it waits.
fn whole_work(alloc: Global, waits: &[Vec<u32>]) -> Result<Vec<usize>, AllocError>
    ensures { IfOk result (λ left. left.items ≡ map (λ list. length list.items + 2) waits.now) }
{
    let mut left = Vec::with_capacity(alloc, waits.len())?;
    for list in waits {
        left.push(list.len() + 2)?;
    }
    Ok(left)
}

/// Lowers what is left of one.
fn lower(left: &mut Vec<usize>, number: u32)
    requires { 0 < slice_index left.old.items number }
    ensures lowers { Lowers (slice_index left.old.items) (slice_index left.new.items) number }
    ensures falls { Falls left.old.items left.new.items }
{
    left[number as usize] -= 1;
}

/// Where the path has this one.
fn place_on(path: &[u32], number: u32) -> usize
    requires { Contains path.now number }
    ensures within { result < length path.now }
    ensures there { slice_index path.now result ≡ number }
{
    match path.iter().position(|other| *other == number) {
        Some(place) => place,
        None => unreachable!(),
    }
}

/// The circle that the end of the path closes by waiting for this one, which is on it.
fn circle_from(
    alloc: Global,
    waits: &[Vec<u32>],
    path: &[u32],
    first: u32,
) -> Result<Vec<u32>, AllocError>
    requires on { Contains path.now first }
    requires chain { IsChain (spec.waited_by waits.now) path.now }
    requires closed { WaitsFor waits.now (slice_index path.now (length path.now - 1)) first }
    ensures { IfOk result (λ circle. IsCircle (WaitsFor waits.now) circle.items) }
{
    let place = place_on(path, first);
    let mut circle = Vec::new(alloc);
    circle.extend_from_slice(&path[place..])?;
    Ok(circle)
}

/// Goes to the next for whom the end of the path waits, of whom so much is left.
fn enter(
    left: &mut Vec<usize>,
    path: &mut Vec<u32>,
    waits: &[Vec<u32>],
    next: u32,
) -> Result<(), AllocError>
    requires search { IsSearch (spec.waited_by waits.now) (slice_index left.old.items) path.old.items }
    requires new { slice_index left.old.items next ≡ length (spec.waited_by waits.now next) + 2 }
    requires on { MayGoOn (spec.waited_by waits.now) path.old.items next }
    ensures search { OnOk result (IsSearch (spec.waited_by waits.now) (slice_index left.new.items) path.new.items) }
    ensures falls { OnOk result (Falls left.old.items left.new.items) }
    ensures met { OnOk result (slice_index left.new.items next ≤ length (spec.waited_by waits.now next) + 1) }
{
    path.push(next)?;
    lower(left, next);
    Ok(())
}

/// Takes the end off the path.
fn drop_last(path: &mut Vec<u32>, last: u32)
    requires { EndsPath path.old.items last }
    ensures { path.old.items ≡ path.new.items ++ last ∷ [] }
{
    let _ = path.pop();
}

/// Leaves the end of the path, all for whom it waits being done with.
fn leave(left: &mut Vec<usize>, path: &mut Vec<u32>, waits: &[Vec<u32>], last: u32)
    requires search { IsSearch (spec.waited_by waits.now) (slice_index left.old.items) path.old.items }
    requires last { EndsPath path.old.items last }
    requires done { slice_index left.old.items last ≡ 1 }
    ensures search { IsSearch (spec.waited_by waits.now) (slice_index left.new.items) path.new.items }
    ensures falls { Falls left.old.items left.new.items }
{
    lower(left, last);
    drop_last(path, last);
}

/// Passes one for whom the end of the path waits, and who is done with.
fn pass(left: &mut Vec<usize>, path: &[u32], waits: &[Vec<u32>], last: u32)
    requires search { IsSearch (spec.waited_by waits.now) (slice_index left.old.items) path.now }
    requires last { EndsPath path.now last }
    requires more { 2 ≤ slice_index left.old.items last }
    requires done { slice_index left.old.items (slice_index (spec.waited_by waits.now last) (slice_index left.old.items last - 2)) ≡ 0 }
    ensures search { IsSearch (spec.waited_by waits.now) (slice_index left.new.items) path.now }
    ensures falls { Falls left.old.items left.new.items }
{
    lower(left, last);
}

/// The one at a place among those for whom one waits.
fn waited_at(waits: &[Vec<u32>], number: u32, place: usize) -> u32
    requires { place < length (spec.waited_by waits.now number) }
    ensures { result ≡ slice_index (spec.waited_by waits.now number) place }
{
    waited_by(waits, number)[place]
}

/// One move of the search from the end of the path. Answers a circle where it closes one.
fn step(
    alloc: Global,
    waits: &[Vec<u32>],
    left: &mut Vec<usize>,
    path: &mut Vec<u32>,
    last: u32,
) -> Result<Option<Vec<u32>>, AllocError>
    requires search { IsSearch (spec.waited_by waits.now) (slice_index left.old.items) path.old.items }
    requires last { EndsPath path.old.items last }
    ensures goes { IfOk result (λ r. MatchOption r (IsSearch (spec.waited_by waits.now) (slice_index left.new.items) path.new.items)
        (λ circle. IsCircle (WaitsFor waits.now) circle.items)) }
    ensures falls { IfOk result (λ r. r ≡ None → Falls left.old.items left.new.items) }
{
    let rest = left_of(left, last);
    if rest == 1 {
        leave(left, path, waits, last);
        return Ok(None);
    }
    let next = waited_at(waits, last, rest - 2);
    let ahead = left_of(left, next);
    if ahead == 0 {
        pass(left, path, waits, last);
        return Ok(None);
    }
    if ahead == waited_by(waits, next).len() + 2 {
        enter(left, path, waits, next)?;
        return Ok(None);
    }
    Ok(Some(circle_from(alloc, waits, path, next)?))
}

/// Searches from the path on, until all of it is done with or a circle is found.
fn walk(
    alloc: Global,
    waits: &[Vec<u32>],
    left: &mut Vec<usize>,
    path: &mut Vec<u32>,
) -> Result<Option<Vec<u32>>, AllocError>
    requires search { IsSearch (spec.waited_by waits.now) (slice_index left.old.items) path.old.items }
    ensures goes { IfOk result (λ r. MatchOption r (IsSearch (spec.waited_by waits.now) (slice_index left.new.items) [])
        (λ circle. IsCircle (WaitsFor waits.now) circle.items)) }
    ensures stays { IfOk result (λ r. r ≡ None → StaysBelow left.old.items left.new.items) }
{
    'steps: while let Some(last) = path.last().copied() {
        if let Some(circle) = step(alloc, waits, left, path, last)? {
            return Ok(Some(circle));
        }
    }
    Ok(None)
}

/// Searches from one on, while nobody is on the path.
#[tactic(auto, using(crate::proofs::Searching::nobody_open))]
fn search_from(
    alloc: Global,
    waits: &[Vec<u32>],
    left: &mut Vec<usize>,
    start: u32,
) -> Result<Option<Vec<u32>>, AllocError>
    requires search { IsSearch (spec.waited_by waits.now) (slice_index left.old.items) [] }
    ensures goes { IfOk result (λ r. MatchOption r (IsSearch (spec.waited_by waits.now) (slice_index left.new.items) [])
        (λ circle. IsCircle (WaitsFor waits.now) circle.items)) }
    ensures done { IfOk result (λ r. r ≡ None → slice_index left.new.items start ≡ 0) }
    ensures stays { IfOk result (λ r. r ≡ None → StaysBelow left.old.items left.new.items) }
{
    if left_of(left, start) == 0 {
        return Ok(None);
    }
    let mut path = Vec::new(alloc);
    enter(left, &mut path, waits, start)?;
    walk(alloc, waits, left, &mut path)
}

/// A circle among those that wait, each for those of its list; none exactly where there is none. A number past the end
/// of the table waits for nobody. It takes as long as the table has lists, and these have numbers.
pub fn find_circle(alloc: Global, waits: &[Vec<u32>]) -> Result<Option<Vec<u32>>, AllocError>
    requires { length waits.now < 2 ^ 32 }
    ensures { IfOk result (λ r. MatchOption r ((circle : List ℕ) → IsCircle (WaitsFor waits.now) circle → ⊥)
        (λ circle. IsCircle (WaitsFor waits.now) circle.items)) }
{
    let mut left = whole_work(alloc, waits)?;
    for start in 0..waits.len() as u32 {
        if let Some(circle) = search_from(alloc, waits, &mut left, start)? {
            return Ok(Some(circle));
        }
    }
    Ok(None)
}
