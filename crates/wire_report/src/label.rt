//! What findings have in common that are one mistake.

ghost use Rattle.std.specs.Prelude.{◌≡◌};
ghost use Rattle.wire_scripts.specs.Scripts.{call_at};
ghost use Rattle.wire_report.specs.Label as spec;

use wire_findings::Finding;
use wire_scripts::Scripts;
use wire_types::{Call, CallAt, Verb};
use wire_words::{find_call, verb_of};

/// What a finding is, and the number of the key or the name that it is on. Who owns the key isn't part of it.
#[derive(Clone, Copy, PartialEq, Eq, Hash)]
pub enum Subject {
    Rewrite(u32),
    KeyRace(u32),
    NameRace(u32),
}

/// What findings share that are one mistake: what they are on, and the verbs of their two calls, whichever of them
/// stands first in rank order. A call that isn't there has no verb.
#[derive(Clone, Copy, PartialEq, Eq, Hash)]
pub struct Label {
    pub subject: Subject,
    /// That of the two which `Verb` names first.
    pub one: Option<Verb>,
    pub other: Option<Verb>,
}

/// The two calls of a finding, as it names them.
#[derive(Clone, Copy)]
pub struct Pair {
    pub lower: CallAt,
    pub higher: CallAt,
}

/// The two calls of a finding.
pub fn pair_of(finding: Finding) -> Pair
    ensures { result ≡ spec.pair_of finding }
{
    match finding {
        Finding::Rewrite(lower, higher)
        | Finding::KeyRace(lower, higher, _, _)
        | Finding::NameRace(lower, higher, _) => Pair { lower, higher },
    }
}

/// The verb of the call at a place, if there is one.
fn find_verb(scripts: &Scripts, place: CallAt) -> Option<Verb>
    ensures { result ≡ spec.verb_found (call_at scripts.now.processes place.proc.number place.call) }
{
    match find_call(scripts, place) {
        Some(call) => Some(verb_of(call)),
        None => None,
    }
}

/// The number of the key that the call at a place puts, 0 where it puts none.
fn key_put(scripts: &Scripts, place: CallAt) -> u32
    ensures { result ≡ spec.key_put (call_at scripts.now.processes place.proc.number place.call) }
{
    match find_call(scripts, place) {
        Some(Call::Put { key, .. }) => *key,
        _ => 0,
    }
}

/// What a finding is on.
pub(crate) fn subject_of(scripts: &Scripts, finding: Finding) -> Subject
    ensures { result ≡ spec.subject_of scripts.now finding }
{
    match finding {
        Finding::Rewrite(_, later) => Subject::Rewrite(key_put(scripts, later)),
        Finding::KeyRace(_, _, _, key) => Subject::KeyRace(key),
        Finding::NameRace(_, _, name) => Subject::NameRace(name),
    }
}

/// The number of a verb, in the order in which `Verb` names them; that of no verb comes last.
fn number_of(verb: Option<Verb>) -> u8
    ensures { result ≡ spec.verb_number verb }
{
    match verb {
        Some(Verb::Put) => 0,
        Some(Verb::Commit) => 1,
        Some(Verb::Fence) => 2,
        Some(Verb::Get) => 3,
        Some(Verb::GetNow) => 4,
        Some(Verb::Publish) => 5,
        Some(Verb::Lookup) => 6,
        Some(Verb::LookupWait) => 7,
        Some(Verb::Unpublish) => 8,
        None => 9,
    }
}

/// The label of findings on this, whose calls have these two verbs.
fn label_with(subject: Subject, x: Option<Verb>, y: Option<Verb>) -> Label
    ensures { result ≡ spec.label_with subject x y }
{
    if number_of(x) <= number_of(y) {
        Label {
            subject,
            one: x,
            other: y,
        }
    } else {
        Label {
            subject,
            one: y,
            other: x,
        }
    }
}

/// The label of a finding.
pub fn label_of(scripts: &Scripts, finding: Finding) -> Label
    ensures { result ≡ spec.label_of scripts.now finding }
{
    let pair = pair_of(finding);
    label_with(
        subject_of(scripts, finding),
        find_verb(scripts, pair.lower),
        find_verb(scripts, pair.higher),
    )
}
