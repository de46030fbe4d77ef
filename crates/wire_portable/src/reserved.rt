//! Calls of reserved keys.

ghost use Rattle.std.specs.Prelude.{◌≡◌, ◌==◌};
ghost use Rattle.std.specs.Str.{bytes_eq};
ghost use Rattle.wire_scripts.specs.Map.{job_at};
ghost use Rattle.wire_scripts.specs.Scripts.{call_at};
ghost use Rattle.wire_portable.specs.Words as spec;
ghost use Rattle.wire_portable.specs.Words.{script_call};

use crate::jobs::job_of;
use wire_scripts::Scripts;
use wire_types::{Call, CallAt, Proc};

/// Whether two texts are the same.
fn is_same_text(a: &[u8], b: &[u8]) -> bool
    ensures { result ≡ bytes_eq a.now b.now }
{
    a == b
}

/// Whether a key tells where a process is, so that libraries tell it of a process of the caller's job.
fn is_of_map(key: &[u8]) -> bool
    ensures { result ≡ spec.is_of_map key.now }
{
    is_same_text(key, b"PMIX_LOCAL_RANK".as_slice())
        || is_same_text(key, b"PMIX_NODE_RANK".as_slice())
        || is_same_text(key, b"PMIX_HOSTNAME".as_slice())
}

/// Whether a library may hold a value of its own of a key: their names begin with `pmix.`. It tells neither of these two
/// of a process.
fn is_its_own(key: &[u8]) -> bool
    ensures { result ≡ spec.is_its_own key.now }
{
    key.starts_with(b"pmix.".as_slice())
        && !(is_same_text(key, b"pmix.rank".as_slice())
            || is_same_text(key, b"pmix.job.size".as_slice()))
}

/// Whether a library doesn't answer a key as the plan says.
fn is_untold(key: &[u8]) -> bool
    ensures { result ≡ spec.is_untold key.now }
{
    is_its_own(key)
        || is_same_text(key, b"PMIX_RANK".as_slice())
        || is_same_text(key, b"PMIX_JOB_SIZE".as_slice())
}

/// Whether two processes are of one job.
fn is_one_job(scripts: &Scripts, x: Proc, y: Proc) -> bool
    ensures { result ≡ (job_at scripts.now.processes x.number == job_at scripts.now.processes y.number) }
{
    job_of(scripts, x) == job_of(scripts, y)
}

/// The call at a place, where there is one.
fn call_there(scripts: &Scripts, place: CallAt) -> Option<Call>
    ensures { result ≡ script_call scripts.now place }
{
    match scripts.processes().get(place.proc.index()) {
        Some(process) => process.calls().get(place.call as usize).copied(),
        None => None,
    }
}

/// Whether libraries answer a call of a process as the plan says, if it is one of a reserved key.
fn is_told(scripts: &Scripts, call: Call, caller: Proc) -> bool
    ensures { result ≡ spec.told_call scripts.now caller.number call }
{
    match call {
        Call::Get { owner, key } => {
            is_of_map(scripts.keys().text(key)) && is_one_job(scripts, owner, caller)
        }
        Call::GetNow { owner, key } => {
            let text = scripts.keys().text(key);
            if is_of_map(text) {
                is_one_job(scripts, owner, caller)
            } else {
                !is_untold(text)
            }
        }
        _ => false,
    }
}

/// Whether libraries answer a call of a reserved key as the plan says.
pub(crate) fn is_known(scripts: &Scripts, call: CallAt) -> bool
    ensures { result ≡ spec.known_by scripts.now call.proc.number (script_call scripts.now call) }
{
    match call_there(scripts, call) {
        Some(there) => is_told(scripts, there, call.proc),
        None => false,
    }
}

/// Whether a call takes away a name.
pub(crate) fn is_unpublish(scripts: &Scripts, call: CallAt) -> bool {
    matches!(call_there(scripts, call), Some(Call::Unpublish { .. }))
}
