//! Whether calls succeed, and whether keys are put for other nodes alone.

ghost use Rattle.std.specs.Prelude.{◌≡◌};
ghost use Rattle.std.specs.List.{list_all, list_any};
ghost use Rattle.wire_types.specs.Texts.{lists_of};
ghost use Rattle.wire_pattern_stages.specs.Succeeding.{succeeds};
ghost use Rattle.wire_pattern_stages.specs.Succeeding as spec;

use wire_scripts::Process;
use wire_types::{Call, CallEnd, Scope, Status};

/// Whether a call was answered `PMIX_SUCCESS`.
fn has_succeeded(end: CallEnd) -> bool
    ensures { result ≡ succeeds end }
{
    match end {
        CallEnd::Replied(reply) => reply.status == Status::Success,
        _ => false,
    }
}

/// Whether each call of a process was.
fn row_succeeds(row: &[CallEnd]) -> bool
    ensures { result ≡ list_all succeeds row.now }
{
    for end in row {
        if !has_succeeded(*end) {
            return false;
        }
    }
    true
}

/// Whether each call of each process was answered `PMIX_SUCCESS`, by what became of them.
pub fn rows_succeed(rows: &[Vec<CallEnd>]) -> bool
    ensures { result ≡ list_all (list_all succeeds) (lists_of rows.now) }
{
    for row in rows {
        if !row_succeeds(row.as_slice()) {
            return false;
        }
    }
    true
}

/// Whether this is the scope of keys for other nodes alone.
fn is_remote(scope: Scope) -> bool
    ensures { result ≡ spec.is_remote scope }
{
    match scope {
        Scope::Remote => true,
        Scope::Local | Scope::Global => false,
    }
}

/// Whether a call puts a key for other nodes alone.
fn puts_remote(call: &Call) -> bool
    ensures { result ≡ spec.puts_remote call.now }
{
    match call {
        Call::Put {
            scope,
            key: _,
            value: _,
        } => is_remote(*scope),
        _ => false,
    }
}

/// Whether one of these calls does.
fn any_puts_remote(calls: &[Call]) -> bool
    ensures { result ≡ list_any spec.puts_remote calls.now }
{
    for call in calls {
        if puts_remote(call) {
            return true;
        }
    }
    false
}

/// Whether a call of one of these processes does.
pub(crate) fn some_puts_remote(processes: &[Process]) -> bool
    ensures { result ≡ list_any spec.process_puts_remote processes.now }
{
    for process in processes {
        if any_puts_remote(process.calls()) {
            return true;
        }
    }
    false
}
