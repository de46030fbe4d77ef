//! The jobs of processes.

ghost use Rattle.std.specs.Prelude.{◌≡◌};
ghost use Rattle.wire_scripts.specs.Map.{job_at};

use wire_scripts::Scripts;
use wire_types::Proc;

/// The number of a process's job.
pub(crate) fn job_of(scripts: &Scripts, proc: Proc) -> u32
    ensures { result ≡ job_at scripts.now.processes proc.number }
{
    match scripts.processes().get(proc.index()) {
        Some(process) => process.job(),
        None => 0,
    }
}
