//! The words of processes, and which keys are reserved.

ghost use Rattle.std.specs.Prelude.{◌≡◌, ◌++◌, IfOk, OnOk};
ghost use Rattle.wire_types.specs.Said as spec;
ghost use Rattle.wire_types.specs.Said.{spelled_proc};

use itoa::Buffer;
use std::alloc::{AllocError, Global};

/// Whether the standard keeps the key for itself.
#[tactic(auto, unfolding(crate::specs::Said::is_reserved))]
pub fn is_reserved(key: &[u8]) -> bool
    ensures { result ≡ spec.is_reserved key.now }
{
    key.starts_with(b"pmix".as_slice()) || key.starts_with(b"PMIX_".as_slice())
}

/// Writes the word of a process: the name of its job, a colon and its rank.
pub fn write_proc(out: &mut Vec<u8>, job: &[u8], rank: u32) -> Result<(), AllocError>
    ensures { OnOk result (out.new.items ≡ out.old.items ++ spelled_proc job.now rank) }
{
    out.extend_from_slice(job)?;
    out.push(b':')?;
    let mut digits = Buffer::new();
    out.extend_from_slice(digits.format(rank).as_bytes())?;
    Ok(())
}

/// The word of a process.
pub fn proc_word(alloc: Global, job: &[u8], rank: u32) -> Result<Vec<u8>, AllocError>
    ensures { IfOk result (λ word. word.items ≡ spelled_proc job.now rank) }
{
    let mut word = Vec::new(alloc);
    write_proc(&mut word, job, rank)?;
    Ok(word)
}
