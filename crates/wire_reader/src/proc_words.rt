//! The processes of scripts, by their words.

ghost use Rattle.std.specs.Prelude.{◌≡◌, ℕ, List, Some, None, option_map, OnOk, IfOk, if◌then◌else◌};
ghost use Rattle.std.specs.Option.{option_or};
ghost use Rattle.std.specs.Str.{bytes_eq};
ghost use Rattle.wire_reader.specs.ProcWords.{number_in, IsTableOf};

use std::alloc::{AllocError, Global};
use std::collections::HashMap;
use wire_scripts::Scripts;
use wire_types::{Proc, proc_word};

/// The processes of scripts by their words. Where a word is that of several, it has the first of them.
pub struct ProcWords {
    procs: HashMap<Vec<u8>, Proc>,
}

// By hand and not derived: so dropping one is a call, and the proof of a function that drops one doesn't take it apart.
impl Drop for ProcWords {
    fn drop(self) {
        let ProcWords { procs: _ } = self;
    }
}

impl ProcWords {
    /// The table of the processes of these scripts.
    pub fn new(alloc: Global, scripts: &Scripts) -> Result<ProcWords, AllocError>
        ensures { IfOk result (IsTableOf scripts.now) }
    {
        let mut table = ProcWords {
            procs: HashMap::new(alloc),
        };
        for (number, process) in scripts.processes().iter().enumerate() {
            let job = scripts.jobs().text(process.job());
            let word = proc_word(alloc, job, process.rank())?;
            table.add(word, Proc::new(number as u32))?;
        }
        Ok(table)
    }

    /// Gives a word its process, unless it has one.
    fn add(&mut self, word: Vec<u8>, proc: Proc) -> Result<(), AllocError>
        ensures { OnOk result ((text : List ℕ) → number_in self.new text
            ≡ option_or (number_in self.old text) (if bytes_eq text word.items then Some proc.number else None)) }
    {
        if !self.procs.contains_key(word.as_slice()) {
            self.procs.insert(word, proc)?;
        }
        Ok(())
    }

    /// The process that a word names.
    pub fn proc_of(&self, word: &[u8]) -> Option<Proc>
        ensures { option_map (λ p. p.number) result ≡ number_in self.now word.now }
    {
        self.procs.get(word).copied()
    }
}
