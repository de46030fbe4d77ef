//! The words of the lower call of a race, which most lines share with the line before.

ghost use Rattle.std.specs.Prelude.{◌≡◌, ◌⊎◌, ◌+◌, ◌<◌, ◌≤◌, ◌++◌, None, length, vec_capacity, IfOk, OnOk, OnErr};
ghost use Rattle.wire_report.specs.FindingLines.{race_start, AreWordsOf};

use crate::findings::push_race_start;
use std::alloc::{AllocError, Global};
use wire_scripts::Scripts;
use wire_types::CallAt;

/// The words of a race up to its lower call: of the race that was told last, if there was one.
#[derive(Drop)]
pub(crate) struct LowerCall {
    pub call: Option<CallAt>,
    pub words: Vec<u8>,
}

impl LowerCall {
    /// No words yet, and room for so many bytes of them.
    pub(crate) fn new(alloc: Global, room: usize) -> Result<LowerCall, AllocError>
        ensures none { IfOk result (λ lower. lower.call ≡ None) }
        ensures room { IfOk result (λ lower. room ≤ vec_capacity lower.words) }
    {
        Ok(LowerCall {
            call: None,
            words: Vec::with_capacity(alloc, room)?,
        })
    }

    /// Makes the words anew, for this call. Fails only where there is no room for them.
    fn make_words(&mut self, scripts: &Scripts, call: CallAt) -> Result<(), AllocError>
        ensures ok { OnOk result (self.new.words.items ≡ race_start scripts.now call) }
        ensures call { AreWordsOf scripts.now self.new.call self.new.words.items }
        ensures capacity { vec_capacity self.old.words ≤ vec_capacity self.new.words }
        ensures full { OnErr result (vec_capacity self.old.words < length (race_start scripts.now call)) }
    {
        self.call = None;
        self.words.clear();
        push_race_start(&mut self.words, scripts, call)?;
        self.call = Some(call);
        Ok(())
    }

    /// Appends the words of a race up to its lower call, which is this one. Fails only where there is no room
    /// for them.
    pub(crate) fn push(
        &mut self,
        out: &mut Vec<u8>,
        scripts: &Scripts,
        call: CallAt,
    ) -> Result<(), AllocError>
        requires { AreWordsOf scripts.now self.old.call self.old.words.items }
        ensures ok { OnOk result (out.new.items ≡ out.old.items ++ race_start scripts.now call) }
        ensures call { AreWordsOf scripts.now self.new.call self.new.words.items }
        ensures capacity { vec_capacity out.old ≤ vec_capacity out.new }
        ensures words { vec_capacity self.old.words ≤ vec_capacity self.new.words }
        ensures full { OnErr result ((vec_capacity out.old < length out.old.items + length (race_start scripts.now call))
            ⊎ (vec_capacity self.old.words < length (race_start scripts.now call))) }
    {
        if self.call == Some(call) {
            return out.extend_from_slice(self.words.as_slice());
        }
        self.make_words(scripts, call)?;
        out.extend_from_slice(self.words.as_slice())
    }
}
