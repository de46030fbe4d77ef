//! A command that holds its whole answer before it writes.

ghost use Rattle.std.specs.Prelude.{◌≡◌};

use crate::answer::write_answer;
use crate::command::Command;
use crate::ended::Ended;
use crate::options::AnswerStyle;
use crate::streamed::StreamedCommand;
use std::alloc::Global;
use wire_scripts::Scripts;
use wire_types::{Fault, Sink};

/// A command, as one that writes its answer itself.
#[derive(Drop)]
pub(crate) struct Whole<'c, C> {
    pub(crate) command: &'c C,
}

impl<'c, C: Command> StreamedCommand for Whole<'c, C> {
    ghost needs = { λ whole. C.needs whole.command.now };

    ghost tells = { λ whole. C.tells whole.command.now };

    ghost refuses = { λ whole. C.refuses whole.command.now };

    fn write<W: Sink>(
        &self,
        alloc: Global,
        scripts: Scripts,
        telling: AnswerStyle<'_>,
        writer: &mut W,
    ) -> Result<Ended, Fault> {
        let answer = self.command.answer(alloc, scripts, telling)?;
        write_answer(writer, &answer)
    }
}
