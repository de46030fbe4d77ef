//! A law: the calls that a text spells are those of its scripts.

ghost use Rattle.wire_portable_commands.specs.SpelledCalls.{CallsAreSpelled};

/// Of a text that reads as scripts, each call of a fence and no other spells a set, and it is of the job of its caller.
pub fn calls_are_spelled()
    ensures { CallsAreSpelled }
{}
