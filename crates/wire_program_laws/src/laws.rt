//! The laws of programs. Each is the contract of a function that does nothing.

ghost use Rattle.wire_program_laws.specs.Elsewhere.{ProgramsTellElsewhere};
ghost use Rattle.wire_program_laws.specs.Going.{RunsGoOn, RunsStart, SameInterleavings};
ghost use Rattle.wire_program_laws.specs.Programs.{ProgramsTell};
ghost use Rattle.wire_program_laws.specs.Runs.{OneRunTells};

/// Where two runs go on alike as long as they have done the same, one of them is complete, and its plan has one end, the
/// other is a run of that plan: the same calls, the same replies, and one end.
pub fn one_run_tells()
    ensures { OneRunTells }
{}

/// Where a program's complete run made calls whose plan has one end, each of its runs makes these calls, in some
/// interleaving of that plan, with the same replies, and each complete one ends alike.
pub fn programs_tell()
    ensures { ProgramsTell }
{}

/// Where besides nothing is found on any nodes, and each answered call replies the same on all, that run tells of each
/// run of the program on whatever nodes.
pub fn programs_tell_elsewhere()
    ensures { ProgramsTellElsewhere }
{}

/// A program has a run without steps, whatever its nodes.
pub fn runs_start()
    ensures { RunsStart }
{}

/// Where a process can take a step after a run of a program, that gives a run of it again.
pub fn runs_go_on()
    ensures { RunsGoOn }
{}

/// Where the plan of a program's complete run has one end, each of the plan's interleavings is one of the program.
pub fn same_interleavings()
    ensures { SameInterleavings }
{}
