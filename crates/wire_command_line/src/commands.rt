//! The commands of the command line.

ghost use Rattle.std.specs.Prelude.{◌≡◌, IfOk};
ghost use Rattle.clap.specs.Words.{App, app_of, with_subcommand};
ghost use Rattle.wire_command_line.specs.CommandLine as spec;
ghost use Rattle.wire_command_line.specs.CommandLine.{IsLine};
ghost use Rattle.wire_command_line.specs.Tables.{line_said, with_commands};

use crate::arguments::{Argument, Kind, Subcommand, make_command};
use crate::help::FAULTS_AND_STATUSES;
use clap::Command;
use std::alloc::{AllocError, Global};

/// What `--version` shows behind the program's name.
const VERSION: &str = "0.1.0";

/// JSON in place of text.
const JSON: Argument<'static> = Argument {
    name: "json",
    kind: Kind::Flag,
    help: "Writes JSON instead of text",
};

/// Whether `witness` writes only the first of its two orders.
const FIRST_ORDER: Argument<'static> = Argument {
    name: "first",
    kind: Kind::Flag,
    help: "Writes only the order of the run in which the first call comes first, for 'follow'",
};

/// Whether `witness` writes only the second of its two orders.
const SECOND_ORDER: Argument<'static> = Argument {
    name: "second",
    kind: Kind::Flag,
    help: "Writes only the order of the run in which the second call comes first, for 'follow'",
};

/// Lines of the file, where an answer tells of calls one by one.
const LINES: Argument<'static> = Argument {
    name: "lines",
    kind: Kind::Flag,
    help: "Tells the file and the line of each call, in the form that editors and terminals open",
};

/// What each `get-now` of a pattern is answered with.
const ANSWERS: Argument<'static> = Argument {
    name: "answers",
    kind: Kind::Flag,
    help: "With --pattern: tells all statuses with which each get-now is answered",
};

/// Whether no call of a pattern waits with any number of ranks, and each call of the instances that are judged succeeds.
const ALL_SUCCEED: Argument<'static> = Argument {
    name: "complete",
    kind: Kind::Flag,
    help: "With --pattern: ends with status 1 if a call may wait with some number of ranks, or fails in a plan that is judged",
};

/// The limits are lifted.
const LARGE: Argument<'static> = Argument {
    name: "large",
    kind: Kind::Flag,
    help: "Lifts the limits, up to 65536 nodes, 1048576 ranks, 33554432 calls and files of 1 GiB",
};

/// A fault is explained.
const EXPLAIN: Argument<'static> = Argument {
    name: "explain",
    kind: Kind::Flag,
    help: "Explains a fault: quotes the line, and says what was expected there",
};

/// The plan, which may be left out.
const PLAN: Argument<'static> = Argument {
    name: "FILE",
    kind: Kind::Word,
    help: "The plan, standard input if not given",
};

/// What `check` judges, which may be left out.
const PLAN_OR_PATTERN: Argument<'static> = Argument {
    name: "FILE",
    kind: Kind::Word,
    help: "The plan, or with --pattern the pattern; standard input if not given",
};

/// The pattern, which may be left out.
const PATTERN: Argument<'static> = Argument {
    name: "FILE",
    kind: Kind::Word,
    help: "The pattern, standard input if not given",
};

/// The order, which has to be given.
const ORDER: Argument<'static> = Argument {
    name: "ORDER",
    kind: Kind::NeededWord,
    help: "The file of the order: each line names the process that takes the next step",
};

/// The process of a second call.
const SECOND_PROCESS: &str = "The process of the second call";

/// The number of a call whose process was told of before.
const NUMBER: &str = "The number of that call";

/// The command `check`.
fn check_command<'a>() -> Subcommand<'a>
    ensures { line_said result ≡ spec.check_line }
{
    Subcommand {
        name: "check",
        about: "Finds every race of a plan, and every key that a rank puts twice",
        arguments: &[
            Argument {
                name: "anywhere",
                kind: Kind::Flag,
                help: "Finds those of every placement of the ranks on nodes, not only of the one that the plan has",
            },
            Argument {
                name: "same",
                kind: Kind::Flag,
                help: "With --anywhere: where nothing is found, names each call that replies differently elsewhere",
            },
            Argument {
                name: "portable",
                kind: Kind::Flag,
                help: "Tells on which libraries each run does as the rules say, and names each call that may not",
            },
            Argument {
                name: "pattern",
                kind: Kind::Flag,
                help: "Judges a pattern: every number of ranks on every placement",
            },
            ANSWERS,
            ALL_SUCCEED,
            Argument {
                name: "lines",
                kind: Kind::Flag,
                help: "Groups findings that are alike, and tells where the calls of each group's first finding stand",
            },
            JSON,
            LARGE,
            EXPLAIN,
            PLAN_OR_PATTERN,
        ],
    }
}

/// The command `replay`.
fn replay_command<'a>() -> Subcommand<'a>
    ensures { line_said result ≡ spec.replay_line }
{
    Subcommand {
        name: "replay",
        about: "Runs a plan if nothing is found in it, and shows what became of every call",
        arguments: &[
            Argument {
                name: "workers",
                kind: Kind::Number,
                help: "How many threads run the plan, 1 to 64 (1 if not given)",
            },
            JSON,
            Argument {
                name: "anyway",
                kind: Kind::Flag,
                help: "Runs a plan with findings too, and shows in which order its steps came",
            },
            Argument {
                name: "complete",
                kind: Kind::Flag,
                help: "Ends with status 1, and names the first such call, if a call fails or is never answered",
            },
            LARGE,
            EXPLAIN,
            PLAN,
        ],
    }
}

/// The command `follow`.
fn follow_command<'a>() -> Subcommand<'a>
    ensures { line_said result ≡ spec.follow_line }
{
    Subcommand {
        name: "follow",
        about: "Runs a plan in the order of a file, and shows what became of every call",
        arguments: &[ORDER, JSON, LARGE, EXPLAIN, PLAN],
    }
}

/// The command `why`.
fn why_command<'a>() -> Subcommand<'a>
    ensures { line_said result ≡ spec.why_line }
{
    Subcommand {
        name: "why",
        about: "Tells whether a chain of events orders two calls, and shows the chain",
        arguments: &[
            Argument {
                name: "P",
                kind: Kind::NeededWord,
                help: "The process of the first call: its job, a colon and its rank, as app:0",
            },
            Argument {
                name: "N",
                kind: Kind::NeededWord,
                help: "The number of that call among the calls of its process, from 1",
            },
            Argument {
                name: "Q",
                kind: Kind::NeededWord,
                help: SECOND_PROCESS,
            },
            Argument {
                name: "M",
                kind: Kind::NeededWord,
                help: NUMBER,
            },
            LINES,
            JSON,
            LARGE,
            EXPLAIN,
            PLAN,
        ],
    }
}

/// The command `migrate`.
fn migrate_command<'a>() -> Subcommand<'a>
    ensures { line_said result ≡ spec.migrate_line }
{
    Subcommand {
        name: "migrate",
        about: "Writes the same plan under version 2 of the format",
        arguments: &[LARGE, EXPLAIN, PLAN],
    }
}

/// The command `place`.
fn place_command<'a>() -> Subcommand<'a>
    ensures { line_said result ≡ spec.place_line }
{
    Subcommand {
        name: "place",
        about: "Writes the same plan with some ranks on one node, and all others on another",
        arguments: &[
            Argument {
                name: "RANKS",
                kind: Kind::NeededWord,
                help: "The ranks on a node of their own, with commas between them, as app:0,app:3",
            },
            LARGE,
            EXPLAIN,
            PLAN,
        ],
    }
}

/// The command `witness`.
fn witness_command<'a>() -> Subcommand<'a>
    ensures { line_said result ≡ spec.witness_line }
{
    Subcommand {
        name: "witness",
        about: "Looks for two runs in which the calls of a race come in different orders and one ends differently",
        arguments: &[
            FIRST_ORDER,
            SECOND_ORDER,
            Argument {
                name: "most",
                kind: Kind::Number,
                help: "How many races are tried (1000 if not given), where no calls are named",
            },
            LINES,
            JSON,
            Argument {
                name: "P",
                kind: Kind::Word,
                help: "The process of the first call, as in 'why'; or FILE, if it is the only word",
            },
            Argument {
                name: "N",
                kind: Kind::Word,
                help: NUMBER,
            },
            Argument {
                name: "Q",
                kind: Kind::Word,
                help: SECOND_PROCESS,
            },
            Argument {
                name: "M",
                kind: Kind::Word,
                help: NUMBER,
            },
            EXPLAIN,
            PLAN,
        ],
    }
}

/// The command `expand`.
fn expand_command<'a>() -> Subcommand<'a>
    ensures { line_said result ≡ spec.expand_line }
{
    Subcommand {
        name: "expand",
        about: "Writes the plan of one instance of a pattern",
        arguments: &[
            Argument {
                name: "ranks",
                kind: Kind::Groups,
                help: "How many ranks each group has, as workers=4,servers=2 (its least number if it isn't named)",
            },
            Argument {
                name: "per-node",
                kind: Kind::Number,
                help: "Puts so many ranks on each node, in rank order",
            },
            Argument {
                name: "by",
                kind: Kind::Way,
                help: "With 'node': deals the ranks in turn to the nodes of --nodes",
            },
            Argument {
                name: "nodes",
                kind: Kind::Number,
                help: "With --by node: how many nodes there are",
            },
            LARGE,
            EXPLAIN,
            PATTERN,
        ],
    }
}

/// The program without its commands.
pub(crate) fn program<'a>(alloc: Global) -> Command<'a>
    ensures { IsLine spec.program_alone result }
{
    Command::new(alloc, "wire_up")
        .about("Finds every race in a plan of the wire-up of a PMIx job, and replays the plan")
        .version(VERSION)
        .after_help(FAULTS_AND_STATUSES)
        .subcommand_required(true)
}

/// The program with one more command.
fn with_command<'a>(
    alloc: Global,
    line: Command<'a>,
    command: Subcommand<'a>,
) -> Result<Command<'a>, AllocError>
    ensures { IfOk result (λ after. (app : App) → IsLine app line.entry → IsLine (with_subcommand app (line_said command.entry).top) after) }
{
    match make_command(alloc, command) {
        Ok(made) => line.subcommand(made),
        Err(error) => {
            drop(line);
            Err(error)
        }
    }
}

/// The commands, in the order in which help lists them.
fn commands<'a>() -> [Subcommand<'a>; 8]
    ensures { with_commands spec.program_alone result ≡ spec.program_line }
{
    [
        check_command(),
        replay_command(),
        follow_command(),
        why_command(),
        migrate_command(),
        place_command(),
        witness_command(),
        expand_command(),
    ]
}

/// The command line of the program.
pub fn command_line<'a>(alloc: Global) -> Result<Command<'a>, AllocError>
    ensures { IfOk result (λ c. app_of c ≡ spec.program_line) }
{
    let mut line = program(alloc);
    for command in &commands() {
        line = with_command(alloc, line, *command)?;
    }
    Ok(line)
}
