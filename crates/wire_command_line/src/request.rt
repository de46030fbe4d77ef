//! What a command line requests, as a command with all that it needs.

use clap::Error;
use std::alloc::AllocError;
use std::num::NonZeroU32;
use wire_reader::Size;
use wire_types::{Orders, OutputFormat};

/// The two words that name a call.
#[derive(Clone, Copy)]
pub struct CallWords<'a> {
    pub proc: &'a str,
    /// Its number among the calls of its process.
    pub number: &'a str,
}

/// The words that name two calls.
#[derive(Clone, Copy)]
pub struct CallPair<'a> {
    pub first: CallWords<'a>,
    pub second: CallWords<'a>,
}

/// How `replay` is to run a plan.
#[derive(Clone, Copy)]
pub struct ReplayOptions {
    /// 65 for every greater number.
    pub workers: usize,
    /// Plans in which something is found are run too.
    pub anyway: bool,
    /// The first call that doesn't succeed is named.
    pub complete: bool,
}

/// What `check` is to tell of a pattern besides its verdict.
#[derive(Clone, Copy, Debug, PartialEq, Eq)]
pub struct PatternOptions {
    /// Of each `get-now`, all statuses with which it is answered.
    pub answers: bool,
    /// By the exit status, whether one of these isn't success.
    pub complete: bool,
}

/// What `check` is to judge: a plan, on which placements, or a pattern.
#[derive(Clone, Copy, Debug, PartialEq, Eq)]
pub enum CheckScope {
    /// The one that the plan has.
    Written,
    /// Every one.
    Anywhere,
    /// Every one, and if nothing is found whether each call replies the same on all of them.
    Same,
    /// The one that the plan has, and on which libraries each run does as the rules say.
    Portable,
    /// Every one, and on which libraries each run does as the rules say on all of them.
    PortableAnywhere,
    /// Every number of ranks on every placement, of a pattern.
    Pattern(PatternOptions),
}

/// Whose race `witness` is to show by two runs, and what it is to write of them.
#[derive(Clone, Copy)]
pub struct PairOptions<'a> {
    pub calls: CallPair<'a>,
    /// An order alone comes only with the form `Lines`.
    pub orders: Orders,
}

/// How `expand` is to put ranks on nodes. A number is 1,000,000,000 for every greater one.
#[derive(Clone, Copy)]
pub enum Spread {
    /// Each rank on a node of its own, or dealt in turn to as many nodes as a plan may have.
    Apart,
    /// So many on each node, in rank order.
    PerNode(NonZeroU32),
    /// Dealt in turn to so many nodes.
    ByNode(NonZeroU32),
}

/// How many ranks of each group `expand` is to write, and on which nodes.
#[derive(Clone, Copy)]
pub struct ExpandOptions<'a> {
    /// The word that lists groups with their numbers. Without it each group has its least number.
    pub ranks: Option<&'a str>,
    pub spread: Spread,
}

/// A command, with all that it alone needs.
#[derive(Clone, Copy)]
pub enum Command<'a> {
    /// To find the races of a plan, on these placements, or of a pattern.
    Check(CheckScope),
    /// To run a plan.
    Replay(ReplayOptions),
    /// To run a plan in the order of this file.
    Follow(&'a str),
    /// To tell which of two calls is before the other.
    Why(CallPair<'a>),
    /// To write a plan under version 2 of the format.
    Migrate,
    /// To write a plan with these ranks on one node, and all others on another.
    Place(&'a str),
    /// To write the plan of one instance of a pattern.
    Expand(ExpandOptions<'a>),
    /// `witness` with two calls: to show their race by two runs.
    Witness(PairOptions<'a>),
    /// `witness` without calls: to tell which races two runs show. So many are tried, 1,000,000,000 for every greater
    /// number.
    Witnesses(usize),
}

/// What the program is to do: what all commands share, and the command.
#[derive(Clone, Copy)]
pub struct Request<'a> {
    /// Without a name, the plan comes from standard input.
    pub plan: Option<&'a str>,
    pub form: OutputFormat,
    pub size: Size,
    /// A fault is explained.
    pub explain: bool,
    pub command: Command<'a>,
}

/// Why a command line requests nothing.
#[derive(Debug, Drop)]
pub enum Refusal {
    /// What `clap` says to the words. Help, the version and want of memory are among it.
    Usage(Error),
    /// The word of `--workers` isn't one or more digits.
    Workers,
    /// `--same` is given without `--anywhere`.
    Same,
    /// `--pattern` is given with an option that doesn't go with it, or one that needs it is given without it.
    Pattern,
    /// `--portable` is given with `--same` or `--pattern`, or with an option that needs the latter.
    Portable,
    /// The options of `expand` that put ranks on nodes don't go together, or don't say how.
    Spread,
    /// The words of `witness` aren't those of a file, or of two calls and a file; an option doesn't go with them; or
    /// the word of `--most` isn't one or more digits.
    Witness,
}

impl From<Error> for Refusal {
    ghost use Rattle.std.specs.Prelude.{◌≡◌};
    ghost use Rattle.wire_command_line.specs.declared.request.Refusal.TheVariants.{Usage};

    ghost from_gives = { λ error r. r ≡ Usage error };

    fn from(error: Error) -> Refusal {
        Refusal::Usage(error)
    }
}

impl From<AllocError> for Refusal {
    ghost use Rattle.std.specs.Prelude.{◌≡◌};
    ghost use Rattle.clap.specs.Words.{kind_of};
    ghost use Rattle.clap.specs.declared.error.Error.{Error as ClapError};
    ghost use Rattle.clap.specs.declared.error.kind.ErrorKind.TheVariants.{OutOfMemory};
    ghost use Rattle.wire_command_line.specs.declared.request.Refusal.TheVariants.{Usage};

    ghost from_gives = { λ _ r. (e : ClapError) × (r ≡ Usage e) × (kind_of e ≡ OutOfMemory) };

    fn from(error: AllocError) -> Refusal {
        Refusal::Usage(Error::from(error))
    }
}
