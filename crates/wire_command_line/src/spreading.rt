//! How `expand` is to put ranks on nodes, as its options say it.

ghost use Rattle.std.specs.Prelude.{◌≡◌, codes, option_map};
ghost use Rattle.std.specs.Int.NonZero.{non_zero_u32_get};
ghost use Rattle.clap.specs.Words.{found_of, rows_of};
ghost use Rattle.wire_command_line.specs.Spreads as spec;
ghost use Rattle.wire_command_line.specs.Spreads.{SoManyEach, number_given, spread_by};

use crate::matching::{find_word, has_word, is_same};
use crate::number::nonzero_of;
use crate::request::Spread;
use clap::ArgMatches;
use std::num::NonZeroU32;

/// The number of an option, where it was given and its word says one that isn't 0.
fn find_number(found: &ArgMatches<'_>, name: &str) -> Option<NonZeroU32>
    ensures { option_map non_zero_u32_get result ≡ number_given name.now (rows_of (found_of found.now)) }
{
    let Some(word) = find_word(found, name) else {
        return None;
    };
    nonzero_of(word)
}

/// So many ranks on each node, where the number is said.
fn read_per_node(found: &ArgMatches<'_>) -> Option<Spread>
    ensures { option_map spread_by result ≡ option_map SoManyEach (number_given (codes "per-node") (rows_of (found_of found.now))) }
{
    let Some(each) = find_number(found, "per-node") else {
        return None;
    };
    Some(Spread::PerNode(each))
}

/// Whether the word of `--by` is `node`.
fn is_by_node(found: &ArgMatches<'_>) -> bool
    ensures { result ≡ spec.is_by_node (rows_of (found_of found.now)) }
{
    match find_word(found, "by") {
        Some(word) => is_same(word, "node"),
        None => false,
    }
}

/// In turn on so many nodes, where that way is named, and the number said.
fn read_by_node(found: &ArgMatches<'_>) -> Option<Spread>
    ensures { option_map spread_by result ≡ spec.by_node_said (rows_of (found_of found.now)) }
{
    if !is_by_node(found) {
        return None;
    }
    let Some(nodes) = find_number(found, "nodes") else {
        return None;
    };
    Some(Spread::ByNode(nodes))
}

/// Whether ranks are to be put on nodes in turn.
fn has_turns(found: &ArgMatches<'_>) -> bool
    ensures { result ≡ spec.has_turns (rows_of (found_of found.now)) }
{
    has_word(found, "by") || has_word(found, "nodes")
}

/// How ranks are to be put on nodes, where the options go together and say it.
pub(crate) fn read_spread(found: &ArgMatches<'_>) -> Option<Spread>
    ensures { option_map spread_by result ≡ spec.spread_said (rows_of (found_of found.now)) }
{
    if has_word(found, "per-node") {
        if has_turns(found) {
            return None;
        }
        return read_per_node(found);
    }
    if has_turns(found) {
        return read_by_node(found);
    }
    Some(Spread::Apart)
}
