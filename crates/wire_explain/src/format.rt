//! The lines of the formats, by their first words.

ghost use Rattle.std.specs.Prelude.{◌≡◌, map, option_map, OnOk, IfOk};
ghost use Rattle.wire_types.specs.Texts.{texts_of};
ghost use Rattle.wire_explain.specs.Format as spec;

use crate::language::Language;
use std::alloc::{AllocError, Global};

/// The first words of a plan, each with how its line is written and where it stands.
static PLAN_USAGES: [(&str, &str); 14] = [
    (
        "rehearsal",
        "'rehearsal 1' or 'rehearsal 2', once, before all other lines",
    ),
    ("keep", "'keep' alone, once, right after 'rehearsal 2'"),
    (
        "node",
        "'node NAME', before the first job; a name is without ':', ',', '#' and '*'",
    ),
    ("job", "'job NAME'; a name is without ':', ',', '#' and '*'"),
    (
        "rank",
        "'rank NODE', below a 'job' line; a name is without ':', ',', '#' and '*'",
    ),
    (
        "put",
        "'put SCOPE KEY VALUE', below a 'rank' line; SCOPE is local, remote or global, KEY isn't '*'",
    ),
    ("commit", "'commit' alone, below a 'rank' line"),
    (
        "fence",
        "'fence all' or 'fence ITEM,ITEM,..', then nothing or 'collect', below a 'rank' line; ITEM is JOB:RANK or \
         JOB:*, RANK as for 'get'",
    ),
    (
        "get",
        "'get JOB:RANK KEY', below a 'rank' line; RANK is 0, or up to nine digits that don't begin with 0; KEY \
         isn't '*'",
    ),
    (
        "get-now",
        "'get-now JOB:RANK KEY', below a 'rank' line; RANK is 0, or up to nine digits that don't begin with 0; KEY \
         isn't '*'",
    ),
    (
        "publish",
        "'publish NAME VALUE', below a 'rank' line; NAME isn't '*'",
    ),
    (
        "lookup",
        "'lookup NAME', below a 'rank' line; NAME isn't '*'",
    ),
    (
        "lookup-wait",
        "'lookup-wait NAME', below a 'rank' line; NAME isn't '*'",
    ),
    (
        "unpublish",
        "'unpublish NAME', or 'unpublish *' in version 2, below a 'rank' line",
    ),
];

/// Those of a pattern.
static PATTERN_USAGES: [(&str, &str); 16] = [
    ("pattern", "'pattern 1', once, before all other lines"),
    ("keep", "'keep' alone, once, right after 'pattern 1'"),
    (
        "job",
        "'job NAME', outside of loops; a name is without ':', ',', '#', '*', '[' and ']'",
    ),
    (
        "one",
        "'one NAME', below a 'job' line and outside of loops; NAME as for 'job', but not self, each, all, some or \
         cyclic",
    ),
    (
        "many",
        "'many NAME' or 'many NAME min N', below a 'job' line and outside of loops; NAME as for 'one', N is 1 to 9",
    ),
    (
        "put",
        "'put SCOPE KEY VALUE', below a role; SCOPE is local, remote or global; KEY isn't '*', and only an index \
         such as [self] has brackets; in a loop it has an index with each",
    ),
    (
        "commit",
        "'commit' alone, below a role; in a loop only where no put waits for a commit before the loop, nor at the \
         end of a turn",
    ),
    (
        "fence",
        "'fence all' or 'fence ITEM,ITEM,..', then nothing or 'collect', below a role, not in 'for some'; ITEM is \
         a role, JOB:*, self or each; in a loop one is each, and none has the loop's whole role",
    ),
    (
        "get",
        "'get RANK KEY', below a role; RANK is a role of one rank, self or, in a loop, each; KEY as for 'put'; in \
         a loop one of them names each",
    ),
    (
        "get-now",
        "'get-now RANK KEY', below a role; RANK is a role of one rank, self or, in a loop, each; KEY as for 'put'; \
         in a loop one of them names each",
    ),
    (
        "publish",
        "'publish NAME VALUE', below a role, not in 'for some'; NAME as KEY of 'put'",
    ),
    (
        "lookup",
        "'lookup NAME', below a role; NAME as KEY of 'put'",
    ),
    (
        "lookup-wait",
        "'lookup-wait NAME', below a role; NAME as KEY of 'put'",
    ),
    (
        "unpublish",
        "'unpublish NAME', not in 'for some', or outside of loops 'unpublish *', below a role; NAME as KEY of 'put'",
    ),
    (
        "for",
        "'for ROLES', 'for ROLE cyclic' or 'for some ROLES', below a role and outside of loops; ROLES is one role \
         or more, at most 8, with commas between them",
    ),
    ("end", "'end' alone, below the lines of a loop"),
];

/// The table of a language.
fn usages(language: Language) -> &'static [(&'static str, &'static str)]
    ensures { map (λ u. (u.0.now, u.1.now)) result.now ≡ spec.usages language }
{
    match language {
        Language::Plan => &PLAN_USAGES,
        Language::Pattern => &PATTERN_USAGES,
    }
}

/// How the line of a first word is written, in a table.
fn find_usage(word: &[u8], table: &[(&'static str, &'static str)]) -> Option<&'static str>
    ensures { option_map (λ u. u.now) result ≡ spec.usage_in (map (λ u. (u.0.now, u.1.now)) table.now) word.now }
{
    for usage in table {
        if usage.0.as_bytes() == word {
            return Some(usage.1);
        }
    }
    None
}

/// How the line of a first word is written.
pub(crate) fn usage_of(language: Language, word: &[u8]) -> Option<&'static str>
    ensures { option_map (λ u. u.now) result ≡ spec.usage_of language word.now }
{
    find_usage(word, usages(language))
}

/// The first words of a table.
fn first_words(
    alloc: Global,
    table: &[(&'static str, &'static str)],
) -> Result<Vec<&'static [u8]>, AllocError>
    ensures { IfOk result (λ words. texts_of words.items ≡ map (λ u. u.0.now) table.now) }
{
    let mut words = Vec::new(alloc);
    for usage in table {
        words.push(usage.0.as_bytes())?;
    }
    Ok(words)
}

/// The first words of a language.
pub(crate) fn format_words(
    alloc: Global,
    language: Language,
) -> Result<Vec<&'static [u8]>, AllocError>
    ensures { IfOk result (λ words. texts_of words.items ≡ spec.format_words language) }
{
    first_words(alloc, usages(language))
}
