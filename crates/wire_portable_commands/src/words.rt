//! The words of rules, and the names of libraries.

ghost use Rattle.std.specs.Prelude.{◌≡◌};
ghost use Rattle.wire_portable_commands.specs.Json.{names_json as the_json};
ghost use Rattle.wire_portable_commands.specs.Words as spec;

use wire_portable::{Libraries, Rule, Unportable};

/// The word of a rule.
pub(crate) fn rule_word(rule: Rule) -> &'static str
    ensures { result.now ≡ spec.rule_word rule }
{
    match rule {
        Rule::FarGet => "far-get",
        Rule::FarLocal => "far-local",
        Rule::FenceCollect => "fence-collect",
        Rule::FenceJobs => "fence-jobs",
        Rule::FenceRepeats => "fence-repeats",
        Rule::FenceSpelling => "fence-spelling",
        Rule::GetNow => "get-now",
        Rule::Mates => "mates",
        Rule::NearGet => "near-get",
        Rule::NearRemote => "near-remote",
        Rule::Published => "published",
        Rule::Reserved => "reserved",
        Rule::Rewrite => "rewrite",
        Rule::UnpublishAll => "unpublish-all",
        Rule::Unpublished => "unpublished",
    }
}

/// The names of the libraries of a set, with commas between them.
pub(crate) fn names_text(set: Libraries) -> &'static str
    ensures { result.now ≡ spec.names_text set }
{
    match (set.v4, set.v5, set.v7) {
        (false, false, false) => "",
        (false, false, true) => "7.0",
        (false, true, false) => "5.0",
        (false, true, true) => "5.0,7.0",
        (true, false, false) => "4.2",
        (true, false, true) => "4.2,7.0",
        (true, true, false) => "4.2,5.0",
        (true, true, true) => "4.2,5.0,7.0",
    }
}

/// These names, or `none` where the set is empty.
pub(crate) fn names_or_none(set: Libraries) -> &'static str
    ensures { result.now ≡ spec.names_or_none set }
{
    if set.is_empty() {
        "none"
    } else {
        names_text(set)
    }
}

/// The names of the libraries of a set, as a list of JSON.
pub(crate) fn names_json(set: Libraries) -> &'static str
    ensures { result.now ≡ the_json set }
{
    match (set.v4, set.v5, set.v7) {
        (false, false, false) => "[]",
        (false, false, true) => "[\"7.0\"]",
        (false, true, false) => "[\"5.0\"]",
        (false, true, true) => "[\"5.0\",\"7.0\"]",
        (true, false, false) => "[\"4.2\"]",
        (true, false, true) => "[\"4.2\",\"7.0\"]",
        (true, true, false) => "[\"4.2\",\"5.0\"]",
        (true, true, true) => "[\"4.2\",\"5.0\",\"7.0\"]",
    }
}

/// The libraries that some line has.
pub(crate) fn blamed_in(lines: &[Unportable]) -> Libraries
    ensures { result ≡ spec.blamed_in lines.now }
{
    let mut blamed = Libraries::none();
    for line in lines {
        blamed = blamed.or(line.libraries);
    }
    blamed
}

/// The libraries that no line has.
pub(crate) fn portable_in(lines: &[Unportable]) -> Libraries
    ensures { result ≡ spec.portable_in lines.now }
{
    let blamed = blamed_in(lines);
    Libraries {
        v4: !blamed.v4,
        v5: !blamed.v5,
        v7: !blamed.v7,
    }
}
