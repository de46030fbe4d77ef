//! What holds of the usages, of the words that may be meant, and of what a rank is said to wait for.

ghost use Rattle.wire_explain.specs.Format.{ChoicesAreWords, LinesHaveUsages, UsagesAreLines};
ghost use Rattle.wire_explain.specs.Format.{PatternChoicesAreWords, PatternLinesHaveUsages, PatternUsagesAreLines};
ghost use Rattle.wire_explain.specs.Told.{AreReasons};

/// Each line of a plan has a usage, which begins with the first word of the line.
#[tactic(auto, using(crate::proofs::Usages::lines_have_usages))]
pub fn lines_have_usages()
    ensures { LinesHaveUsages }
{}

/// Each usage of a plan is that of a line of one, by its first word.
#[tactic(auto, using(crate::proofs::Words::usages_are_lines))]
pub fn usages_are_lines()
    ensures { UsagesAreLines }
{}

/// Each word that may be meant at a place of a plan's line is one that the format has there.
#[tactic(auto, using(crate::proofs::Words::choices_are_words))]
pub fn choices_are_words()
    ensures { ChoicesAreWords }
{}

/// Each line of a pattern has a usage, which begins with the first word of the line.
#[tactic(auto, using(crate::proofs::PatternUsages::lines_have_usages))]
pub fn pattern_lines_have_usages()
    ensures { PatternLinesHaveUsages }
{}

/// Each usage of a pattern is that of a line of one, by its first word.
#[tactic(auto, using(crate::proofs::PatternWords::usages_are_lines))]
pub fn pattern_usages_are_lines()
    ensures { PatternUsagesAreLines }
{}

/// Each word that may be meant at a place of a pattern's line is one that the format has there.
#[tactic(auto, using(crate::proofs::PatternWords::choices_are_words))]
pub fn pattern_choices_are_words()
    ensures { PatternChoicesAreWords }
{}

/// What a rank is said to wait for is why it isn't ready.
#[tactic(auto, using(crate::proofs::Reasons::reasons))]
pub fn waits_are_reasons()
    ensures { AreReasons }
{}
