//! The law of sound patterns. It is the contract of a function that does nothing.

ghost use Rattle.wire_pattern.specs.Sound.{SoundIsLawful};

/// A sound pattern is lawful, as the laws of patterns want it.
pub fn sound_is_lawful()
    ensures { SoundIsLawful }
{}
