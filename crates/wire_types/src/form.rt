//! The forms in which an answer is written.

ghost use Rattle.std.specs.Prelude.{◌≡◌};
ghost use Rattle.wire_types.specs.Forms as spec;

/// The form in which a command writes its answer.
#[derive(Clone, Copy)]
pub enum OutputFormat {
    /// Lines of text.
    Lines,
    /// Lines of text that tell where each call stands: the name of its file, and its line there.
    Places,
    /// JSON.
    Json,
    /// JSON that tells the line of each call.
    PlacedJson,
}

impl OutputFormat {
    /// Whether the answer is JSON.
    pub fn is_json(self) -> bool
        ensures { result ≡ spec.is_json self }
    {
        match self {
            OutputFormat::Json | OutputFormat::PlacedJson => true,
            OutputFormat::Lines | OutputFormat::Places => false,
        }
    }

    /// Whether the answer tells where calls stand.
    pub fn has_places(self) -> bool
        ensures { result ≡ spec.has_places self }
    {
        match self {
            OutputFormat::Places | OutputFormat::PlacedJson => true,
            OutputFormat::Lines | OutputFormat::Json => false,
        }
    }
}

/// What an answer tells of the two runs that show a race.
#[derive(Clone, Copy)]
pub enum Orders {
    /// How they differ, and the orders of both.
    Both,
    /// The order of the run in which the first call comes first, alone, as `follow` takes it.
    OfFirst,
    /// The order of the run in which the second call comes first, alone, as `follow` takes it.
    OfSecond,
}
