//! How a command ends.

ghost use Rattle.std.specs.Prelude.{List, length, ◌≡◌};
ghost use Rattle.wire_findings.specs.declared.finding.Finding.{Finding as Told};
ghost use Rattle.wire_command.specs.Ending as spec;

/// How a command ended: without findings, or with so many. `witness` finds the races that it shows.
#[derive(Clone, Copy, Debug, PartialEq, Eq)]
pub enum Ended {
    Clean,
    Found(u64),
}

impl Ended {
    /// The exit status: 0 without findings, 1 with findings.
    pub fn status(self) -> u8
        ensures { result ≡ spec.status_of self }
    {
        match self {
            Ended::Clean => 0,
            Ended::Found(_) => 1,
        }
    }

    /// How a command ends that has so many findings.
    pub fn of_count(count: usize) -> Ended
        ensures counted { result ≡ spec.ended_of count }
        ensures found { (findings : List Told) → count ≡ length findings → result ≡ spec.ended_with findings }
    {
        match count {
            0 => Ended::Clean,
            count => Ended::Found(count as u64),
        }
    }
}
