//! How large a file, an order, and what a file declares may be.

ghost use Rattle.std.specs.Prelude.{◌≡◌, ◌<◌, ◌^◌};
ghost use Rattle.wire_reader.specs.Limits as spec;

use wire_types::Version;

/// The bytes of a name of a node or a job, and of a key.
pub const NAME_BYTES: usize = 63;

/// The bytes of a value.
pub const VALUE_BYTES: usize = 255;

/// Which limits hold: those of the version that the header says, or large ones for any version.
#[derive(Clone, Copy)]
pub enum Size {
    OfVersion,
    Large,
}

impl Size {
    /// How many bytes a file may have.
    pub fn file_bytes(self) -> usize
        ensures { result ≡ spec.file_bytes self }
    {
        match self {
            Size::OfVersion => 4_194_304,
            Size::Large => 1_073_741_824,
        }
    }

    /// How many bytes an order may have.
    pub fn order_bytes(self) -> usize
        ensures { result ≡ spec.order_bytes self }
    {
        match self {
            Size::OfVersion => 8_388_608,
            Size::Large => 1_073_741_824,
        }
    }
}

/// How much a file may declare.
#[derive(Clone, Copy)]
pub struct Limits {
    pub nodes: u32,
    pub jobs: u32,
    pub processes: u32,
    /// The calls of all processes.
    pub calls: u32,
}

impl Limits {
    /// The limits of a file with a header of this version.
    pub fn of(size: Size, version: Version) -> Limits
        ensures those { result ≡ spec.limits_of size version }
        ensures few_nodes { result.nodes < 2 ^ 32 }
        ensures few_jobs { result.jobs < 2 ^ 32 }
        ensures few_processes { result.processes < 2 ^ 32 }
        ensures few_calls { result.calls < 2 ^ 32 }
    {
        match (size, version) {
            (Size::OfVersion, Version::One) => Limits {
                nodes: 64,
                jobs: 16,
                processes: 256,
                calls: 16_384,
            },
            (Size::OfVersion, Version::Two) => Limits {
                nodes: 64,
                jobs: 16,
                processes: 512,
                calls: 32_768,
            },
            (Size::Large, _) => Limits {
                nodes: 65_536,
                jobs: 256,
                processes: 1_048_576,
                calls: 33_554_432,
            },
        }
    }
}
