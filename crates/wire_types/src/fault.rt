//! What can go wrong, by number.

ghost use Rattle.wire_types.specs.Counting.{one_more};
ghost use Rattle.wire_types.specs.Front.{WritesFront};
ghost use Rattle.std.specs.Prelude.{take, ◌≡◌, ℕ, ◌+◌, ◌<◌, ◌≤◌, ◌++◌, length, decimal, codes, Some, None, OnOk, OnErr};
ghost use Rattle.std.specs.Prelude.{IfErr, option_map};
ghost use Rattle.std.specs.Io.KnownBytes.{Appends, Keeps};
ghost use Rattle.wire_types.specs.Fault.{number_of, name_of, carried_by, exit_status, fault_line};

use crate::sink::{Sink, write_out};
use itoa::Buffer;
use std::alloc::AllocError;
use thiserror::Error;

/// A fault of a call. What it carries is a line, a count of bytes, a step or an argument.
#[derive(Clone, Copy, Debug, PartialEq, Eq, Error)]
pub enum Fault {
    #[error("out of memory")]
    Memory,
    #[error("line {0} is past a limit of length")]
    TooLong(u64),
    #[error("line {0} is not the header")]
    BadHeader(u64),
    #[error("line {0} is outside the grammar")]
    BadLine(u64),
    #[error("line {0} names what is not declared")]
    UnknownName(u64),
    #[error("line {0} declares a name again")]
    Twice(u64),
    #[error("line {0} is a fence without its caller")]
    NotMember(u64),
    #[error("line {0} is one too many")]
    TooMany(u64),
    #[error("the number of workers is not 1 to 64")]
    Workers,
    #[error("reading failed")]
    Read,
    #[error("writing failed after {0} bytes")]
    Write(u64),
    #[error("step {0} was not ready")]
    NotReady(u64),
    #[error("place {0} of the order is wrong")]
    BadOrder(u64),
}

impl From<AllocError> for Fault {
    ghost use Rattle.std.specs.Prelude.{◌≡◌};
    ghost use Rattle.wire_types.specs.declared.fault.Fault.TheVariants.{Memory};

    ghost from_gives = { λ _ f. f ≡ Memory };

    fn from(_error: AllocError) -> Fault {
        Fault::Memory
    }
}

/// Puts a text into the buffer, after the first bytes of it, and says where it ends.
fn put(buffer: &mut [u8], from: usize, text: &str) -> usize
    requires { from + length text.now ≤ length buffer.old }
    ensures end { result ≡ from + length text.now }
    ensures text { take result buffer.new ≡ take from buffer.old ++ text.now }
{
    let end = from + text.len();
    buffer[from..end].copy_from_slice(text.as_bytes());
    end
}

impl Fault {
    /// The number, from 1.
    pub fn number(self) -> u64
        ensures { result ≡ number_of self }
    {
        match self {
            Fault::Memory => 1,
            Fault::TooLong(_) => 2,
            Fault::BadHeader(_) => 3,
            Fault::BadLine(_) => 4,
            Fault::UnknownName(_) => 5,
            Fault::Twice(_) => 6,
            Fault::NotMember(_) => 7,
            Fault::TooMany(_) => 8,
            Fault::Workers => 9,
            Fault::Read => 10,
            Fault::Write(_) => 11,
            Fault::NotReady(_) => 12,
            Fault::BadOrder(_) => 13,
        }
    }

    /// The exit status of a program that ends by this fault: 3 for memory, 4 for reading and writing, 2 for
    /// all that is refused.
    pub fn status(self) -> u8
        ensures { result ≡ exit_status self }
    {
        match self {
            Fault::Memory => 3,
            Fault::Read | Fault::Write(_) => 4,
            _ => 2,
        }
    }

    /// The word of the fault in its line.
    fn name(self) -> &'static str
        ensures text { result.now ≡ name_of self }
        ensures short { length result.now ≤ 11 }
    {
        match self {
            Fault::Memory => "Memory",
            Fault::TooLong(_) => "TooLong",
            Fault::BadHeader(_) => "BadHeader",
            Fault::BadLine(_) => "BadLine",
            Fault::UnknownName(_) => "UnknownName",
            Fault::Twice(_) => "Twice",
            Fault::NotMember(_) => "NotMember",
            Fault::TooMany(_) => "TooMany",
            Fault::Workers => "Workers",
            Fault::Read => "Read",
            Fault::Write(_) => "Write",
            Fault::NotReady(_) => "NotReady",
            Fault::BadOrder(_) => "BadOrder",
        }
    }

    /// Writes the line of this fault. It takes no memory, and fails by `Fault::Write` alone, with the
    /// number of bytes that went out.
    pub fn write_line<S: Sink>(self, sink: &mut S) -> Result<(), Fault>
        ensures ok { OnOk result (Appends (S.written sink.old) (S.written sink.new) (fault_line self)) }
        ensures quiet { OnOk result (S.failures sink.new ≡ S.failures sink.old) }
        ensures err { IfErr result (λ e. WritesFront (S.written sink.old) (S.written sink.new) (fault_line self) e) }
        ensures failed { OnErr result (S.failures sink.new ≡ one_more (S.failures sink.old)) }
    {
        let mut line = [0u8; 128];
        let len = self.line(&mut line);
        write_out(sink, &line[..len]).map_err(Fault::Write)
    }

    /// Puts the line of this fault to the front of the buffer, and says how long it is.
    fn line(self, buffer: &mut [u8]) -> usize
        requires { length buffer.old ≡ 128 }
        ensures len { result ≤ 128 }
        ensures text { take result buffer.new ≡ fault_line self }
    {
        let mut digits = Buffer::new();
        let mut len = put(buffer, 0, "wire_up: fault ");
        len = put(buffer, len, digits.format(self.number()));
        len = put(buffer, len, " ");
        len = put(buffer, len, self.name());
        if let Some(n) = self.carried() {
            len = put(buffer, len, " ");
            len = put(buffer, len, digits.format(n));
        }
        put(buffer, len, "\n")
    }

    /// The number that the fault carries, if it carries one.
    fn carried(self) -> Option<u64>
        ensures { result ≡ carried_by self }
    {
        match self {
            Fault::Memory | Fault::Workers | Fault::Read => None,
            Fault::TooLong(n)
            | Fault::BadHeader(n)
            | Fault::BadLine(n)
            | Fault::UnknownName(n)
            | Fault::Twice(n)
            | Fault::NotMember(n)
            | Fault::TooMany(n)
            | Fault::Write(n)
            | Fault::NotReady(n)
            | Fault::BadOrder(n) => Some(n),
        }
    }
}
