//! What the commands read: a pattern.

ghost use Rattle.std.specs.Prelude.{◌≡◌, ◌≢◌, Err, OnOk, IfOk, IfErr};
ghost use Rattle.wire_types.specs.Counting.{one_more};
ghost use Rattle.wire_types.specs.declared.Fault.TheVariants.{Memory, Read};
ghost use Rattle.wire_pattern.specs.Lawful.{IsSoundPattern};
ghost use Rattle.wire_pattern_commands.specs.Read.{HasNoPattern, ReadAsPattern};

use std::alloc::Global;
use wire_command::read_up_to;
use wire_pattern::Pattern;
use wire_pattern_script::read_pattern;
use wire_reader::Size;
use wire_types::{Fault, Source};

/// The pattern of a file that is read to its end, or to one byte more than it may have, by which it is seen to be too
/// long.
pub(crate) fn read_coming<R: Source>(alloc: Global, reader: &mut R) -> Result<Pattern, Fault>
    ensures ok { IfOk result (λ p. ReadAsPattern (R.coming reader.old) p) }
    ensures quiet { OnOk result (R.failures reader.new ≡ R.failures reader.old) }
    ensures err { IfErr result (λ e. HasNoPattern (R.coming reader.old) e) }
    ensures read { result ≡ Err Read → R.failures reader.new ≡ one_more (R.failures reader.old) }
    ensures unfailed { IfErr result (λ e. e ≢ Memory → e ≢ Read → R.failures reader.new ≡ R.failures reader.old) }
{
    let bytes = read_up_to(alloc, reader, Size::OfVersion.file_bytes() + 1)?;
    read_pattern(alloc, bytes.as_slice())
}

/// A pattern is sound.
pub(crate) fn note_sound(pattern: &Pattern)
    ensures { IsSoundPattern pattern.now }
{
    let _roles = pattern.roles();
}
