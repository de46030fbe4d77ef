//! An instance of which the front of the text is wanted.

ghost use Rattle.std.specs.Prelude.{◌<◌, ◌↔◌, IsTrue, length};

use crate::frame::Frame;

/// An instance, and how many bytes of its text are wanted. What is past them need not be written.
#[derive(Drop)]
pub(crate) struct Excerpt<'a> {
    pub(crate) frame: Frame<'a>,
    pub(crate) wanted: usize,
}

impl Excerpt<'_> {
    /// Whether a text has more bytes than are wanted, so that nothing need be written behind it.
    pub(crate) fn is_past(&self, text: &Vec<u8>) -> bool
        ensures { IsTrue result ↔ (self.now.wanted < length text.now.items) }
    {
        text.len() > self.wanted
    }
}
