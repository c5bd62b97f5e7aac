//! Texts that are written as they come.
use rb_base::{Sink, write_whole};

/// A text of so many bytes is written before more is added.
const LONG: usize = 65_536;

/// Writes a text and empties it, unless the writer has failed; answers whether it was taken whole.
pub fn put<W: Sink>(text: &mut String, writer: &mut W) -> bool {
    let is_taken = !writer.failed() && write_whole(writer, text.as_bytes()).is_ok();
    text.clear();
    is_taken
}

/// Does so with a long text.
pub(crate) fn put_long<W: Sink>(text: &mut String, writer: &mut W) {
    if text.len() >= LONG {
        put(text, writer);
    }
}
