//! The bytes of a text that take memory when it is parsed.
ghost use Rattle.std.specs.Prelude.{◌≡◌, ◌≤◌, length, drop, IsTrue};
ghost use Rattle.rb_script_toml.specs.Marks.{after, after_outside, after_line, after_lines, may_open, counted, marks, marks_from};

use memchr::memchr2;

/// The most marks of a text.
pub const MAX_MARKS: u128 = 7_200_000;

/// Where a byte of a text stands. A quote is that of a basic string or of a literal one.
#[derive(Clone, Copy)]
pub enum Place {
    /// Outside strings and comments.
    Outside,
    /// In a comment.
    Comment,
    /// At the quote that opens a string.
    Opened(u8),
    /// At a second quote right behind: of an empty string, or of one of many lines.
    Doubled(u8),
    /// In a string of one line.
    Line(u8),
    /// At a backslash in a string of one line.
    LineEscape,
    /// In a string of many lines, after so many quotes in a row.
    Lines(u8, u8),
    /// At a backslash in a string of many lines.
    LinesEscape,
    /// At the third quote that ends a string of many lines, or one right behind.
    Closed(u8),
}

fn after_outside(byte: u8) -> Place
    ensures { result ≡ after_outside byte }
{
    match byte {
        b'#' => Place::Comment,
        b'"' | b'\'' => Place::Opened(byte),
        _ => Place::Outside,
    }
}

fn after_line(quote: u8, byte: u8) -> Place
    ensures { result ≡ after_line quote byte }
{
    if byte == quote {
        Place::Outside
    } else if byte == b'\\' && quote == b'"' {
        Place::LineEscape
    } else {
        Place::Line(quote)
    }
}

fn after_lines(quote: u8, count: u8, byte: u8) -> Place
    ensures { result ≡ after_lines quote count byte }
{
    if byte == quote {
        if count < 2 {
            Place::Lines(quote, count + 1)
        } else {
            Place::Closed(quote)
        }
    } else if byte == b'\\' && quote == b'"' {
        Place::LinesEscape
    } else {
        Place::Lines(quote, 0)
    }
}

/// Where the byte behind one at `place` stands.
fn after(place: Place, byte: u8) -> Place
    ensures { result ≡ after place byte }
{
    match place {
        Place::Outside => after_outside(byte),
        Place::Comment if byte == b'\n' => Place::Outside,
        Place::Comment => Place::Comment,
        Place::Opened(quote) if byte == quote => Place::Doubled(quote),
        Place::Doubled(quote) if byte == quote => Place::Lines(quote, 0),
        Place::Closed(quote) if byte == quote => Place::Closed(quote),
        Place::Opened(quote) | Place::Line(quote) => after_line(quote, byte),
        Place::Doubled(_) | Place::Closed(_) => after_outside(byte),
        Place::LineEscape => Place::Line(b'"'),
        Place::Lines(quote, count) => after_lines(quote, count, byte),
        Place::LinesEscape => Place::Lines(b'"', 0),
    }
}

fn may_open(byte: u8) -> bool
    ensures { result ≡ may_open byte }
{
    byte == b'{' || byte == b'[' || byte == b'.'
}

/// The marks of a byte that stands at `place`.
fn counted(place: Place, byte: u8) -> u128
    ensures { result ≡ counted place byte }
{
    match place {
        Place::Outside if may_open(byte) => 8,
        Place::Outside if byte == b'=' => 1,
        _ => 0,
    }
}

/// Whether the byte behind one at `place` stands where that one does, and is no mark: most bytes of a text do.
fn is_plain(place: Place, byte: u8) -> bool
    ensures { IsTrue result → (after place byte ≡ place) × (counted place byte ≡ 0) }
{
    match place {
        Place::Outside => !matches!(byte, b'"' | b'#' | b'\'' | b'.' | b'=' | b'[' | b'{'),
        Place::Line(quote) => byte != quote && byte != b'\\',
        _ => false,
    }
}

/// How many bytes of a string of one line come before one that may end it, or that takes the next one along.
fn string_length(place: Place, bytes: &[u8]) -> usize
    ensures within { result ≤ length bytes.now }
    ensures none { marks_from place bytes.now ≡ marks_from place (drop result bytes.now) }
{
    match place {
        Place::Line(quote) => memchr2(quote, b'\\', bytes).unwrap_or(bytes.len()),
        _ => 0,
    }
}

/// The marks of a text, by which the memory that it takes is bounded: outside strings and comments `{`, `[` and `.` are
/// eight each, since each may open a table or an array, and `=` is one, since eight keys take as much as a table.
pub fn count_marks(bytes: &[u8]) -> u128
    ensures { result ≡ marks bytes.now }
{
    let mut place = Place::Outside;
    let mut count = 0;
    let mut at = 0;
    while at < bytes.len() {
        let byte = bytes[at];
        at += 1;
        if !is_plain(place, byte) {
            place = after(place, byte);
            count += counted(place, byte);
            at += string_length(place, &bytes[at..]);
        }
    }
    count
}
