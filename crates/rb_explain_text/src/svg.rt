//! Shapes of SVG. Colours stand in one style, for white and for dark ground; what a shape means never hangs on its colour alone.
use std::alloc::AllocError;

/// Where a text stands beside its point.
#[derive(Clone, Copy, PartialEq, Eq)]
pub(crate) enum Anchor {
    Left,
    Middle,
    Right,
}

/// A rectangle by its left upper corner.
#[derive(Clone, Copy)]
pub(crate) struct Area {
    pub x: u64,
    pub y: u64,
    pub width: u64,
    pub height: u64,
}

impl Area {
    pub fn new(x: u64, y: u64, width: u64, height: u64) -> Area {
        Area {
            x,
            y,
            width,
            height,
        }
    }
}

/// An arc between two points of a line, with how far it rises above the line, or falls below it.
#[derive(Clone, Copy)]
pub(crate) struct Arc {
    pub from: u64,
    pub to: u64,
    pub line: u64,
    pub rise: u64,
    pub is_above: bool,
}

impl Arc {
    /// The middle between its ends.
    pub fn middle(&self) -> u64 {
        let half = self.from.abs_diff(self.to) / 2;
        self.from.min(self.to).saturating_add(half)
    }

    /// The height of its summit.
    pub fn summit(&self) -> u64 {
        self.at(self.rise)
    }

    /// The height that is so far from the line.
    fn at(&self, distance: u64) -> u64 {
        if self.is_above {
            self.line.saturating_sub(distance)
        } else {
            self.line.saturating_add(distance)
        }
    }
}

const STYLE: &str = "<style>
text{font-family:sans-serif;font-size:12px;fill:#1f2328;paint-order:stroke;stroke:#ffffff;stroke-width:4px;stroke-linejoin:round}
.ground{fill:#ffffff}.frame{fill:none;stroke:#8c959f}
.title{font-size:15px;font-weight:bold}.note{fill:#59636e}.band{stroke:none}
.line,.gap,.mark{stroke:#1f2328;stroke-width:1.5}.gap{stroke-dasharray:2 5}.mark{fill:#ffffff}.full{fill:#1f2328;stroke:#1f2328;stroke-width:1.5}
.arc,.refused,.other{fill:none}.arc{stroke:#0550ae;stroke-width:2.5}.refused{stroke:#b3261e;stroke-width:1.8;stroke-dasharray:7 5}.other{stroke:#6e7781;stroke-width:1.8}
.s0{fill:#9ec5fe}.s1{fill:#ffd8a8}.s2{fill:#b2f2bb}.s3{fill:#e5c4f5}.s4{fill:#ffe066}.s5{fill:#d0d7de}.several{fill:none;stroke:#8c959f;stroke-dasharray:3 3}
@media (prefers-color-scheme: dark){
text{fill:#e6edf3;stroke:#0d1117}.ground{fill:#0d1117}.frame{stroke:#484f58}.note{fill:#9198a1}
.line,.gap,.mark{stroke:#e6edf3}.mark{fill:#0d1117}.full{fill:#e6edf3;stroke:#e6edf3}
.arc{stroke:#79c0ff}.refused{stroke:#ff7b72}.other{stroke:#8b949e}
.s0{fill:#1f4b8e}.s1{fill:#7a4510}.s2{fill:#1f6b37}.s3{fill:#5e3a8c}.s4{fill:#6b5a00}.s5{fill:#484f58}
}
</style>
";

/// Adds the beginning of a picture: its size, its style and its ground.
pub(crate) fn push_beginning(
    text: &mut String,
    width: u64,
    height: u64,
    title: &str,
) -> Result<(), AllocError> {
    writeln!(
        text,
        "<svg xmlns=\"http://www.w3.org/2000/svg\" width=\"{width}\" height=\"{height}\" viewBox=\"0 0 {width} {height}\" role=\"img\">"
    )?;
    text.push_str("<title>")?;
    push_escaped(text, title)?;
    text.push_str("</title>\n")?;
    text.push_str(STYLE)?;
    writeln!(
        text,
        "<rect class=\"ground\" width=\"{width}\" height=\"{height}\"/>"
    )
}

/// Adds a text with `<`, `>` and `&` as XML has them.
pub(crate) fn push_escaped(text: &mut String, words: &str) -> Result<(), AllocError> {
    for character in words.chars() {
        match character {
            '<' => text.push_str("&lt;")?,
            '>' => text.push_str("&gt;")?,
            '&' => text.push_str("&amp;")?,
            character => text.push(character)?,
        }
    }
    Ok(())
}

/// Adds a text at a point.
pub(crate) fn push_label(
    text: &mut String,
    x: u64,
    y: u64,
    anchor: Anchor,
    class: &str,
    words: &str,
) -> Result<(), AllocError> {
    let anchor = match anchor {
        Anchor::Left => "start",
        Anchor::Middle => "middle",
        Anchor::Right => "end",
    };
    write!(
        text,
        "<text x=\"{x}\" y=\"{y}\" text-anchor=\"{anchor}\" class=\"{class}\">"
    )?;
    push_escaped(text, words)?;
    text.push_str("</text>\n")
}

/// Adds a note to the right of a point.
pub(crate) fn push_note(text: &mut String, x: u64, y: u64, words: &str) -> Result<(), AllocError> {
    push_label(text, x, y, Anchor::Left, "note", words)
}

pub(crate) fn push_box(text: &mut String, class: &str, area: Area) -> Result<(), AllocError> {
    let Area {
        x,
        y,
        width,
        height,
    } = area;
    writeln!(
        text,
        "<rect class=\"{class}\" x=\"{x}\" y=\"{y}\" width=\"{width}\" height=\"{height}\"/>"
    )
}

pub(crate) fn push_circle(text: &mut String, x: u64, y: u64) -> Result<(), AllocError> {
    writeln!(
        text,
        "<circle class=\"mark\" cx=\"{x}\" cy=\"{y}\" r=\"4\"/>"
    )
}

/// Adds a level line.
pub(crate) fn push_line(
    text: &mut String,
    class: &str,
    from: u64,
    to: u64,
    y: u64,
) -> Result<(), AllocError> {
    writeln!(text, "<path class=\"{class}\" d=\"M{from} {y}H{to}\"/>")
}

/// Adds an arc: a cubic curve whose summit is three quarters as far from the line as its two handles.
pub(crate) fn push_arc(text: &mut String, class: &str, arc: Arc) -> Result<(), AllocError> {
    let Arc {
        from,
        to,
        line,
        rise,
        ..
    } = arc;
    let handle = arc.at(rise.saturating_mul(4) / 3);
    writeln!(
        text,
        "<path class=\"{class}\" d=\"M{from} {line}C{from} {handle} {to} {handle} {to} {line}\"/>"
    )
}

/// Adds a triangle that points up to a point.
pub(crate) fn push_pointer(text: &mut String, x: u64, y: u64) -> Result<(), AllocError> {
    writeln!(text, "<path class=\"full\" d=\"M{x} {y}l5 9h-10z\"/>")
}
