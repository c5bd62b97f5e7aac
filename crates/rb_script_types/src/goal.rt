//! What a client is to be brought to.
ghost use Rattle.std.specs.Prelude.{◌≡◌, ◌↔◌, IsTrue};
ghost use Rattle.rb_script_types.specs.Goal.{height_in, Wants};

use rb_base::Height;

/// The heights of which a client has to have one stored and live.
#[derive(Clone, Copy, PartialEq, Eq)]
pub enum Goal {
    /// This height.
    Exactly(Height),
    /// This height or any above it.
    AtLeast(Height),
}

impl Goal {
    /// The height that it names.
    pub fn height(self) -> Height
        ensures { result ≡ height_in self }
    {
        match self {
            Goal::Exactly(height) | Goal::AtLeast(height) => height,
        }
    }

    /// Whether the goal is met where this height is stored and live.
    pub fn wants(self, height: Height) -> bool
        ensures { IsTrue result ↔ Wants self height }
    {
        match self {
            Goal::Exactly(wanted) => height == wanted,
            Goal::AtLeast(least) => least <= height,
        }
    }
}
