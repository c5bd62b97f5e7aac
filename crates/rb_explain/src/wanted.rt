//! What is to be explained.
ghost use Rattle.std.specs.Prelude.{◌≡◌, ◌≤◌, ◌↔◌, ℕ, IsTrue, false};
ghost use Rattle.rb_explain.specs.Wanted.{has_client, has_turn};

/// How much is told of a client: of an unreachable goal up to so many steps, whether the known heights of the chain are, and whether the
/// fewest updates are where they have to be searched.
#[derive(Clone, Copy)]
pub struct Detail {
    pub most: usize,
    pub has_heights: bool,
    pub has_fewest: bool,
}

/// What is to be explained: one turn, by its number from 1, or each; one client, by its place, or each; and how much of it.
#[derive(Clone, Copy)]
pub struct Wanted {
    pub turn: Option<usize>,
    pub client: Option<usize>,
    pub detail: Detail,
}

impl Wanted {
    /// Whether a turn is wanted, by its number from 1.
    pub(crate) fn has_turn(&self, number: usize) -> bool
        ensures { result ≡ has_turn self.now number }
    {
        match self.turn {
            Some(turn) => turn == number,
            None => true,
        }
    }

    /// Whether a client is wanted in a turn, by its place and the turn's number.
    pub(crate) fn has_client(&self, number: usize, client: usize) -> bool
        ensures { result ≡ has_client self.now number client }
    {
        let is_among = match self.client {
            Some(wanted) => wanted == client,
            None => true,
        };
        self.has_turn(number) && is_among
    }

    /// Whether no turn from this number on is wanted.
    pub(crate) fn ends_before(&self, number: usize) -> bool
        ensures { IsTrue result ↔ ((later : ℕ) → number ≤ later → has_turn self.now later ≡ false) }
    {
        match self.turn {
            Some(turn) => turn < number,
            None => false,
        }
    }
}
