//! The identifiers of chains, clients and paths, which are not one another's.
ghost use Rattle.std.specs.Prelude.{◌≡◌, SomeIff};
ghost use Rattle.rb_base.specs.Identifier.{IsIdentifier};

use crate::identifier::Identifier;
use std::fmt;
use std::marker::Model;

/// The identifier of a chain: 1 to 64 characters out of letters, digits and
/// `. _ + - # [ ] < >` (ICS 24 for the characters; own choice of the length).
#[derive(Clone, Copy, PartialEq, Eq, PartialOrd, Ord)]
pub struct ChainId {
    text: Identifier,
}

impl Model for ChainId {
    ghost use Rattle.std.specs.Prelude.{ℕ, List};

    ghost Value = { List ℕ };

    ghost view = { λ id. id.text };

    ghost inverse = { λ text. record { text = text } };
}

impl ChainId {
    /// The identifier of this text, where it is well formed.
    pub fn new(text: &str) -> Option<ChainId>
        ensures { SomeIff result (IsIdentifier text.now) text.now }
    {
        let text = Identifier::new(text)?;
        Some(ChainId { text })
    }

    /// The text.
    pub fn as_str(&self) -> &str
        ensures text { result.now ≡ self.now }
        ensures form { IsIdentifier self.now }
    {
        self.text.as_str()
    }
}

impl fmt::Display for ChainId {
    ghost use Rattle.std.specs.Prelude.{Some};

    ghost output = { λ id. Some id };

    fn fmt<W: fmt::Write>(&self, f: &mut fmt::Formatter<W>) -> fmt::Result {
        write!(f, "{}", self.as_str())
    }
}

/// The identifier of a client: 1 to 64 characters out of letters, digits and
/// `. _ + - # [ ] < >` (ICS 24 for the characters; own choice of the length).
#[derive(Clone, Copy, PartialEq, Eq, PartialOrd, Ord)]
pub struct ClientId {
    text: Identifier,
}

impl Model for ClientId {
    ghost use Rattle.std.specs.Prelude.{ℕ, List};

    ghost Value = { List ℕ };

    ghost view = { λ id. id.text };

    ghost inverse = { λ text. record { text = text } };
}

impl ClientId {
    /// The identifier of this text, where it is well formed.
    pub fn new(text: &str) -> Option<ClientId>
        ensures { SomeIff result (IsIdentifier text.now) text.now }
    {
        let text = Identifier::new(text)?;
        Some(ClientId { text })
    }

    /// The text.
    pub fn as_str(&self) -> &str
        ensures text { result.now ≡ self.now }
        ensures form { IsIdentifier self.now }
    {
        self.text.as_str()
    }
}

impl fmt::Display for ClientId {
    ghost use Rattle.std.specs.Prelude.{Some};

    ghost output = { λ id. Some id };

    fn fmt<W: fmt::Write>(&self, f: &mut fmt::Formatter<W>) -> fmt::Result {
        write!(f, "{}", self.as_str())
    }
}

/// The identifier of a path: 1 to 64 characters out of letters, digits and
/// `. _ + - # [ ] < >` (ICS 24 for the characters; own choice of the length).
#[derive(Clone, Copy, PartialEq, Eq, PartialOrd, Ord)]
pub struct PathId {
    text: Identifier,
}

impl Model for PathId {
    ghost use Rattle.std.specs.Prelude.{ℕ, List};

    ghost Value = { List ℕ };

    ghost view = { λ id. id.text };

    ghost inverse = { λ text. record { text = text } };
}

impl PathId {
    /// The identifier of this text, where it is well formed.
    pub fn new(text: &str) -> Option<PathId>
        ensures { SomeIff result (IsIdentifier text.now) text.now }
    {
        let text = Identifier::new(text)?;
        Some(PathId { text })
    }

    /// The text.
    pub fn as_str(&self) -> &str
        ensures text { result.now ≡ self.now }
        ensures form { IsIdentifier self.now }
    {
        self.text.as_str()
    }
}

impl fmt::Display for PathId {
    ghost use Rattle.std.specs.Prelude.{Some};

    ghost output = { λ id. Some id };

    fn fmt<W: fmt::Write>(&self, f: &mut fmt::Formatter<W>) -> fmt::Result {
        write!(f, "{}", self.as_str())
    }
}
