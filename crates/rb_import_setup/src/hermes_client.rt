//! The clients that a setup is made for.
ghost use Rattle.std.specs.Prelude.{◌≡◌, ◌≢◌, ℕ, List, ◌++◌, ◌∷◌, All, IfNone, IfOk, IfSome, IsSomeAnd, string_bytes};
ghost use Rattle.rb_base.specs.Identifier.{IsIdentifierByte};
ghost use Rattle.rb_import_setup.specs.HermesClients.{Names, setup_id, word_of};
ghost use Rattle.rb_import_setup.specs.declared.hermes_client.NamedClient.{NamedClient};

use rb_base::{ChainId, ClientId};
use std::alloc::{AllocError, Global};
use std::fmt;

/// A client as it is named: its host, its identifier there, and the chain that it tracks.
#[derive(Clone, Copy)]
pub struct NamedClient {
    pub host: ChainId,
    pub id: ClientId,
    pub chain: ChainId,
}

/// As it is named.
impl fmt::Display for NamedClient {
    ghost use Rattle.std.specs.Prelude.{Some};
    ghost use Rattle.rb_import_setup.specs.HermesClients.{word_of};

    ghost output = { λ client. Some (word_of client) };

    fn fmt<W: fmt::Write>(&self, f: &mut fmt::Formatter<W>) -> fmt::Result {
        let NamedClient { host, id, chain } = *self;
        write!(f, "{host}:{id}:{chain}")
    }
}

impl fmt::Debug for NamedClient {
    fn fmt<W: fmt::Write>(&self, f: &mut fmt::Formatter<W>) -> fmt::Result {
        fmt::Display::fmt(self, f)
    }
}

impl NamedClient {
    /// The client that a word `HOST:ID:CHAIN` names; none where the word isn't of that form, or both chains are one.
    pub fn of_word(word: &str) -> Option<NamedClient>
        ensures word { IfSome result (λ client. word.now ≡ word_of client) }
        ensures chains { IfSome result (λ client. client.host ≢ client.chain) }
        ensures none { IfNone result ((client : NamedClient) → ¬ Names word.now client) }
    {
        let (host, rest) = split_at_colon(word)?;
        let (id, chain) = split_at_colon(rest)?;
        if host == chain {
            return None;
        }
        Some(NamedClient {
            host: ChainId::new(host)?,
            id: ClientId::new(id)?,
            chain: ChainId::new(chain)?,
        })
    }

    /// The identifier in a setup, `HOST.ID`, which may be too long for one.
    pub(crate) fn setup_id(&self, alloc: Global) -> Result<String, AllocError>
        ensures { IfOk result (λ text. string_bytes text ≡ setup_id self.now) }
    {
        let host = self.host.as_str();
        let id = self.id.as_str();
        format!(in alloc; "{host}.{id}")
    }
}

/// What stands before the first colon of a word, and what stands behind it, where there is one.
fn split_at_colon(word: &str) -> Option<(&str, &str)>
    ensures parts { IfSome result (λ parts. word.now ≡ parts.0.now ++ 58 ∷ parts.1.now) }
    ensures first { (front rest : List ℕ) → word.now ≡ front ++ 58 ∷ rest → All IsIdentifierByte front
        → IsSomeAnd result (λ parts. (parts.0.now ≡ front) × (parts.1.now ≡ rest)) }
{
    word.split_once(':')
}
