//! The lines of requests.
ghost use Rattle.std.specs.Prelude.{◌≡◌};
ghost use Rattle.std.specs.Fmt.{WritesOnOk};
ghost use Rattle.std.specs.Option.{option_copied};
ghost use Rattle.rb_want_requests.specs.Lines.{client_path, contents_of, ending_of, key_character, key_text, node_path, own_id, page_key};
ghost use Rattle.rb_want_requests.specs.Requests.{folder_of};

use crate::answered::PartKind;
use crate::content::{Content, Folders};
use crate::keys::next_key;
use crate::packet_lines::write_packet_path;
use crate::request::{Owner, Query, Request, folder_of};
use std::fmt;

/// How many consensus states are asked for on a page.
const STATES_A_PAGE: u64 = 1000;

/// The line of a request: the chain, the path, and the file for the answer.
#[derive(Clone, Copy)]
pub struct RequestLine<'a> {
    pub folders: &'a Folders,
    pub request: &'a Request,
}

impl fmt::Display for RequestLine<'_> {
    ghost use Rattle.std.specs.Prelude.{Some};
    ghost use Rattle.rb_want_requests.specs.Lines.{request_line};

    ghost output = { λ line. Some (request_line line.folders.now line.request.now) };

    fn fmt<W: fmt::Write>(&self, f: &mut fmt::Formatter<W>) -> fmt::Result {
        let chain = self.request.chain.as_str();
        write!(f, "get {chain} ")?;
        let query = &self.request.query;
        let ending = ending_of(query);
        match &self.request.owner {
            Owner::Chain(_) => {
                write_path(f, query)?;
                write!(f, " {chain}/{query}{ending}")
            }
            Owner::Client { id, .. } => {
                write_client_path(f, query, own_id(chain, id.as_str()))?;
                write_key(f, self.key())?;
                write!(f, " {id}/{query}{ending}")
            }
            Owner::Path { id, end, .. } => {
                write_packet_path(f, query, end, self.contents())?;
                write_key(f, self.key())?;
                write!(f, " {id}/{query}{ending}")
            }
        }
    }
}

impl<'a> RequestLine<'a> {
    /// The key that the page begins with, but for the first.
    fn key(&self) -> Option<&'a str>
        ensures { option_copied result ≡ page_key self.now.request.now.query (contents_of (folder_of self.now.folders.now self.now.request.now.owner)) }
    {
        match self.request.query {
            Query::ConsensusStates { page } => {
                next_key(self.contents(), &PartKind::ConsensusStates, page)
            }
            Query::Commitments { page } => next_key(self.contents(), &PartKind::Commitments, page),
            _ => None,
        }
    }

    /// The contents of the folder for the answer.
    fn contents(&self) -> &'a [Content]
        ensures { result.now ≡ contents_of (folder_of self.now.folders.now self.now.request.now.owner) }
    {
        match folder_of(self.folders, &self.request.owner) {
            Some(folder) => folder.contents.as_slice(),
            None => &[],
        }
    }
}

/// The ending of the file of an answer: `import` reads those that end in `.json`, and no answer to `/status`.
fn ending_of(query: &Query) -> &'static str
    ensures { result.now ≡ ending_of query.now }
{
    match query {
        Query::Status => "",
        _ => ".json",
    }
}

/// Writes the path of a request to a node.
fn write_path<W: fmt::Write>(f: &mut fmt::Formatter<W>, query: &Query) -> fmt::Result
    ensures { WritesOnOk W.write_str_gives f.old result (node_path query.now) f.new }
{
    match query {
        Query::Status => f.write_str("/status"),
        Query::Commit(height) => write!(f, "/commit?height={height}"),
        Query::Validators { height, page, size } => {
            write!(f, "/validators?height={height}&per_page={size}&page={page}")
        }
        _ => Ok(()),
    }
}

/// Writes the path of a request to a gateway, on the client of this identifier.
fn write_client_path<W: fmt::Write>(
    f: &mut fmt::Formatter<W>,
    query: &Query,
    client: &str,
) -> fmt::Result
    ensures { WritesOnOk W.write_str_gives f.old result (client_path query.now client.now) f.new }
{
    match query {
        Query::ClientState => write!(f, "/ibc/core/client/v1/client_states/{client}"),
        _ => write!(
            f,
            "/ibc/core/client/v1/consensus_states/{client}?pagination.limit={STATES_A_PAGE}"
        ),
    }
}

/// Writes the key that a page begins with, in which characters of base64 that mean something in a URL stand as their
/// numbers (RFC 3986).
fn write_key<W: fmt::Write>(f: &mut fmt::Formatter<W>, key: Option<&str>) -> fmt::Result
    ensures { WritesOnOk W.write_str_gives f.old result (key_text (option_copied key.entry)) f.new }
{
    let Some(key) = key else {
        return Ok(());
    };
    f.write_str("&pagination.key=")?;
    for character in key.as_bytes() {
        write_key_character(f, *character)?;
    }
    Ok(())
}

/// Writes a character of a key.
#[tactic(auto, unfolding(crate::specs::Lines::key_character))]
fn write_key_character<W: fmt::Write>(f: &mut fmt::Formatter<W>, character: u8) -> fmt::Result
    ensures { WritesOnOk W.write_str_gives f.old result (key_character character) f.new }
{
    match character {
        b'+' => f.write_str("%2B"),
        b'/' => f.write_str("%2F"),
        b'=' => f.write_str("%3D"),
        b'a'..=b'z' | b'A'..=b'Z' | b'0'..=b'9' | b'-' | b'_' => {
            f.write_char(char::from(character))
        }
        _ => Ok(()),
    }
}

/// What follows `HOST.` in a client's identifier where it begins with that and more, else the whole.
pub fn own_id<'a>(host: &str, id: &'a str) -> &'a str
    ensures { result.now ≡ own_id host.now id.entry.now }
{
    let Some(rest) = id.strip_prefix(host) else {
        return id;
    };
    match rest.strip_prefix('.') {
        Some(own) if !own.is_empty() => own,
        _ => id,
    }
}
