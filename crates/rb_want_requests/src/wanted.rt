//! Requests, each once and at most 30 for each address at a time, and their reasons.
ghost use Rattle.std.specs.Prelude.{◌≡◌, ◌<◌, ◌≤◌, ◌++◌, ◌∷◌, [], All, count_by, if◌then◌else◌, false, true, IfOk, OnErr, OnOk};
ghost use Rattle.std.specs.List.{list_any};
ghost use Rattle.rb_want_requests.specs.Ends.{AreDistinctEnds, is_same_end, with_end};
ghost use Rattle.rb_want_requests.specs.Requests.{AreDistinct, AreFew, is_new, is_same, is_to_same, may_be_added};

use crate::content::Folders;
use crate::lines::RequestLine;
use crate::reason::{End, PathEnd, SearchReason};
use crate::request::Request;
use std::alloc::{AllocError, Global};
use std::fmt;

/// The most requests that are named at once for one address: the node or the gateway of a chain. So one that doesn't answer
/// keeps no request from the others.
pub const MOST_REQUESTS: usize = 30;

/// The next requests: at most 30 for each address, each once, none with an answer and none that was refused. Then the reasons,
/// by client. Then the clients and paths for which no more is asked though they aren't where they should be, of
/// a path each chain once.
#[derive(Drop)]
pub struct NextRequests<'a> {
    pub folders: &'a Folders,
    pub requests: Vec<Request>,
    pub reasons: Vec<SearchReason>,
    pub ends: Vec<End>,
    pub path_ends: Vec<PathEnd>,
    ghost few: { AreFew requests.items },
    ghost distinct: { AreDistinct requests.items },
    ghost unanswered: { All (λ r. is_new folders.now r ≡ true) requests.items },
    ghost told_once: { AreDistinctEnds path_ends.items },
}

/// Shown as a line for each request, and after them a line for each reason.
impl fmt::Display for NextRequests<'_> {
    ghost use Rattle.std.specs.Prelude.{Some};
    ghost use Rattle.rb_want_requests.specs.Lines.{wanted_text};

    ghost output = { λ wanted. Some (wanted_text wanted.folders.now wanted.requests.items wanted.reasons.items) };

    fn fmt<W: fmt::Write>(&self, f: &mut fmt::Formatter<W>) -> fmt::Result {
        let folders = self.folders;
        for request in &self.requests {
            writeln!(f, "{}", RequestLine { folders, request })?;
        }
        for why in &self.reasons {
            writeln!(f, "{why}")?;
        }
        Ok(())
    }
}

impl<'a> NextRequests<'a> {
    /// No request, over these folders.
    pub fn nothing(alloc: Global, folders: &'a Folders) -> NextRequests<'a>
        ensures folders { result.folders.now ≡ folders.entry.now }
        ensures requests { result.requests.items ≡ [] }
        ensures reasons { result.reasons.items ≡ [] }
        ensures ends { result.ends.items ≡ [] }
        ensures path_ends { result.path_ends.items ≡ [] }
    {
        NextRequests {
            folders,
            requests: Vec::new(alloc),
            reasons: Vec::new(alloc),
            ends: Vec::new(alloc),
            path_ends: Vec::new(alloc),
        }
    }

    /// Adds a request, unless it is answered, was refused or is there already, or there are as many for its address as are
    /// named at once.
    /// `AllocError` comes where a growth is refused.
    #[tactic(auto, using(crate::proofs::Distinct::adding))]
    pub fn ask(&mut self, alloc: Global, request: &Request) -> Result<(), AllocError>
        ensures asked { OnOk result (self.new.requests.items
            ≡ (if may_be_added self.old.folders.now self.old.requests.items request.now then self.old.requests.items ++ request.now ∷ [] else self.old.requests.items)) }
        ensures unchanged { OnErr result (self.new.requests.items ≡ self.old.requests.items) }
        ensures folders { self.new.folders ≡ self.old.folders }
        ensures reasons { self.new.reasons ≡ self.old.reasons }
        ensures ends { self.new.ends ≡ self.old.ends }
        ensures path_ends { self.new.path_ends ≡ self.old.path_ends }
    {
        if self.takes(alloc, request)? {
            let Request {
                chain,
                owner,
                query,
            } = *request;
            self.requests.push(Request {
                chain,
                owner,
                query,
            })?;
        }
        Ok(())
    }

    /// Adds why no more is asked for a path, behind the others, unless it is there already. `AllocError` comes where a growth
    /// is refused.
    #[tactic(auto, using(crate::proofs::Distinct::adding_end))]
    pub fn end_path(&mut self, end: PathEnd) -> Result<(), AllocError>
        ensures ended { OnOk result (self.new.path_ends.items ≡ with_end self.old.path_ends.items end) }
        ensures unchanged { OnErr result (self.new.path_ends.items ≡ self.old.path_ends.items) }
        ensures folders { self.new.folders ≡ self.old.folders }
        ensures requests { self.new.requests ≡ self.old.requests }
        ensures reasons { self.new.reasons ≡ self.old.reasons }
        ensures ends { self.new.ends ≡ self.old.ends }
    {
        if !is_told(self.path_ends.as_slice(), &end) {
            self.path_ends.push(end)?;
        }
        Ok(())
    }

    /// Whether a request may be added.
    fn takes(&self, alloc: Global, request: &Request) -> Result<bool, AllocError>
        ensures value { IfOk result (λ answer. answer ≡ may_be_added self.now.folders.now self.now.requests.items request.now) }
        ensures few { IfOk result (λ answer. answer ≡ true → count_by (is_to_same request.now) self.now.requests.items < 30) }
        ensures distinct { IfOk result (λ answer. answer ≡ true → list_any (is_same request.now) self.now.requests.items ≡ false) }
        ensures unanswered { IfOk result (λ answer. answer ≡ true → is_new self.now.folders.now request.now ≡ true) }
    {
        let requests = self.requests.as_slice();
        if count_to_same(requests, request) >= MOST_REQUESTS || is_among(requests, request) {
            return Ok(false);
        }
        request.is_new(alloc, self.folders)
    }
}

/// How many of these go to the address of a request.
fn count_to_same(requests: &[Request], request: &Request) -> usize
    ensures { result ≡ count_by (is_to_same request.now) requests.now }
{
    requests
        .iter()
        .filter(|other| request.is_to_same(other))
        .count()
}

/// Whether a request is among others.
fn is_among(requests: &[Request], request: &Request) -> bool
    ensures { result ≡ list_any (is_same request.now) requests.now }
{
    requests.iter().any(|other| request.is_same(other))
}

/// Whether an end of a path is among others.
fn is_told(ends: &[PathEnd], end: &PathEnd) -> bool
    ensures { result ≡ list_any (is_same_end end.now) ends.now }
{
    ends.iter().any(|other| end.is_same(other))
}
