//! What is left of a fleet without the clients and the paths whose answers are refused, and the lines that tell of those.
ghost use Rattle.std.specs.Prelude.{◌≡◌, ◌<◌, ◌≤◌, ◌==◌, IfOk, OnOk, false, filter, get_or, is_some, string_bytes, true};
ghost use Rattle.std.specs.List.{AllZip, enumerate_from, items_where_true, list_any};
ghost use Rattle.rb_import_setup.specs.Rests.{client_stays};
ghost use Rattle.ibcplan_folders.specs.LeftOut.{clients_stay, import_status, object_count, paths_stay};
ghost use Rattle.ibcplan_folders.specs.Leavings.{IsFleetWithout, IsLeft, StaysTracked};

use ibcplan_cli::{ProgramError, status};
use rb_import_check::{Saved, SavedAnswers};
use rb_import_setup::{ImportSetup, Rest, rest_without};
use std::alloc::{AllocError, Global};

/// A setup, and the answers of its chains, its clients and its paths, each at its place.
#[derive(Drop)]
pub struct Fleet {
    pub setup: ImportSetup,
    pub answers: SavedAnswers,
}

/// The identifier of a chain, a client or a path whose answers are refused, and why they are.
#[derive(Drop)]
pub struct Failure<'a> {
    pub id: String,
    pub error: ProgramError<'a>,
}

/// Some failures, in their order.
#[derive(Drop)]
pub struct Failures<'a> {
    pub first: Failure<'a>,
    pub others: Vec<Failure<'a>>,
}

/// The first of the failures for which something is left out, if there is one, and lines that tell of all that is left out.
#[derive(Drop)]
pub struct LeftOut<'a> {
    first: Option<ProgramError<'a>>,
    lines: String,
}

impl<'a> LeftOut<'a> {
    /// Nothing is left out yet.
    pub fn nothing(alloc: Global) -> LeftOut<'a> {
        LeftOut {
            first: None,
            lines: String::new(alloc),
        }
    }

    /// The lines that tell what is left out.
    pub fn lines(&self) -> &str {
        self.lines.as_str()
    }

    /// The status of an import that leaves this out.
    pub fn status(&self) -> u8
        ensures { result ≡ import_status self.now }
    {
        if self.first.is_some() {
            status::PARTLY_LEFT_OUT
        } else {
            status::DONE
        }
    }

    /// The fleet without what goes with a failure. Where no client would be left, the first failure is that of the
    /// whole; and where nothing goes, this one is.
    pub fn without(
        &mut self,
        alloc: Global,
        fleet: Fleet,
        failure: Failure<'a>,
    ) -> Result<Fleet, ProgramError<'a>>
        ensures fewer { IfOk result (λ rest. object_count rest < object_count fleet) }
        ensures told { OnOk result (is_some self.new.first ≡ true) }
        ensures left { IfOk result (IsFleetWithout (string_bytes failure.entry.id) fleet) }
    {
        let count = object_count(&fleet);
        let Ok(rest) = rest_of(alloc, fleet, &failure, &mut self.lines) else {
            return Err(ProgramError::NoMemory);
        };
        let Failure { error, .. } = failure;
        if object_count(&rest) >= count {
            return Err(error);
        }
        let first = self.first.take().unwrap_or(error);
        if rest.setup.clients.is_empty() {
            return Err(first);
        }
        self.first = Some(first);
        Ok(rest)
    }

    /// The fleet without what goes with some failures. What goes with the first of two goes with the first alone.
    #[tactic(auto, using(crate::proofs::Leaving::once))]
    pub fn without_all(
        &mut self,
        alloc: Global,
        fleet: Fleet,
        failures: Failures<'a>,
    ) -> Result<Fleet, ProgramError<'a>>
        ensures fewer { IfOk result (λ rest. object_count rest < object_count fleet) }
        ensures told { OnOk result (is_some self.new.first ≡ true) }
        ensures left { IfOk result (IsLeft fleet) }
    {
        let Failures { first, others } = failures;
        let mut rest = self.without(alloc, fleet, first)?;
        for failure in others {
            rest = self.without_also(alloc, rest, failure)?;
        }
        Ok(rest)
    }

    /// The fleet without what goes with another failure, if something is left that does.
    fn without_also(
        &mut self,
        alloc: Global,
        fleet: Fleet,
        failure: Failure<'a>,
    ) -> Result<Fleet, ProgramError<'a>>
        ensures not_more { IfOk result (λ rest. object_count rest ≤ object_count fleet) }
        ensures told { OnOk result (self.new.first ≡ self.old.first) }
        ensures left { IfOk result (IsFleetWithout (string_bytes failure.entry.id) fleet) }
    {
        let Ok(rest) = rest_of(alloc, fleet, &failure, &mut self.lines) else {
            return Err(ProgramError::NoMemory);
        };
        if rest.setup.clients.is_empty() {
            return Err(self.first.take().unwrap_or(failure.error));
        }
        Ok(rest)
    }
}

/// How many clients and paths a fleet has.
fn object_count(fleet: &Fleet) -> usize
    ensures { result ≡ object_count fleet.now }
{
    fleet.setup.clients.len() + fleet.setup.paths.len()
}

/// The fleet without what goes with a failure, of which the lines then tell.
fn rest_of(
    alloc: Global,
    fleet: Fleet,
    failure: &Failure<'_>,
    lines: &mut String,
) -> Result<Fleet, AllocError>
    ensures not_more { IfOk result (λ rest. object_count rest ≤ object_count fleet) }
    ensures clients { IfOk result (λ rest. rest.setup.clients.items ≡ filter (client_stays fleet.setup.chains.items (string_bytes failure.now.id)) fleet.setup.clients.items) }
    ensures of_clients { IfOk result (λ rest. rest.answers.clients.items ≡ items_where_true (clients_stay fleet (string_bytes failure.now.id)) fleet.answers.clients.items) }
    ensures left { IfOk result (IsFleetWithout (string_bytes failure.now.id) fleet) }
    ensures of_paths { IfOk result (λ rest. rest.answers.paths.items ≡ items_where_true (paths_stay fleet (string_bytes failure.now.id)) fleet.answers.paths.items) }
{
    let Fleet { setup, answers } = fleet;
    let rest = rest_without(alloc, &setup, failure.id.as_str())?;
    tell(alloc, &setup, &rest, &failure.error, lines)?;
    let SavedAnswers {
        chains,
        clients,
        paths,
    } = answers;
    let answers = SavedAnswers {
        chains: tracked(alloc, chains, &rest.setup)?,
        clients: left(alloc, clients, rest.clients.as_slice())?,
        paths: left(alloc, paths, rest.paths.as_slice())?,
    };
    let Rest { setup, .. } = rest;
    Ok(Fleet { setup, answers })
}

/// Adds a line for each client and each path of a setup that isn't in the rest, with the reason.
fn tell(
    alloc: Global,
    setup: &ImportSetup,
    rest: &Rest,
    error: &ProgramError<'_>,
    lines: &mut String,
) -> Result<(), AllocError> {
    for (client, stays) in setup.clients.iter().zip(&rest.clients) {
        if !*stays {
            add_line(alloc, client.id.as_str(), error, lines)?;
        }
    }
    for (path, stays) in setup.paths.iter().zip(&rest.paths) {
        if !*stays {
            add_line(alloc, path.config.id.as_str(), error, lines)?;
        }
    }
    Ok(())
}

/// Adds the line that the client or the path of an identifier is left out, with the reason.
fn add_line(
    alloc: Global,
    id: &str,
    error: &ProgramError<'_>,
    lines: &mut String,
) -> Result<(), AllocError> {
    let line = format!(in alloc; "left out {id}: {error}\n")?;
    lines.push_str(line.as_str())
}

/// The answers of each chain, none of one that no client tracks.
fn tracked(
    alloc: Global,
    answers: Vec<Vec<Saved>>,
    setup: &ImportSetup,
) -> Result<Vec<Vec<Saved>>, AllocError>
    ensures { IfOk result (λ left. AllZip (StaysTracked setup.now.clients.items) (enumerate_from 0 answers.items) left.items) }
{
    let mut left = Vec::new(alloc);
    let mut place = 0;
    for saved in answers {
        let stays = is_tracked(setup, place);
        left.push(kept(alloc, saved, stays))?;
        place += 1;
    }
    Ok(left)
}

/// Answers that stay, else none.
fn kept(alloc: Global, saved: Vec<Saved>, stays: bool) -> Vec<Saved>
    ensures { stays ≡ true → result ≡ saved }
{
    if stays { saved } else { Vec::new(alloc) }
}

/// Whether a client tracks the chain at a place.
pub fn is_tracked(setup: &ImportSetup, chain: usize) -> bool
    ensures { result ≡ list_any (λ c. c.tracks == chain) setup.now.clients.items }
{
    setup.clients.iter().any(|client| client.tracks == chain)
}

/// The items at the places of those that stay.
#[tactic(auto, using(crate::proofs::Lefts::leaving))]
fn left<T: Drop>(alloc: Global, items: Vec<T>, stay: &[bool]) -> Result<Vec<T>, AllocError>
    ensures { IfOk result (λ left. left.items ≡ items_where_true stay.now items.items) }
{
    let mut left = Vec::new(alloc);
    let mut place = 0;
    for item in items {
        if stays_at(stay, place) {
            left.push(item)?;
        }
        place += 1;
    }
    Ok(left)
}

/// Whether what is at a place stays.
fn stays_at(stay: &[bool], place: usize) -> bool
    ensures { result ≡ get_or stay.now place false }
{
    stay.get(place).copied().unwrap_or(false)
}
