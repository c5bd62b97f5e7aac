//! The next requests for a setup.
ghost use Rattle.std.specs.Prelude.{◌≡◌, List, IfOk, OnOk, fold, map};
ghost use Rattle.std.specs.List.{AllZip, enumerate_from, flat_map};
ghost use Rattle.rb_want.specs.Adding.{Outcome, told_of, with_needed, with_outcome, with_path_ends};
ghost use Rattle.rb_want.specs.Needs.{IsOutcomeAt};
ghost use Rattle.rb_want.specs.Paths.{ends_at, needs_at};
ghost use Rattle.rb_want.specs.Wanted.{AreAsked, path_ends_of};

use crate::chain::ChainAnswers;
use crate::client::case_of;
use crate::path::path_case_of;
use rb_import_setup::{ClientSetup, ImportSetup, PathSetup};
use rb_want_requests::{Folders, NextRequests};
use std::alloc::{AllocError, Global};

/// The next requests for the last turn of a setup, by the answers in its folders. Of each client: its state,
/// its consensus states and the latest height of the chain that it tracks; then the answers that judge the next
/// step of its search. Of each path that names both ends of its channel: which packets are pending, and their
/// transactions. `AllocError` comes where a growth is refused.
pub fn wanted_of<'a>(
    alloc: Global,
    setup: &'a ImportSetup,
    folders: &'a Folders,
) -> Result<NextRequests<'a>, AllocError>
    ensures folders { IfOk result (λ wanted. wanted.folders.now ≡ folders.entry.now) }
    ensures asked { IfOk result (λ wanted. AreAsked setup.entry.now folders.entry.now (told_of wanted)) }
    ensures path_ends { IfOk result (λ wanted. wanted.path_ends.items ≡ path_ends_of setup.entry.now folders.entry.now) }
{
    let mut wanted = NextRequests::nothing(alloc, folders);
    let chains = answers_of(alloc, folders)?;
    let clients = setup.clients.as_slice();
    add_clients(
        alloc,
        setup,
        folders,
        chains.as_slice(),
        clients,
        &mut wanted,
    )?;
    add_paths(alloc, setup, folders, setup.paths.as_slice(), &mut wanted)?;
    Ok(wanted)
}

/// Adds what is wanted for each client.
fn add_clients<'a>(
    alloc: Global,
    setup: &'a ImportSetup,
    folders: &'a Folders,
    chains: &[ChainAnswers<'a>],
    clients: &'a [ClientSetup],
    wanted: &mut NextRequests<'_>,
) -> Result<(), AllocError>
    requires { map (λ a. a.folder.now) chains.now ≡ folders.now.chains.items }
    ensures outcomes { OnOk result ((outcomes : List Outcome) × AllZip (IsOutcomeAt setup.entry.now folders.entry.now) (enumerate_from 0 clients.entry.now) outcomes
        × (told_of wanted.new ≡ fold (with_outcome wanted.old.folders.now) (told_of wanted.old) outcomes)) }
    ensures folders { wanted.new.folders ≡ wanted.old.folders }
    ensures path_ends { wanted.new.path_ends ≡ wanted.old.path_ends }
{
    for (place, client) in clients.iter().enumerate() {
        add_client(alloc, setup, folders, chains, place, client, wanted)?;
    }
    Ok(())
}

/// Adds what is wanted for the client at a place.
fn add_client<'a>(
    alloc: Global,
    setup: &'a ImportSetup,
    folders: &'a Folders,
    chains: &[ChainAnswers<'a>],
    place: usize,
    client: &'a ClientSetup,
    wanted: &mut NextRequests<'_>,
) -> Result<(), AllocError>
    requires { map (λ a. a.folder.now) chains.now ≡ folders.now.chains.items }
    ensures outcome { OnOk result ((o : Outcome) × IsOutcomeAt setup.entry.now folders.entry.now (place, client.entry.now) o
        × (told_of wanted.new ≡ with_outcome wanted.old.folders.now (told_of wanted.old) o)) }
    ensures folders { wanted.new.folders ≡ wanted.old.folders }
    ensures path_ends { wanted.new.path_ends ≡ wanted.old.path_ends }
{
    match case_of(alloc, setup, folders, chains, place, client)? {
        Some(case) => case.add_wanted(wanted),
        None => Ok(()),
    }
}

/// Adds what is wanted for each path.
#[tactic(auto, using(crate::proofs::Adding::adding, crate::proofs::Adding::path_ending))]
fn add_paths<'a>(
    alloc: Global,
    setup: &ImportSetup,
    folders: &'a Folders,
    paths: &[PathSetup],
    wanted: &mut NextRequests<'_>,
) -> Result<(), AllocError>
    ensures requests { OnOk result (wanted.new.requests.items ≡ with_needed wanted.old.folders.now wanted.old.requests.items
        (flat_map (needs_at setup.now.chains.items folders.entry.now.paths.items) (enumerate_from 0 paths.now))) }
    ensures folders { wanted.new.folders ≡ wanted.old.folders }
    ensures reasons { wanted.new.reasons ≡ wanted.old.reasons }
    ensures ends { wanted.new.ends ≡ wanted.old.ends }
    ensures path_ends { OnOk result (wanted.new.path_ends.items ≡ with_path_ends wanted.old.path_ends.items
        (flat_map (ends_at setup.now.chains.items folders.entry.now.paths.items) (enumerate_from 0 paths.now))) }
{
    for (place, path) in paths.iter().enumerate() {
        add_path(alloc, setup, folders, place, path, wanted)?;
    }
    Ok(())
}

/// Adds what is wanted for the path at a place.
#[tactic(auto, using(crate::proofs::Adding::adding, crate::proofs::Adding::path_ending))]
fn add_path<'a>(
    alloc: Global,
    setup: &ImportSetup,
    folders: &'a Folders,
    place: usize,
    path: &PathSetup,
    wanted: &mut NextRequests<'_>,
) -> Result<(), AllocError>
    ensures requests { OnOk result (wanted.new.requests.items ≡ with_needed wanted.old.folders.now wanted.old.requests.items
        (needs_at setup.now.chains.items folders.entry.now.paths.items (place, path.now))) }
    ensures folders { wanted.new.folders ≡ wanted.old.folders }
    ensures reasons { wanted.new.reasons ≡ wanted.old.reasons }
    ensures ends { wanted.new.ends ≡ wanted.old.ends }
    ensures path_ends { OnOk result (wanted.new.path_ends.items ≡ with_path_ends wanted.old.path_ends.items
        (ends_at setup.now.chains.items folders.entry.now.paths.items (place, path.now))) }
{
    match path_case_of(alloc, setup, folders, place, path)? {
        Some(case) => case.add_wanted(wanted),
        None => Ok(()),
    }
}

/// The answers of each chain.
fn answers_of<'a>(alloc: Global, folders: &'a Folders) -> Result<Vec<ChainAnswers<'a>>, AllocError>
    ensures { IfOk result (λ answers. map (λ a. a.folder.now) answers.items ≡ folders.entry.now.chains.items) }
{
    let mut answers = Vec::with_capacity(alloc, folders.chains.len())?;
    for folder in &folders.chains {
        answers.push(ChainAnswers::of(alloc, folder)?)?;
    }
    Ok(answers)
}
