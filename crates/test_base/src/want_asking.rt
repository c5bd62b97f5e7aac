use crate::same::assert_same;
use rb_base::{ChainId, ClientId, Height};
use rb_want_requests::{Folder, Folders, NextRequests, Owner, Query, Request};
use std::alloc::{AllocError, Global};
use std::test::Fail;

/// How often something is asked for.
const TIMES: u64 = 40;

fn empty_folder(alloc: Global) -> Result<Vec<Folder>, AllocError> {
    let mut folders = Vec::new(alloc);
    folders.push(Folder {
        contents: Vec::new(alloc),
        refused: Vec::new(alloc),
        searched: Vec::new(alloc),
    })?;
    Ok(folders)
}

/// An empty folder of a chain, and one of a client.
fn make_folders(alloc: Global) -> Result<Folders, AllocError> {
    Ok(Folders {
        chains: empty_folder(alloc)?,
        clients: empty_folder(alloc)?,
        paths: Vec::new(alloc),
    })
}

/// The request of a header of a chain.
fn header_of(chain: &str, height: u64) -> Option<Request> {
    Some(Request {
        chain: ChainId::new(chain)?,
        owner: Owner::Chain(0),
        query: Query::Commit(Height::new(height)?),
    })
}

/// The request of a page of a client's consensus states.
fn states_of(chain: &str, page: u64) -> Option<Request> {
    let id = ClientId::new("07-tendermint-3")?;
    Some(Request {
        chain: ChainId::new(chain)?,
        owner: Owner::Client { place: 0, id },
        query: Query::ConsensusStates { page },
    })
}

/// The numbers of requests, after many of the node and of the gateway of a chain.
fn counts_after(alloc: Global, wanted: &mut NextRequests<'_>) -> Result<String, Fail> {
    for height in 1..=TIMES {
        wanted.ask(alloc, &header_of("hub-4", height).ok_or("header")?)?;
    }
    let of_node = wanted.requests.len();
    for page in 1..=TIMES {
        wanted.ask(alloc, &states_of("hub-4", page).ok_or("states")?)?;
    }
    let of_both = wanted.requests.len();
    wanted.ask(alloc, &states_of("zone-1", TIMES).ok_or("states")?)?;
    let of_all = wanted.requests.len();
    Ok(format!(in alloc; "{of_node} {of_both} {of_all}")?)
}

#[test]
fn asks_thirty_times_of_each_address(rt: HostRuntime) -> Result<(), Fail> {
    let folders = make_folders(rt.alloc())?;
    let mut wanted = NextRequests::nothing(rt.alloc(), &folders);
    let counts = counts_after(rt.alloc(), &mut wanted)?;
    assert_same(&rt, "requests", counts.as_str(), "30 60 61");
    Ok(())
}
