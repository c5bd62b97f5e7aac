//! What the tables of cases are made of; none where a number is out of range or no memory is left.
use rb_base::{ChainId, ClientId, FeeTable, Height, Moment, Options, PathId, Period};
use rb_batch::Limits;
use rb_book::{Header, Record, Vote};
use rb_scan::{Order, Sequence};
use rb_script_types::{ClientConfig, Config, PathConfig, PathGas, RefreshTo, Version, Waits};
use rb_valset::{PublicKey, Validator, ValidatorSet};
use std::alloc::Global;
use std::fmt::{Debug, Display};
use std::process::Abort;

/// Asserts in one place for all tests, since each `assert_eq!` makes the proof of the function around
/// it dearer, and so does each reference that is made for it.
pub fn assert_same<T: PartialEq + Debug + Copy>(
    rt: &impl Abort,
    row: impl Display + Copy,
    given: T,
    wanted: T,
) {
    assert!(rt; given == wanted, "{row}: {given:?}, not {wanted:?}");
}

pub fn second(number: u64) -> Option<Moment> {
    Moment::new(u128::from(number) * 1_000_000_000)
}

/// A period of 1,000 s, a drift of 10 s and a trust of 1/3.
pub fn options() -> Option<Options> {
    Some(Options::new(Period::new(1_000_000_000_000)?, 10_000_000_000))
}

/// Four members of power 10, whose keys repeat this byte and the three that follow it.
pub fn make_set(alloc: Global, first: u8) -> Option<ValidatorSet> {
    let mut members = Vec::new(alloc);
    for place in 0..4 {
        let key = PublicKey::Ed25519([first.wrapping_add(place); 32]);
        let member = Validator::new(key, 10).ok()?;
        members.push(member).ok()?;
    }
    ValidatorSet::new(alloc, members).ok()
}

/// A set of one member of power 1, by its number.
pub fn make_lone_set(alloc: Global, number: u16) -> Option<ValidatorSet> {
    let mut key = [0x55; 32];
    let [high, low] = number.to_be_bytes();
    key[0] = high;
    key[1] = low;
    let mut members = Vec::new(alloc);
    members
        .push(Validator::new(PublicKey::Ed25519(key), 1).ok()?)
        .ok()?;
    ValidatorSet::new(alloc, members).ok()
}

/// A record of this time in seconds, which names the set as the next one.
pub fn make_record(alloc: Global, seconds: u64, set: u8) -> Option<Record> {
    let set = make_set(alloc, set)?;
    Some(Record::new(second(seconds)?, [0; 32], *set.hash()))
}

/// A header of this height and time in seconds with votes of the set, which is the next one too.
pub fn make_header(
    alloc: Global,
    number: u64,
    seconds: u64,
    set: u8,
    votes: &[Vote],
) -> Option<Header> {
    let record = make_record(alloc, seconds, set)?;
    let votes = Vec::from_slice(alloc, votes).ok()?;
    let own = *record.next();
    Some(Header::new(Height::new(number)?, record, own, votes))
}

/// A client of the one chain that tracks the other. An update takes 111 of the 115 that a transaction
/// may take.
fn make_client(id: &str, host: usize, tracks: usize) -> Option<ClientConfig> {
    Some(ClientConfig {
        id: ClientId::new(id)?,
        host,
        tracks,
        options: options()?,
        refresh: 0,
        refresh_to: RefreshTo::Lowest,
        fees: FeeTable::new(100, 1, 1).ok()?,
        gas: FeeTable::new(100, 1, 1).ok()?,
        limits: Limits::new(115, 100, 0),
    })
}

/// A path from the first chain to the second.
fn make_path(id: &str, order: Order, first: u64, gas: PathGas) -> Option<PathConfig> {
    Some(PathConfig {
        id: PathId::new(id)?,
        source: 0,
        destination: 1,
        order,
        first: Sequence::new(first)?,
        forward: 0,
        back: 1,
        gas,
        waits: Waits::NONE,
        channel: None,
    })
}

fn make_chains(alloc: Global) -> Option<Vec<ChainId>> {
    let mut chains = Vec::new(alloc);
    chains.push(ChainId::new("a")?).ok()?;
    chains.push(ChainId::new("b")?).ok()?;
    Some(chains)
}

fn make_clients(alloc: Global, more: &[&'static str]) -> Option<Vec<ClientConfig>> {
    let mut clients = Vec::new(alloc);
    clients.push(make_client("forward", 1, 0)?).ok()?;
    clients.push(make_client("back", 0, 1)?).ok()?;
    for id in more {
        clients.push(make_client(id, 1, 0)?).ok()?;
    }
    Some(clients)
}

fn make_paths(alloc: Global) -> Option<Vec<PathConfig>> {
    let plain = make_path("plain", Order::Unordered, 1, PathGas::new(60, 60, 60)?)?;
    let turns = make_path("turns", Order::Ordered, 3, PathGas::new(50, 51, 52)?)?;
    Vec::from_slice(alloc, &[plain, turns]).ok()
}

/// Two chains, a client of each that tracks the other, the one of the second chain first, so many more
/// of that chain, and two paths: one that is UNORDERED, whose messages take 60 each, and one that is
/// ORDERED and begins with sequence 3, whose receives take 50, acknowledgements 51 and timeouts 52.
pub fn make_config(alloc: Global, limit: usize, more: &[&'static str]) -> Option<Config> {
    Some(Config {
        version: Version::One,
        limit,
        chains: make_chains(alloc)?,
        clients: make_clients(alloc, more)?,
        paths: make_paths(alloc)?,
    })
}
