//! Which headers and stored records a chain's book has room for: where there are more, the lowest are left out.
ghost use Rattle.std.specs.Prelude.{◌≡◌, ◌≤◌, ◌-◌, ◌⊎◌, ◌↔◌, ◌++◌, ℕ, filter, length, map, All, Contains, IfOk, OnOk, IsTrue};
ghost use Rattle.std.specs.List.Sorted.{IsStrictlyIncreasing};
ghost use Rattle.rb_import_merge.specs.Room.{is_kept, AreBooks, AreKept, AreKeptOf, AreThose, FitBooks, FitsHeaders, HasHeader, HasNoRoom, IsBookOf, IsKept, IsStored};

use rb_book::MAX_RECORDS;
use rb_import_check::{SeenChain, SeenClient, Stored};
use rb_import_setup::{ClientSetup, ImportSetup};
use std::alloc::{AllocError, Global};

/// How many headers of a chain its book has no room for.
pub fn surplus_of(chain: &SeenChain<'_>) -> usize
    ensures { result ≡ length chain.now.commits.items - 4096 }
{
    chain.commits.len().saturating_sub(MAX_RECORDS)
}

/// A chain with as many of its headers as its book has room for: where there are more, the lowest are left out.
#[tactic(auto, using(crate::proofs::Highest::fitting))]
pub fn with_room<'a>(alloc: Global, chain: SeenChain<'a>) -> Result<SeenChain<'a>, AllocError>
    ensures fits { IfOk result (λ fitting. FitsHeaders chain.entry.commits.items fitting.commits.items) }
    ensures sets { IfOk result (λ fitting. fitting.sets.sets.items ≡ chain.entry.sets.sets.items) }
    ensures bare { IfOk result (λ fitting. fitting.bare.items ≡ chain.entry.bare.items) }
    ensures unsigned { IfOk result (λ fitting. fitting.unsigned.items ≡ chain.entry.unsigned.items) }
{
    let left_out = surplus_of(&chain);
    let SeenChain {
        commits,
        bare,
        unsigned,
        sets,
    } = chain;
    let (_, highest) = commits.split_at(left_out);
    let commits = Vec::from_slice(alloc, highest)?;
    Ok(SeenChain {
        commits,
        bare,
        unsigned,
        sets,
    })
}

/// Of each client the stored records that the book of the chain that it tracks has room for.
pub fn kept_records<'a>(
    alloc: Global,
    setup: &ImportSetup,
    chains: &[SeenChain<'a>],
    clients: &[SeenClient<'a>],
) -> Result<Vec<Vec<Stored<'a>>>, AllocError>
    ensures { IfOk result (λ records. FitBooks setup.now chains.now clients.now records.items) }
{
    let books = books_of(alloc, setup, chains, clients)?;
    let records = records_of(alloc, setup, chains, clients, books.as_slice())?;
    Ok(records)
}

/// Of each chain the heights of stored records that its book has room for, beside its headers.
fn books_of(
    alloc: Global,
    setup: &ImportSetup,
    chains: &[SeenChain<'_>],
    clients: &[SeenClient<'_>],
) -> Result<Vec<Vec<u64>>, AllocError>
    ensures { IfOk result (λ books. AreBooks setup.now chains.now clients.now books.items) }
{
    let mut books = Vec::new(alloc);
    for (place, chain) in chains.iter().enumerate() {
        let book = book_of(alloc, setup, clients, place, chain)?;
        books.push(book)?;
    }
    Ok(books)
}

/// The heights of records that clients of the chain at a place have stored which its book has room for:
/// of those without a header the highest, by rising height.
fn book_of(
    alloc: Global,
    setup: &ImportSetup,
    clients: &[SeenClient<'_>],
    place: usize,
    chain: &SeenChain<'_>,
) -> Result<Vec<u64>, AllocError>
    ensures { IfOk result (λ book. IsBookOf setup.now clients.now place chain.now book.items) }
{
    let stored = heights_of(alloc, setup, clients, place)?;
    let bare = without_header(alloc, chain, stored.as_slice())?;
    let room = MAX_RECORDS.saturating_sub(chain.commits.len());
    let book = highest(alloc, bare, room)?;
    Ok(book)
}

/// The heights of records that clients of the chain at a place have stored.
fn heights_of(
    alloc: Global,
    setup: &ImportSetup,
    clients: &[SeenClient<'_>],
    place: usize,
) -> Result<Vec<u64>, AllocError>
    ensures stored { IfOk result (λ heights. All (IsStored setup.now clients.now place) heights.items) }
    ensures all { IfOk result (λ heights. (h : ℕ) → IsStored setup.now clients.now place h → Contains heights.items h) }
{
    let mut heights = Vec::new(alloc);
    for (number, client) in setup.clients.iter().enumerate() {
        if client.tracks == place {
            if let Some(seen) = clients.get(number) {
                add_heights(seen.stored.as_slice(), &mut heights)?;
            }
        }
    }
    Ok(heights)
}

fn add_heights(stored: &[Stored<'_>], heights: &mut Vec<u64>) -> Result<(), AllocError>
    ensures { OnOk result (heights.new.items ≡ heights.old.items ++ map (λ s. s.state.now.height) stored.now) }
{
    for record in stored {
        heights.push(record.state.height.get())?;
    }
    Ok(())
}

/// Those of these heights of which there is no header.
fn without_header(
    alloc: Global,
    chain: &SeenChain<'_>,
    heights: &[u64],
) -> Result<Vec<u64>, AllocError>
    ensures { IfOk result (λ bare. AreThose (λ h. ¬ HasHeader chain.now h) (HasHeader chain.now) heights.now bare.items) }
{
    let mut bare = Vec::new(alloc);
    for &height in heights {
        if !has_header(chain, height) {
            bare.push(height)?;
        }
    }
    Ok(bare)
}

/// Whether there is a header of this height.
fn has_header(chain: &SeenChain<'_>, height: u64) -> bool
    ensures { IsTrue result ↔ HasHeader chain.now height }
{
    for commit in &chain.commits {
        if commit.header.height.get() == height {
            return true;
        }
    }
    false
}

/// The highest of these heights, so many at most, each once, by rising height.
pub fn highest(alloc: Global, heights: Vec<u64>, room: usize) -> Result<Vec<u64>, AllocError>
    ensures room { IfOk result (λ highest. length highest.items ≤ room) }
    ensures rising { IfOk result (λ highest. IsStrictlyIncreasing highest.items) }
    ensures same { IfOk result (λ highest. All (Contains heights.items) highest.items) }
    ensures highest { IfOk result (λ highest. All (λ h. Contains highest.items h ⊎ HasNoRoom room highest.items h) heights.items) }
{
    let mut heights = heights;
    heights.sort_unstable();
    heights.dedup();
    let left_out = heights.len().saturating_sub(room);
    let (_, highest) = heights.split_at(left_out);
    Vec::from_slice(alloc, highest)
}

/// Of each client the stored records that the book of the chain that it tracks, one of these, has room for.
fn records_of<'a>(
    alloc: Global,
    setup: &ImportSetup,
    chains: &[SeenChain<'a>],
    clients: &[SeenClient<'a>],
    books: &[Vec<u64>],
) -> Result<Vec<Vec<Stored<'a>>>, AllocError>
    ensures { IfOk result (λ records. AreKept setup.now chains.now clients.now books.now records.items) }
{
    let mut records = Vec::new(alloc);
    for (number, client) in setup.clients.iter().enumerate() {
        let kept = kept_at(alloc, chains, clients, books, number, client)?;
        records.push(kept)?;
    }
    Ok(records)
}

/// Of the records of the client at a place those that the book of the chain that it tracks has room for.
fn kept_at<'a>(
    alloc: Global,
    chains: &[SeenChain<'a>],
    clients: &[SeenClient<'a>],
    books: &[Vec<u64>],
    number: usize,
    client: &ClientSetup,
) -> Result<Vec<Stored<'a>>, AllocError>
    ensures { IfOk result (λ kept. AreKeptOf chains.now clients.now books.now number client.now kept.items) }
{
    let Some(seen) = clients.get(number) else {
        return Ok(Vec::new(alloc));
    };
    let Some(chain) = chains.get(client.tracks) else {
        return Ok(Vec::new(alloc));
    };
    let Some(book) = books.get(client.tracks) else {
        return Ok(Vec::new(alloc));
    };
    let kept = kept_of(alloc, chain, book.as_slice(), seen.stored.as_slice())?;
    Ok(kept)
}

/// The records that a book has room for.
#[tactic(auto, using(rb_import_check::proofs::Sorting::filtering))]
fn kept_of<'a>(
    alloc: Global,
    chain: &SeenChain<'a>,
    book: &[u64],
    stored: &[Stored<'a>],
) -> Result<Vec<Stored<'a>>, AllocError>
    ensures those { IfOk result (λ kept. AreThose (λ s. IsKept chain.now book.now s.state.now.height) (λ s. ¬ IsKept chain.now book.now s.state.now.height) stored.now kept.items) }
    ensures order { IfOk result (λ kept. kept.items ≡ filter (λ s. is_kept chain.now book.now s.state.now.height) stored.now) }
{
    let mut kept = Vec::new(alloc);
    for record in stored {
        if is_kept(chain, book, record.state.height.get()) {
            kept.push(*record)?;
        }
    }
    Ok(kept)
}

/// Whether a book has room for a record of this height.
fn is_kept(chain: &SeenChain<'_>, book: &[u64], height: u64) -> bool
    ensures kept { IsTrue result ↔ IsKept chain.now book.now height }
    ensures value { result ≡ is_kept chain.now book.now height }
{
    has_room(chain, book, height)
}

/// Whether there is a header of this height, or it is one of a book's.
#[tactic(auto, unfolding(crate::specs::Room::IsKept))]
fn has_room(chain: &SeenChain<'_>, book: &[u64], height: u64) -> bool
    ensures { IsTrue result ↔ IsKept chain.now book.now height }
{
    is_held(book, height) || has_header(chain, height)
}

/// Whether a height is one of these.
fn is_held(book: &[u64], height: u64) -> bool
    ensures { IsTrue result ↔ Contains book.now height }
{
    book.contains(&height)
}
