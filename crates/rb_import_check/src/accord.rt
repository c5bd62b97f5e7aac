//! Whether what a client has stored is what the chain's headers say.
ghost use Rattle.std.specs.Prelude.{◌≡◌, ◌↔◌, IsTrue, map, All, Any, IfErr, OnOk};
ghost use Rattle.rb_import_check.specs.Accord.{AgreesWith, DiffersFrom, IsAsHeader, NamesDifference};
ghost use Rattle.rb_import_check.specs.Errors.{IsTold, IsToldOf};

use crate::chain::{Commit, SeenChain, heights_of};
use crate::client::Stored;
use crate::error::{CheckErrorName, ImportError};
use rb_base::Height;
use std::alloc::Global;

/// Refuses a record of the client of an identifier that isn't as the header of its height on the chain that
/// the client tracks: a book takes one of the two.
#[tactic(auto, using(crate::proofs::Accords::according))]
pub fn judge_records<'a>(
    alloc: Global,
    id: &'a str,
    chain: &SeenChain<'a>,
    stored: &[Stored<'a>],
) -> Result<(), ImportError<'a>>
    ensures accord { OnOk result (All (AgreesWith chain.now.commits.items) stored.now) }
    ensures other { IfErr result (IsTold CheckErrorName.OtherRecord (Any (λ s. ¬ AgreesWith chain.now.commits.items s) stored.now)) }
    ensures named { IfErr result (NamesDifference chain.now.commits.items stored.now) }
    ensures told { IfErr result (IsToldOf id.entry.now) }
{
    let heights = heights_of(alloc, chain.commits.as_slice())?;
    for record in stored {
        judge_record(id, chain, heights.as_slice(), record)?;
    }
    Ok(())
}

/// Refuses a record that isn't as the header of its height.
fn judge_record<'a>(
    id: &'a str,
    chain: &SeenChain<'a>,
    heights: &[Height],
    stored: &Stored<'a>,
) -> Result<(), ImportError<'a>>
    requires { heights.now ≡ map (λ c. c.header.now.height) chain.now.commits.items }
    ensures accord { OnOk result (AgreesWith chain.now.commits.items stored.now) }
    ensures other { IfErr result (IsTold CheckErrorName.OtherRecord (¬ AgreesWith chain.now.commits.items stored.now)) }
    ensures named { IfErr result (λ e. Any (λ c. DiffersFrom c stored.now e) chain.now.commits.items) }
    ensures told { IfErr result (IsToldOf id.entry.now) }
{
    let Ok(place) = heights.binary_search(&stored.state.height) else {
        return Ok(());
    };
    let commit = &chain.commits[place];
    if is_as_header(stored, commit) {
        return Ok(());
    }
    let height = stored.state.height.get();
    let name = CheckErrorName::OtherRecord;
    Err(ImportError::between(name, id, height, stored.file, commit.file))
}

/// Whether a record has the time, the root and the next set of a header.
fn is_as_header(stored: &Stored<'_>, commit: &Commit<'_>) -> bool
    ensures { IsTrue result ↔ IsAsHeader stored.now commit.now }
{
    let (state, header) = (stored.state, commit.header);
    state.time == header.time && state.root == header.root && state.next == header.next
}
