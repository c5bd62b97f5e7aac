//! Between which heights a stored consensus state is of use to a plan that lacks its next set.
ghost use Rattle.std.specs.Prelude.{◌≡◌, ◌==◌};
ghost use Rattle.std.specs.Option.{option_copied};
ghost use Rattle.rb_import_notices.specs.Starts.{asked_in, asked_of, below_of, bound_by, has_written_next, highest_among, highest_of, highest_start, is_start, lower_start, starts_at};

use rb_import_check::{Commit, Stored};
use rb_import_merge::SeenSetup;
use rb_import_setup::{ClientSetup, ImportSetup};
use rb_script_types::{Asked, Goal};

/// Heights above the first of these and below the second: there is no higher consensus state from which an update starts
/// already, and there is a header above that an update could bring.
#[derive(Clone, Copy)]
pub struct Starts {
    pub above: u64,
    pub below: u64,
}

impl Starts {
    /// Whether a consensus state is of one of these heights.
    pub fn has(&self, stored: &Stored<'_>) -> bool
        ensures { result ≡ is_start self.now stored.now }
    {
        let height = stored.state.height.get();
        self.above < height && height < self.below
    }
}

/// The heights between which the written records of the client at a place are of use.
pub fn starts_at(
    setup: &ImportSetup,
    seen: &SeenSetup<'_>,
    place: usize,
    client: &ClientSetup,
) -> Starts
    ensures { result ≡ starts_at setup.now seen.now place client.now }
{
    let chain = client.tracks;
    let below = below_of(asked_of(setup, place), highest_of(seen, chain));
    let above = match seen.records.get(place) {
        Some(records) => lower_start(seen, chain, below, records.as_slice()),
        None => 0,
    };
    Starts { above, below }
}

/// The goal of the client at a place in the last turn, if it has one.
fn asked_of(setup: &ImportSetup, place: usize) -> Option<Asked>
    ensures { result ≡ asked_of setup.now place }
{
    match setup.turns.last() {
        Some(turn) => asked_in(turn.goals.as_slice(), place).copied(),
        None => None,
    }
}

/// The first of these goals that is of the client at a place, if there is one.
#[tactic(auto, unfolding(crate::specs::Starts::asked_in))]
fn asked_in(goals: &[Asked], place: usize) -> Option<&Asked>
    ensures { option_copied result ≡ asked_in goals.entry.now place }
{
    goals.iter().find(|asked| is_of(asked, place))
}

/// Whether a goal is of the client at a place.
fn is_of(asked: &Asked, place: usize) -> bool
    ensures { result ≡ (asked.now.client == place) }
{
    asked.client == place
}

/// The height below which an update starts: that of the goal, where it is of one height, and in any case that of the highest
/// header.
fn below_of(asked: Option<Asked>, highest: u64) -> u64
    ensures { result ≡ below_of asked highest }
{
    match asked {
        Some(asked) => bound_by(asked.goal, highest),
        None => highest,
    }
}

fn bound_by(goal: Goal, highest: u64) -> u64
    ensures { result ≡ bound_by goal highest }
{
    match goal {
        Goal::Exactly(height) => height.get().min(highest),
        Goal::AtLeast(_) => highest,
    }
}

/// The greatest height of the headers of the chain at a place, 0 if there are none.
fn highest_of(seen: &SeenSetup<'_>, chain: usize) -> u64
    ensures { result ≡ highest_of seen.now chain }
{
    match seen.chains.get(chain) {
        Some(chain) => highest_among(chain.commits.as_slice()).unwrap_or(0),
        None => 0,
    }
}

/// The greatest height of these headers, if there are some.
#[tactic(auto, unfolding(crate::specs::Starts::highest_among))]
fn highest_among(commits: &[Commit<'_>]) -> Option<u64>
    ensures { result ≡ highest_among commits.now }
{
    commits
        .iter()
        .map(|commit| commit.header.height.get())
        .max()
}

/// The greatest height of those of these records that are below a height and whose next set is written, 0 if there are none.
fn lower_start(seen: &SeenSetup<'_>, chain: usize, below: u64, records: &[Stored<'_>]) -> u64
    ensures { result ≡ lower_start seen.now chain below records.now }
{
    highest_start(seen, chain, below, records).unwrap_or(0)
}

/// The greatest height of those of these records that are below a height and whose next set is written, if there are some.
#[tactic(auto, unfolding(crate::specs::Starts::highest_start))]
fn highest_start(
    seen: &SeenSetup<'_>,
    chain: usize,
    below: u64,
    records: &[Stored<'_>],
) -> Option<u64>
    ensures { result ≡ highest_start seen.now chain below records.now }
{
    records
        .iter()
        .filter(|record| has_written_next(seen, chain, below, record))
        .map(|record| record.state.height.get())
        .max()
}

/// Whether a record is below a height, and its next set is written of the chain at a place.
fn has_written_next(seen: &SeenSetup<'_>, chain: usize, below: u64, stored: &Stored<'_>) -> bool
    ensures { result ≡ has_written_next seen.now chain below stored.now }
{
    stored.state.height.get() < below && seen.is_written(chain, &stored.state.next)
}
