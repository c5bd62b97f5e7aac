//! The steps into a height that are refused, by the next sets of the records that they trust.
ghost use Rattle.std.specs.Prelude.{◌≡◌, ◌≢◌, ℕ, ◌+◌, ◌<◌, ◌↔◌, Option, Some, IsTrue, Contains};
ghost use Rattle.rb_book.specs.Header.{IsSignedBy};
ghost use Rattle.rb_step.specs.View.{View, IsView, client_of};
ghost use Rattle.rb_cert.specs.Refused.{AreRefused};
ghost use Rattle.rb_cert.specs.Target.{IsTarget};
ghost use Rattle.rb_cert.specs.Trusted.{IsNextOf};
ghost use Rattle.rb_cert.specs.Voters.{AreVoterMarks};

use crate::places::Places;
use crate::target::accepts_from;
use crate::voters::VoterMarks;
use rb_base::Height;
use rb_book::{Header, RecordAt};
use rb_step::ClientView;
use rb_valset::ValidatorSet;
use std::alloc::Allocator;

/// The next sets by which a height's header was refused, as places in the book's sets, and the
/// marks of its commit voters, by which most are.
#[derive(Drop)]
pub(crate) struct RefusedSets {
    pub(crate) places: Places,
    pub(crate) voters: VoterMarks,
}

impl RefusedSets {
    /// No set. `own` is the header's own set.
    pub(crate) fn none<A: Allocator + Copy>(
        own: &ValidatorSet<A>,
        header: &Header<A>,
    ) -> RefusedSets
        requires { IsSignedBy header.now own.now }
        ensures refused { (view : View) (height : ℕ) → AreRefused result.places.words view height }
        ensures voters { AreVoterMarks result.voters.words own.now header.now }
    {
        RefusedSets {
            places: Places::none(),
            voters: VoterMarks::of(own, header),
        }
    }
}

/// Whether the client accepts the step from the known record, which is live, to the header. `next`
/// is the place of the record's next set. Where the client refused the step from another record
/// that names the same next set, it refuses this one too: so a set is gone through once, and its
/// members' votes are looked up only where the voters' marks don't rule it out.
pub(crate) fn accepts<A: Allocator + Copy>(
    view: &ClientView<'_, A>,
    known: &RecordAt,
    next: Option<usize>,
    header: &Header<A>,
    own: &ValidatorSet<A>,
    refused: &mut RefusedSets,
) -> bool
    requires view { IsView view.now }
    requires known { Contains view.now.book.records known.now }
    requires live { (client_of view.now).IsLive known.now.height }
    requires next { IsNextOf view.now known.now next }
    requires target { IsTarget view.now.book header.now own.now }
    requires lower { known.now.height < header.now.height }
    requires refused { AreRefused refused.old.places.words view.now header.now.height }
    requires voters { AreVoterMarks refused.old.voters.words own.now header.now }
    ensures value { IsTrue result ↔ (client_of view.now).Accepts known.now.height header.now.height }
    ensures refused { AreRefused refused.new.places.words view.now header.now.height }
    ensures voters { refused.new.voters ≡ refused.old.voters }
{
    let Some(set) = judging_set(known, next, header.height()) else {
        return accepts_from(view, known, header, own);
    };
    if refused.places.contains(set) {
        return false;
    }
    let trust = view.options().trust();
    if refused.voters.rule_out(trust, &view.book().sets()[set]) {
        refused.places.insert(set);
        return false;
    }
    let is_accepted = accepts_from(view, known, header, own);
    if !is_accepted {
        refused.places.insert(set);
    }
    is_accepted
}

/// The place of the next set that the step from the known height goes by: none where the step is
/// adjacent, or where the set isn't known.
fn judging_set(known: &RecordAt, next: Option<usize>, height: Height) -> Option<usize>
    ensures { (set : ℕ) → (result ≡ Some set) ↔ ((known.now.height + 1 ≢ height) × (next ≡ Some set)) }
{
    if known.height().get() + 1 == height.get() {
        return None;
    }
    next
}
