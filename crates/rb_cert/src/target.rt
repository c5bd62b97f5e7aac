//! Steps to a header that is at hand with its own set.
ghost use Rattle.std.specs.Prelude.{◌≡◌, ◌<◌, ◌≤◌, ◌↔◌, IsTrue, Contains};
ghost use Rattle.std.specs.Option.{option_copied};
ghost use Rattle.rb_book.specs.Book.{set_of};
ghost use Rattle.rb_step.specs.Carried.{least_votes};
ghost use Rattle.rb_step.specs.Fee.{fee_limit};
ghost use Rattle.rb_step.specs.View.{IsView, client_of};
ghost use Rattle.rb_cert.specs.Target.{IsTarget};
ghost use Rattle.rb_cert.specs.Trusted.{IsNextOf};

use rb_book::{Header, RecordAt};
use rb_step::laws::least_fee_is_least;
use rb_step::{ClientView, accepts_in, carried_votes, charge_for};
use rb_valset::ValidatorSet;
use std::alloc::Allocator;

/// The next set of the known record, whose place is `next`.
fn next_set<'a, A: Allocator + Copy>(
    view: &ClientView<'a, A>,
    known: &RecordAt,
    next: Option<usize>,
) -> Option<&'a ValidatorSet<A>>
    requires { IsNextOf view.now known.now next }
    ensures { option_copied result ≡ set_of view.now.book known.now.record_of.next }
{
    let place = next?;
    Some(&view.book().sets()[place])
}

/// The fee of the step from the known record, whose next set's place is `next`.
pub(crate) fn fee_from<A: Allocator + Copy>(
    view: &ClientView<'_, A>,
    known: &RecordAt,
    next: Option<usize>,
    header: &Header<A>,
    own: &ValidatorSet<A>,
) -> u64
    requires view { IsView view.now }
    requires known { Contains view.now.book.records known.now }
    requires next { IsNextOf view.now known.now next }
    requires target { IsTarget view.now.book header.now own.now }
    ensures value { result ≡ (client_of view.now).fee known.now.height header.now.height }
    ensures bound { result < fee_limit }
{
    let next = next_set(view, known, next);
    let votes = carried_votes(&view.options(), known.height(), next, header, own);
    charge_for(&view.fees(), votes, next, own)
}

/// An amount that the step from the known record doesn't cost less than: the charge for the fewest votes
/// that any update to the header carries.
pub(crate) fn least_fee_from<A: Allocator + Copy>(
    view: &ClientView<'_, A>,
    known: &RecordAt,
    next: Option<usize>,
    least: usize,
    header: &Header<A>,
    own: &ValidatorSet<A>,
) -> u64
    requires view { IsView view.now }
    requires known { Contains view.now.book.records known.now }
    requires next { IsNextOf view.now known.now next }
    requires target { IsTarget view.now.book header.now own.now }
    requires least { least ≡ least_votes view.now.options header.now own.now }
    ensures least { result ≤ (client_of view.now).fee known.now.height header.now.height }
    ensures bound { result < fee_limit }
{
    least_fee_is_least();
    let next = next_set(view, known, next);
    charge_for(&view.fees(), least, next, own)
}

/// Whether the client accepts the step from the known record.
pub(crate) fn accepts_from<A: Allocator + Copy>(
    view: &ClientView<'_, A>,
    known: &RecordAt,
    header: &Header<A>,
    own: &ValidatorSet<A>,
) -> bool
    requires view { IsView view.now }
    requires known { Contains view.now.book.records known.now }
    requires target { IsTarget view.now.book header.now own.now }
    ensures { IsTrue result ↔ (client_of view.now).Accepts known.now.height header.now.height }
{
    let next = view.book().set(known.record().next());
    accepts_in(
        &view.options(),
        known.height(),
        known.record(),
        next,
        header,
        own,
        &view.window(),
    )
}
