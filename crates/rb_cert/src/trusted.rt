//! What is looked up of the known records, once for all steps that trust them.
ghost use Rattle.rb_plan_types.specs.Labelling.{label_of};
ghost use Rattle.rb_cert.specs.Trusted.{IsLookedUp, AreLookedUp};

use rb_book::RecordAt;
use rb_plan_types::{Cost, Labelling};
use rb_step::ClientView;
use std::alloc::Allocator;

/// What is looked up of a record: its label where it is live, since no other is trusted, and the
/// place of its next set in the book's sets.
#[derive(Clone, Copy)]
pub(crate) struct Trusted {
    pub(crate) cost: Option<Cost>,
    pub(crate) next: Option<usize>,
}

/// The same of each record, by its place.
pub(crate) fn look_up_all<A: Allocator + Copy>(
    view: &ClientView<'_, A>,
    labelling: &Labelling<A>,
) -> [Trusted; 4096]
    ensures { AreLookedUp result view.now (label_of labelling.now) }
{
    let mut found = [Trusted {
        cost: None,
        next: None,
    }; 4096];
    for (place, known) in view.book().records().iter().enumerate() {
        found[place] = look_up(view, labelling, known);
    }
    found
}

fn look_up<A: Allocator + Copy>(
    view: &ClientView<'_, A>,
    labelling: &Labelling<A>,
    known: &RecordAt,
) -> Trusted
    ensures { IsLookedUp view.now (label_of labelling.now) known.now result }
{
    let height = known.height();
    let cost = if view.is_live(height) {
        labelling.get(height)
    } else {
        None
    };
    Trusted {
        cost,
        next: view.book().set_place(known.record().next()),
    }
}
