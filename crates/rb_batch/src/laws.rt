//! Laws of cuts, which hold by their proofs alone.
ghost use Rattle.rb_batch.specs.Laws.{LeastCutIsOne, LeastCutExists, CutApartIsDivision, CutApartIsOne};

/// No two different cuts of the same messages are the least.
pub fn least_cut_is_one()
    ensures { LeastCutIsOne }
{}

/// Messages have a least cut exactly where none of them is over the gas limit alone.
pub fn least_cut_exists()
    ensures { LeastCutExists }
{}

/// A cut of some messages apart from others is a division of all of them.
pub fn cut_apart_is_division()
    ensures { CutApartIsDivision }
{}

/// No two different cuts of the same messages apart are the least.
pub fn cut_apart_is_one()
    ensures { CutApartIsOne }
{}
