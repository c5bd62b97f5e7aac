//! The members of a book's sets by column, and the bits of a header's commit voters.
ghost use Rattle.std.specs.Prelude.{◌≡◌, ◌≤◌, All, map, IfOk, OnOk};
ghost use Rattle.std.specs.List.{IsDistinct, range_with_len};
ghost use Rattle.std.specs.List.Sorted.{IsPermutation};
ghost use Rattle.std.specs.Str.{bytes_eq};
ghost use Rattle.rb_lanes.specs.Lanes.{max_columns, with_address};
ghost use Rattle.rb_lanes.specs.Refusal.{IsFull};
ghost use Rattle.rb_book.specs.Book.{address_count};
ghost use Rattle.rb_book.specs.Header.{IsSignedBy};
ghost use Rattle.rb_step.specs.SignedPower.{signed_power};
ghost use Rattle.rb_graph.specs.Numbering.{AreNumbered, entries_of, IsVotersPlane};

use rb_base::Height;
use rb_book::Header;
use rb_lanes::{Columns, LanesError, Plane, Tally};
use rb_valset::ValidatorSet;
use std::alloc::{AllocError, Allocator};

/// Numbers an address that has a column or finds room for one, so that the only error is want of
/// memory.
fn number<A: Allocator>(columns: &mut Columns<A>, address: &[u8; 20]) -> Result<(), AllocError>
    requires { ¬ IsFull columns.old address.now }
    ensures keys { OnOk result (columns.new ≡ with_address columns.old address.now) }
    ensures distinct { IsDistinct bytes_eq columns.new }
{
    match columns.intern(address) {
        Ok(_) => Ok(()),
        Err(LanesError::NoMemory) => Err(AllocError),
        Err(LanesError::ColumnsFull) => unreachable!(),
    }
}

/// The height at which the set of this place is first named, if it is known.
fn naming_at(lowest: &[Option<Height>], place: usize) -> Option<Height> {
    *lowest.get(place)?
}

/// The places of so many sets, by rising height at which each is first named.
fn places_by_naming<A: Allocator>(
    alloc: A,
    count: usize,
    lowest: &[Option<Height>],
) -> Result<Vec<usize, A>, AllocError>
    ensures { IfOk result (λ places. IsPermutation (range_with_len 0 count) places.items) }
{
    let mut places = Vec::with_capacity(alloc, count)?;
    for place in 0..count {
        places.push(place)?;
    }
    places.sort_unstable_by_key(|place: &usize| naming_at(lowest, *place));
    Ok(places)
}

/// A column for the address of each member of these sets, the same one for an address that several sets
/// have. A book's sets have at most 65,536 different addresses, so there is a column for each:
/// `AllocError` comes only where memory is wanting. `lowest` has the height at which each set is first
/// named: sets that are named one after the other get neighbouring columns.
pub fn number_sets<A: Allocator + Copy>(
    alloc: A,
    sets: &[ValidatorSet<A>],
    lowest: &[Option<Height>],
) -> Result<Columns<A>, AllocError>
    requires { address_count sets.now ≤ max_columns }
    ensures { IfOk result (λ columns. All (AreNumbered columns) sets.now) }
{
    let mut columns = Columns::new(alloc);
    let places = places_by_naming(alloc, sets.len(), lowest)?;
    for place in places.as_slice() {
        for member in sets[*place].members() {
            number(&mut columns, member.address())?;
        }
    }
    Ok(columns)
}

/// A set's powers by column.
pub fn tally_of<A: Allocator + Copy>(
    alloc: A,
    columns: &Columns<A>,
    set: &ValidatorSet<A>,
) -> Result<Tally<A>, AllocError>
    ensures { IfOk result (λ tally. tally ≡ entries_of columns.now set.now) }
{
    prove!(columns.len() <= 65_536);
    let mut entries = Vec::with_capacity(alloc, set.size())?;
    for member in set.members() {
        let column = columns.column(member.address()).unwrap_or(0);
        entries.push((column, member.power()))?;
    }
    Tally::new(alloc, entries)
}

/// One tally for each set, by its place: the set's powers, each beside its member's column. `AllocError`
/// where memory is wanting.
pub fn tallies_of<A: Allocator + Copy>(
    alloc: A,
    columns: &Columns<A>,
    sets: &[ValidatorSet<A>],
) -> Result<Vec<Tally<A>, A>, AllocError>
    ensures { IfOk result (λ tallies. tallies.items ≡ map (entries_of columns.now) sets.now) }
{
    let mut tallies = Vec::with_capacity(alloc, sets.len())?;
    for set in sets {
        tallies.push(tally_of(alloc, columns, set)?)?;
    }
    Ok(tallies)
}

/// The bits of the header's commit voters. `own` is its own set, `tally` that set's.
pub fn voters_plane<A: Allocator + Copy>(
    alloc: A,
    columns: &Columns<A>,
    own: &ValidatorSet<A>,
    tally: &Tally<A>,
    header: &Header<A>,
) -> Result<Plane<A>, AllocError>
    requires signed { IsSignedBy header.now own.now }
    requires numbered { AreNumbered columns.now own.now }
    requires tally { tally.now ≡ entries_of columns.now own.now }
    ensures { IfOk result (IsVotersPlane columns.now own.now header.now) }
{
    let mut plane = Plane::new(alloc, columns.len())?;
    let votes = header.votes();
    for (place, entry) in tally.members().iter().enumerate() {
        plane.set_if(entry.0 as usize, votes[place].is_commit());
    }
    Ok(plane)
}

/// The power in a set of the header's commit voters, by their bits. Where the set's columns are apart from
/// those of the header's own set, none is a member of it.
pub fn tallied<A: Allocator + Copy>(
    columns: &Columns<A>,
    set: &ValidatorSet<A>,
    tally: &Tally<A>,
    own: &ValidatorSet<A>,
    own_tally: &Tally<A>,
    header: &Header<A>,
    plane: &Plane<A>,
) -> u64
    requires numbered { AreNumbered columns.now set.now }
    requires tally { tally.now ≡ entries_of columns.now set.now }
    requires own { AreNumbered columns.now own.now }
    requires own_tally { own_tally.now ≡ entries_of columns.now own.now }
    requires plane { IsVotersPlane columns.now own.now header.now plane.now }
    ensures { result ≡ signed_power set.now own.now header.now }
{
    if tally.is_apart(own_tally) {
        return 0;
    }
    tally.sum(plane)
}
