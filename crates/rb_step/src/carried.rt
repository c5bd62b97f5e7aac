//! How many votes of a header an update carries.
ghost use Rattle.std.specs.Prelude.{◌≡◌, ◌≤◌, ◌-◌, [], IfOk, None, length, sum_by};
ghost use Rattle.std.specs.Option.{option_copied};
ghost use Rattle.rb_book.specs.Header.{IsSignedBy};
ghost use Rattle.rb_valset.specs.ValidatorSet.{max_members};
ghost use Rattle.rb_votes.specs.Places.{StandByPlace};
ghost use Rattle.rb_votes.specs.Voters.{power_at};
ghost use Rattle.rb_votes.specs.Votes.{fewest_by};
ghost use Rattle.rb_step.specs.Carried.{power_in, members_of, voters_of, own_needed, trusted_needed, needed_of, needed_voters, carried_votes, least_votes};

use crate::checks::is_adjacent;
use rb_base::{CarriedVotes, Fraction, Height, Options};
use rb_book::Header;
use rb_valset::{Validator, ValidatorSet};
use rb_votes::{Needed, Voter, Voters, sent_count, sent_votes};
use std::alloc::{AllocError, Allocator};

/// How many votes of the header an update carries, and is charged for, on the word of a record at a trusted
/// height. `next` is the set that the record names for the next block, if it is known, and `own` the
/// header's own set. Takes no memory.
pub fn carried_votes<A: Allocator + Copy>(
    options: &Options,
    trusted_height: Height,
    next: Option<&ValidatorSet<A>>,
    header: &Header<A>,
    own: &ValidatorSet<A>,
) -> usize
    requires { IsSignedBy header.now own.now }
    ensures value { result ≡ carried_votes options.now trusted_height (option_copied next.entry) header.now own.now }
    ensures bound { result ≤ length own.now }
{
    match options.votes() {
        CarriedVotes::Commit => header.commits(),
        CarriedVotes::Cast => header.cast(),
        CarriedVotes::Needed => needed_count(options, trusted_height, next, header, own),
    }
}

/// The fewest votes that an update to the header carries, whatever record it trusts.
pub fn least_votes<A: Allocator + Copy>(
    options: &Options,
    header: &Header<A>,
    own: &ValidatorSet<A>,
) -> usize
    requires { IsSignedBy header.now own.now }
    ensures value { result ≡ least_votes options.now header.now own.now }
    ensures bound { result ≤ length own.now }
{
    match options.votes() {
        CarriedVotes::Commit => header.commits(),
        CarriedVotes::Cast => header.cast(),
        CarriedVotes::Needed => least_needed(header, own),
    }
}

/// The fewest votes that an update to the header carries where it carries what is needed.
fn least_needed<A: Allocator + Copy>(header: &Header<A>, own: &ValidatorSet<A>) -> usize
    requires { IsSignedBy header.now own.now }
    ensures { result ≡ length (fewest_by (λ v. v.own) (own_needed own.now) (voters_of None header.now own.now)) }
{
    let needed = Needed {
        own: own_needed(own),
        trusted: 0,
    };
    first_votes(needed, None, header, own).0
}

/// How many votes it takes, of the header's commit votes from the first on, to have the needed power of its own
/// set, and what these lack of the needed power of the other set: by the set's order power falls, so no fewer
/// have it. All of them where they haven't.
fn first_votes<'a, A: Allocator + Copy>(
    needed: Needed,
    next: Option<&'a ValidatorSet<A>>,
    header: &'a Header<A>,
    own: &'a ValidatorSet<A>,
) -> (usize, u64)
    requires { IsSignedBy header.now own.now }
    ensures count { result.0 ≡ length (fewest_by (λ v. v.own) needed.own (voters_of (option_copied next.entry) header.now own.now)) }
    ensures lacking { result.1 ≡ needed.trusted
        - sum_by (λ v. v.trusted) (fewest_by (λ v. v.own) needed.own (voters_of (option_copied next.entry) header.now own.now)) }
{
    let votes = header.votes();
    let mut count = 0;
    let mut left = needed.own;
    let mut lacking = needed.trusted;
    for (place, member) in own.members().iter().enumerate() {
        if left == 0 {
            return (count, lacking);
        }
        if votes[place].is_commit() {
            count += 1;
            left = left.saturating_sub(member.power());
            lacking = lacking.saturating_sub(power_in(next, member, place));
        }
    }
    (count, lacking)
}

/// The least power that is more than two thirds of the set's.
fn own_needed<A: Allocator>(own: &ValidatorSet<A>) -> u64
    ensures { result ≡ own_needed own.now }
{
    Fraction::two_thirds().least_above(own.total())
}

/// The least power of both sets that passes the step's tests.
fn needed_of<A: Allocator + Copy>(
    options: &Options,
    trusted_height: Height,
    next: Option<&ValidatorSet<A>>,
    header: &Header<A>,
    own: &ValidatorSet<A>,
) -> Needed
    ensures { result ≡ needed_of options.now trusted_height (option_copied next.entry) header.now own.now }
{
    Needed {
        own: own_needed(own),
        trusted: trusted_needed(options, trusted_height, next, header),
    }
}

/// The least power of the set that the trusted record names, if it is known, that is more than the trust
/// level; 0 for an adjacent header.
fn trusted_needed<A: Allocator + Copy>(
    options: &Options,
    trusted_height: Height,
    next: Option<&ValidatorSet<A>>,
    header: &Header<A>,
) -> u64
    ensures { result ≡ trusted_needed options.now trusted_height (option_copied next.entry) header.now }
{
    if is_adjacent(trusted_height, header) {
        return 0;
    }
    match next {
        Some(next) => options.trust().least_above(next.total()),
        None => 0,
    }
}

/// The power in the set, if it is known, of the member's address.
fn power_in<A: Allocator + Copy>(
    next: Option<&ValidatorSet<A>>,
    member: &Validator,
    place: usize,
) -> u64
    ensures { result ≡ power_in (option_copied next.entry) member.now }
{
    let trusted = members_of(next);
    match trusted.get(place_in(next, member, place)) {
        Some(found) => found.power(),
        None => 0,
    }
}

/// The members of the set, if it is known.
fn members_of<A: Allocator + Copy>(next: Option<&ValidatorSet<A>>) -> &[Validator]
    ensures { result.now ≡ members_of (option_copied next.entry) }
{
    match next {
        Some(next) => next.members(),
        None => &[],
    }
}

/// The place in the set, if it is known, of the member's address, past its end where it has none. `place` is
/// the member's in its own set: where sets change little it has the same one here, and nothing is looked up.
fn place_in<A: Allocator + Copy>(
    next: Option<&ValidatorSet<A>>,
    member: &Validator,
    place: usize,
) -> usize
    ensures power { power_at (members_of (option_copied next.entry)) result ≡ power_in (option_copied next.entry) member.now }
    ensures bound { result ≤ max_members }
{
    let Some(set) = next else {
        return 0;
    };
    if let Some(same) = set.members().get(place) {
        if same.address() == member.address() {
            return place;
        }
    }
    match set.position(member.address()) {
        Some(found) => found,
        None => set.size(),
    }
}

/// How many votes are carried where an update carries what is needed: the fewest that have the own set's
/// power, where these pass the other test too.
fn needed_count<A: Allocator + Copy>(
    options: &Options,
    trusted_height: Height,
    next: Option<&ValidatorSet<A>>,
    header: &Header<A>,
    own: &ValidatorSet<A>,
) -> usize
    requires { IsSignedBy header.now own.now }
    ensures { result ≡ length (needed_voters options.now trusted_height (option_copied next.entry) header.now own.now) }
{
    let needed = needed_of(options, trusted_height, next, header, own);
    let (count, lacking) = first_votes(needed, next, header, own);
    if lacking == 0 {
        return count;
    }
    let mut voters = Voters::new(own.members(), members_of(next));
    put_voters(&mut voters, next, header, own);
    sent_count(&mut voters, needed)
}

/// Puts the header's commit voters.
fn put_voters<A: Allocator + Copy>(
    voters: &mut Voters<'_>,
    next: Option<&ValidatorSet<A>>,
    header: &Header<A>,
    own: &ValidatorSet<A>,
)
    requires signed { IsSignedBy header.now own.now }
    requires own { voters.old.own ≡ own.now }
    requires trusted { voters.old.trusted ≡ members_of (option_copied next) }
    requires none { voters.old.list ≡ [] }
    ensures voters { voters.new.list ≡ voters_of (option_copied next.entry) header.now own.now }
    ensures places { StandByPlace voters.new.list }
{
    let votes = header.votes();
    let members = own.members();
    for place in 0..own.size() {
        let member = &members[place];
        if votes[place].is_commit() {
            voters.push(place, place_in(next, member, place));
        }
    }
}

/// The voters whose votes an update carries that carries what is needed, by their places.
pub(crate) fn needed_voters<A: Allocator + Copy>(
    alloc: A,
    options: &Options,
    trusted_height: Height,
    next: Option<&ValidatorSet<A>>,
    header: &Header<A>,
    own: &ValidatorSet<A>,
) -> Result<Vec<Voter, A>, AllocError>
    requires { IsSignedBy header.now own.now }
    ensures { IfOk result (λ voters. voters.items ≡ needed_voters options.now trusted_height (option_copied next.entry) header.now own.now) }
{
    let needed = needed_of(options, trusted_height, next, header, own);
    let mut voters = Voters::new(own.members(), members_of(next));
    put_voters(&mut voters, next, header, own);
    sent_votes(alloc, &mut voters, needed)
}
