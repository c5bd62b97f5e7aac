//! Marks of a header's commit voters, by which most sets are seen to trust it too little.
ghost use Rattle.std.specs.Prelude.{◌≡◌, ℕ, ◌<◌, ◌↔◌, ◌⊎◌, IsTrue};
ghost use Rattle.rb_book.specs.Header.{IsSignedBy};
ghost use Rattle.rb_cert.specs.Places.{IsMarked};
ghost use Rattle.rb_cert.specs.Voters.{mark_of, AreVoterMarks, RulesOut};

use rb_base::Fraction;
use rb_book::Header;
use rb_valset::ValidatorSet;
use std::alloc::Allocator;

/// The mark of an address: the number of its first two bytes.
fn mark_of(address: &[u8; 20]) -> usize
    ensures value { result ≡ mark_of address.now }
    ensures bound { result < 65536 }
{
    usize::from(address[0]) + 256 * usize::from(address[1])
}

/// The marks of a header's commit voters: a bit for each of 65,536. An address whose mark isn't set
/// is none of theirs.
#[derive(Drop)]
pub(crate) struct VoterMarks {
    pub(crate) words: [u64; 1024],
}

impl VoterMarks {
    /// The marks of the header's commit voters. `own` is its own set.
    pub(crate) fn of<A: Allocator + Copy>(own: &ValidatorSet<A>, header: &Header<A>) -> VoterMarks
        requires { IsSignedBy header.now own.now }
        ensures { AreVoterMarks result.words own.now header.now }
    {
        let votes = header.votes();
        let mut marks = VoterMarks { words: [0; 1024] };
        for (place, member) in own.members().iter().enumerate() {
            if votes[place].is_commit() {
                marks.insert(mark_of(member.address()));
            }
        }
        marks
    }

    /// Whether the mark is set.
    fn contains(&self, mark: usize) -> bool
        requires { mark < 65536 }
        ensures { IsTrue result ↔ IsMarked self.now.words mark }
    {
        self.words[mark / 64] >> (mark % 64) & 1 == 1
    }

    /// Sets the mark.
    fn insert(&mut self, mark: usize)
        requires { mark < 65536 }
        ensures { (m : ℕ) → IsMarked self.new.words m ↔ (IsMarked self.old.words m ⊎ (m ≡ mark)) }
    {
        self.words[mark / 64] |= 1 << (mark % 64);
    }

    /// Whether the marks show that the commit voters hold no more than this part of a set: what
    /// they hold at most falls with each member whose mark isn't set.
    pub(crate) fn rule_out<A: Allocator + Copy>(
        &self,
        trust: Fraction,
        set: &ValidatorSet<A>,
    ) -> bool
        ensures { IsTrue result → RulesOut self.now.words trust set.now }
    {
        let total = set.total();
        let mut most = total;
        for member in set.members() {
            if !self.contains(mark_of(member.address())) {
                most -= member.power();
                if !trust.is_exceeded_by(most, total) {
                    return true;
                }
            }
        }
        false
    }
}
