//! The answer of CometBFT's `/commit`: a header, and each validator's part in its commit.
ghost use Rattle.std.specs.Prelude.{◌≡◌, [], IfOk, map};
ghost use Rattle.serde_json.specs.View.{items_view};
ghost use Rattle.rb_import_json.specs.FieldErrors.{Reads, Gives};
ghost use Rattle.rb_import_json.specs.Fields.{object_view, each};
ghost use Rattle.rb_import_answers.specs.Votes.{flag};
ghost use Rattle.rb_import_answers.specs.Headers.{block, block_view, canonical, cast, of_height, round, signature_of, signed, signed_view, vote};

use crate::header::read_header_fields;
use crate::header_fields::BlockHeader;
use crate::root::root_of;
use rb_base::{ChainId, Height, Moment};
use rb_import_json::{AnswerError, FieldError, FieldErrorName, Key, Object, Segment};
use serde_json::Value;
use std::alloc::{AllocError, Global};

/// The greatest round of a commit.
const MAX_ROUND: u64 = 2_147_483_647;

/// A validator's part in a commit (CometBFT's `block_id_flag`).
#[derive(Clone, Copy)]
pub enum BlockIdFlag {
    /// It didn't vote in time: 1.
    Absent,
    /// It voted for the block: 2.
    Commit,
    /// It voted for no block: 3.
    Nil,
}

impl BlockIdFlag {
    ghost use Rattle.rb_import_answers.specs.Votes.{flag_of};

    /// The flag of this number.
    pub fn of_number(number: u64) -> Option<BlockIdFlag>
        ensures { result ≡ flag_of number }
    {
        match number {
            1 => Some(BlockIdFlag::Absent),
            2 => Some(BlockIdFlag::Commit),
            3 => Some(BlockIdFlag::Nil),
            _ => None,
        }
    }
}

/// A vote: whose it is, when it was given, and its signature, of ed25519 or of secp256k1, which isn't verified.
#[derive(Clone, Copy)]
pub struct Cast {
    pub address: [u8; 20],
    pub time: Moment,
    pub signature: [u8; 64],
}

/// A validator's part in a commit (CometBFT, `CommitSig`).
#[derive(Clone, Copy)]
pub enum CommitVote {
    /// It didn't vote in time.
    Absent,
    /// It voted for the block.
    Commit(Cast),
    /// It voted for no block.
    Nil(Cast),
}

/// What a script needs of a validator's part in a commit: its flag, and the address of the validator, none where it is
/// absent.
#[derive(Clone, Copy)]
pub struct Signature {
    pub flag: BlockIdFlag,
    pub address: Option<[u8; 20]>,
}

/// The block that a commit is for (CometBFT, `BlockID`).
#[derive(Clone, Copy)]
struct Block {
    hash: [u8; 32],
    parts_total: u64,
    parts_hash: [u8; 32],
}

/// A header with its commit (CometBFT, `SignedHeader`). A script needs of it the hashes of the header, of its own set and
/// of the next, the hash of the block that the commit is for, the flags and addresses of the votes in set order, and whether
/// the commit is canonical: the one that the next block has. A message needs all fields of the header, the address of its
/// proposer, the commit's round, the parts of its block, and the votes.
#[derive(Drop)]
pub struct SignedHeader {
    pub chain: ChainId,
    pub height: Height,
    pub time: Moment,
    pub root: [u8; 32],
    pub set: [u8; 32],
    pub next: [u8; 32],
    pub hash: [u8; 32],
    pub block: [u8; 32],
    pub signatures: Vec<Signature>,
    pub is_canonical: bool,
    pub fields: BlockHeader,
    pub proposer: [u8; 20],
    pub round: u64,
    pub parts_total: u64,
    pub parts_hash: [u8; 32],
    pub votes: Vec<CommitVote>,
}

impl SignedHeader {
    ghost use Rattle.rb_import_answers.specs.Headers.{unvoted};

    /// The header without the votes, whose flags and addresses stay.
    pub(crate) fn without_votes(self, alloc: Global) -> SignedHeader
        ensures { signed_view result ≡ unvoted (signed_view self) }
    {
        let mut header = self;
        header.votes = Vec::new(alloc);
        header
    }
}

/// Reads the `result` of an answer of `/commit`.
#[tactic(auto, using(rb_import_json::proofs::Steps::steps), unfolding(crate::specs::Headers::signed))]
pub(crate) fn read_commit(alloc: Global, answer: &Object<'_>) -> Result<SignedHeader, AnswerError>
    ensures { Gives (λ h. signed_view h) result (signed (object_view answer.now)) }
{
    let both = answer.object(Key::SignedHeader, Segment::SignedHeader)?;
    let head = both.object(Key::Header, Segment::Header)?;
    let commit = both.object(Key::Commit, Segment::Commit)?;
    let votes = read_votes(alloc, commit.items(Key::Signatures)?)?;
    let block = read_block(&commit)?;
    let round = read_round(&commit)?;
    let fields = read_header_fields(alloc, &head)?;
    let proposer = head.address(Key::ProposerAddress)?;
    judge_height(&commit, fields.height)?;
    let hash = crate::header_hash(alloc, &fields)?;
    let signatures = signatures_of(alloc, votes.as_slice())?;
    Ok(SignedHeader {
        chain: fields.chain,
        height: fields.height,
        time: fields.time,
        root: root_of(fields.app_hash.as_slice()),
        set: fields.validators_hash,
        next: fields.next_validators_hash,
        hash,
        block: block.hash,
        signatures,
        is_canonical: is_canonical(answer),
        fields,
        proposer,
        round,
        parts_total: block.parts_total,
        parts_hash: block.parts_hash,
        votes,
    })
}

/// Whether a commit is canonical: it is, unless the node says that it isn't, as at its latest height.
#[tactic(auto, unfolding(crate::specs::Headers::canonical))]
fn is_canonical(answer: &Object<'_>) -> bool
    ensures { result ≡ canonical (object_view answer.now) }
{
    match answer.value.get("canonical") {
        Some(said) => said.as_bool().unwrap_or(true),
        None => true,
    }
}

/// The block that a commit is for.
#[tactic(auto, using(rb_import_json::proofs::Steps::steps), unfolding(crate::specs::Headers::block))]
fn read_block(commit: &Object<'_>) -> Result<Block, FieldError>
    ensures { Reads (λ b. block_view b) result (block (object_view commit.now)) }
{
    let id = commit.object(Key::BlockId, Segment::BlockId)?;
    let hash = id.hash(Key::Hash)?;
    let parts = id.inner(Key::Parts)?;
    let parts_total = parts.count(Key::Total)?;
    let parts_hash = parts.hash(Key::Hash)?;
    Ok(Block {
        hash,
        parts_total,
        parts_hash,
    })
}

/// The round of a commit, 0 where it isn't there.
#[tactic(auto, using(rb_import_json::proofs::Steps::steps), unfolding(crate::specs::Headers::round))]
fn read_round(commit: &Object<'_>) -> Result<u64, FieldError>
    ensures { Reads (λ n. n) result (round (object_view commit.now)) }
{
    let round = commit.count(Key::Round)?;
    if round <= MAX_ROUND {
        Ok(round)
    } else {
        Err(commit.flaw(Key::Round, FieldErrorName::WrongType))
    }
}

/// Refuses a commit of another height than the header's.
#[tactic(auto, using(rb_import_json::proofs::Steps::steps), unfolding(crate::specs::Headers::of_height))]
fn judge_height(commit: &Object<'_>, height: Height) -> Result<(), FieldError>
    ensures { Reads (λ u. u) result (of_height height (object_view commit.now)) }
{
    if commit.height(Key::Height)? == height {
        Ok(())
    } else {
        Err(commit.flaw(Key::Height, FieldErrorName::OtherHeight))
    }
}

/// Reads the entries of `signatures`, in order.
#[tactic(auto, using(rb_import_json::proofs::Steps::steps))]
fn read_votes(alloc: Global, items: &[Value]) -> Result<Vec<CommitVote>, AnswerError>
    ensures { Gives (λ v. v.items) result (each vote Segment.Signatures [] (items_view items.now)) }
{
    let mut votes = Vec::with_capacity(alloc, items.len())?;
    for value in items {
        let entry = Object::element(value, Segment::Signatures, votes.len());
        votes.push(read_vote(&entry)?)?;
    }
    Ok(votes)
}

#[tactic(auto, using(rb_import_json::proofs::Steps::steps), unfolding(crate::specs::Headers::vote))]
fn read_vote(entry: &Object<'_>) -> Result<CommitVote, FieldError>
    ensures { Reads (λ v. v) result (vote (object_view entry.now)) }
{
    match read_flag(entry)? {
        BlockIdFlag::Absent => Ok(CommitVote::Absent),
        BlockIdFlag::Commit => Ok(CommitVote::Commit(read_cast(entry)?)),
        BlockIdFlag::Nil => Ok(CommitVote::Nil(read_cast(entry)?)),
    }
}

#[tactic(auto, using(rb_import_json::proofs::Steps::steps), unfolding(crate::specs::Headers::cast))]
fn read_cast(entry: &Object<'_>) -> Result<Cast, FieldError>
    ensures { Reads (λ c. c) result (cast (object_view entry.now)) }
{
    let address = entry.address(Key::ValidatorAddress)?;
    let time = entry.time(Key::Timestamp)?;
    let signature = entry.base64(Key::Signature)?;
    Ok(Cast {
        address,
        time,
        signature,
    })
}

/// What a script needs of the votes, in order.
fn signatures_of(alloc: Global, votes: &[CommitVote]) -> Result<Vec<Signature>, AllocError>
    ensures { IfOk result (λ signatures. signatures.items ≡ map signature_of votes.now) }
{
    let mut signatures = Vec::with_capacity(alloc, votes.len())?;
    for vote in votes {
        signatures.push(signature_of(vote))?;
    }
    Ok(signatures)
}

fn signature_of(vote: &CommitVote) -> Signature
    ensures { result ≡ signature_of vote.now }
{
    let (flag, address) = match vote {
        CommitVote::Absent => (BlockIdFlag::Absent, None),
        CommitVote::Commit(cast) => (BlockIdFlag::Commit, Some(cast.address)),
        CommitVote::Nil(cast) => (BlockIdFlag::Nil, Some(cast.address)),
    };
    Signature { flag, address }
}

#[tactic(auto, using(rb_import_json::proofs::Steps::steps), unfolding(crate::specs::Votes::flag))]
fn read_flag(entry: &Object<'_>) -> Result<BlockIdFlag, FieldError>
    ensures { Reads (λ f. f) result (flag (object_view entry.now)) }
{
    let Some(number) = entry.field(Key::BlockIdFlag)?.as_u64() else {
        return Err(entry.flaw(Key::BlockIdFlag, FieldErrorName::WrongType));
    };
    match BlockIdFlag::of_number(number) {
        Some(flag) => Ok(flag),
        None => Err(entry.flaw(Key::BlockIdFlag, FieldErrorName::BadFlag)),
    }
}
