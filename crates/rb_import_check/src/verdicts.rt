//! The verdicts on the signatures of a chain's commits.
ghost use Rattle.std.specs.Prelude.{◌≡◌, ◌↔◌, IsTrue, false, length, IfOk, IfErr, OnOk, option_map, option_to_list, string_bytes};
ghost use Rattle.rb_import_check.specs.Errors.{IsAt, IsIn, IsTold, IsToldOf};
ghost use Rattle.rb_import_check.specs.Named.{NamesOf};
ghost use Rattle.rb_import_check.specs.Refusals.{HasReasonOf};
ghost use Rattle.rb_import_check.specs.Verdicts.{AreFound, AreVerdictsOn, IsVerdictOn, HasVotes, TellsOtherVotes, has_verdicts, is_among, is_verdicts, verdict_list, verdicts_of};

use crate::error::{CheckErrorName, ImportError};
use crate::saved::Saved;
use rb_import_answers::{CommitVerdict, NodeAnswer, SignedHeader, Verdicts};
use std::alloc::{AllocError, Global};
use std::collections::BTreeMap;

/// The verdicts of a chain's answers, by its identifier, where there are some: one file at most has them, and they are
/// on this chain.
pub fn verdicts_in<'a>(
    id: &'a str,
    answers: &'a [Saved],
) -> Result<Option<&'a Verdicts>, ImportError<'a>>
    ensures verdicts { IfOk result (λ found. option_to_list (option_map (λ v. v.now) found) ≡ verdicts_of answers.entry.now) }
    ensures chain { OnOk result (AreVerdictsOn id.entry.now answers.entry.now) }
    ensures reason { IfErr result (HasReasonOf id.entry.now answers.entry.now) }
    ensures named { IfErr result (NamesOf id.entry.now answers.entry.now) }
    ensures told { IfErr result (IsToldOf id.entry.now) }
{
    let mut found: Option<(&'a str, &'a Verdicts)> = None;
    for saved in answers {
        if let NodeAnswer::Verdicts(verdicts) = &saved.answer {
            let file = saved.file.as_str();
            if !are_on_chain(verdicts, id) {
                return Err(ImportError::of_other_chain(id, None, file, verdicts.chain.as_str()));
            }
            if let Some((earlier, _)) = found {
                let name = CheckErrorName::TwoAnswers;
                return Err(ImportError::in_files(name, id, earlier, file));
            }
            found = Some((file, verdicts));
        }
    }
    Ok(found.map(|(_, verdicts)| verdicts))
}

/// Whether verdicts are on the chain of an identifier.
fn are_on_chain(verdicts: &Verdicts, id: &str) -> bool
    ensures { IsTrue result ↔ (verdicts.now.chain ≡ id.now) }
{
    verdicts.chain.as_str() == id
}

/// Whether answers hold verdicts.
pub fn has_verdicts(answers: &[Saved]) -> bool
    ensures { result ≡ has_verdicts answers.now }
{
    answers.iter().any(|saved| is_verdicts(&saved.answer))
}

fn is_verdicts(answer: &NodeAnswer) -> bool
    ensures { result ≡ is_verdicts answer.now }
{
    matches!(answer, NodeAnswer::Verdicts(_))
}

/// The verdicts of a chain's answers, where there are some, each found by the SHA-256 of its file.
#[derive(Drop)]
pub struct VerdictIndex<'a> {
    verdicts: Option<&'a Verdicts>,
    places: BTreeMap<[u8; 32], usize>,
    ghost indexed: { AreFound (verdict_list (option_to_list (option_map (λ v. v.now) verdicts))) places },
}

impl<'a> VerdictIndex<'a> {
    /// The index of these verdicts.
    pub fn new(
        alloc: Global,
        verdicts: Option<&'a Verdicts>,
    ) -> Result<VerdictIndex<'a>, AllocError>
        ensures { IfOk result (λ index. option_map (λ v. v.now) index.verdicts ≡ option_map (λ v. v.now) verdicts.entry) }
    {
        let places = places_of(alloc, commits_of(verdicts))?;
        Ok(VerdictIndex { verdicts, places })
    }

    /// A verdict on the file of this SHA-256.
    fn verdict_of(&self, digest: &[u8; 32]) -> Option<&'a CommitVerdict>
        ensures { IsVerdictOn (verdict_list (option_to_list (option_map (λ v. v.now) self.now.verdicts))) digest.now (option_map (λ v. v.now) result) }
    {
        let Some(place) = self.places.get(digest).copied() else {
            return None;
        };
        commits_of(self.verdicts).get(place)
    }
}

/// The place of a verdict on each file, by its SHA-256.
fn places_of(
    alloc: Global,
    verdicts: &[CommitVerdict],
) -> Result<BTreeMap<[u8; 32], usize>, AllocError>
    ensures { IfOk result (AreFound verdicts.now) }
{
    let mut places = BTreeMap::new(alloc);
    for (place, verdict) in verdicts.iter().enumerate() {
        places.insert(verdict.digest, place)?;
    }
    Ok(places)
}

/// The verdicts on commits, none where there are none.
fn commits_of<'a>(verdicts: Option<&'a Verdicts>) -> &'a [CommitVerdict]
    ensures { result.now ≡ verdict_list (option_to_list (option_map (λ v. v.now) verdicts.entry)) }
{
    match verdicts {
        Some(verdicts) => verdicts.commits.as_slice(),
        None => &[],
    }
}

/// The verdict on a header's commit, whose file has this SHA-256, if there is one: it has to tell of as many votes as the
/// commit has.
pub fn verdict_on<'a>(
    id: &'a str,
    index: &VerdictIndex<'a>,
    saved: &'a Saved,
    header: &SignedHeader,
) -> Result<Option<&'a CommitVerdict>, ImportError<'a>>
    ensures verdict { IfOk result (λ verdict. IsVerdictOn (verdict_list (option_to_list (option_map (λ v. v.now) index.now.verdicts))) saved.entry.now.digest (option_map (λ v. v.now) verdict)) }
    ensures votes { IfOk result (λ verdict. HasVotes (length header.now.signatures.items) (option_map (λ v. v.now) verdict)) }
    ensures other { IfErr result (IsTold CheckErrorName.OtherVerdict (TellsOtherVotes (verdict_list (option_to_list (option_map (λ v. v.now) index.now.verdicts))) saved.entry.now.digest (length header.now.signatures.items))) }
    ensures named { IfErr result (λ e. IsAt header.now.height e × IsIn (string_bytes saved.entry.now.file) e) }
    ensures told { IfErr result (IsToldOf id.entry.now) }
{
    let verdict = index.verdict_of(&saved.digest);
    if has_votes(verdict, header.signatures.len() as u64) {
        Ok(verdict)
    } else {
        let name = CheckErrorName::OtherVerdict;
        let file = saved.file.as_str();
        Err(ImportError::at(name, id, header.height.get(), file))
    }
}

/// Whether a verdict, if there is one, tells of so many votes.
fn has_votes(verdict: Option<&CommitVerdict>, votes: u64) -> bool
    ensures { IsTrue result ↔ HasVotes votes (option_map (λ v. v.now) verdict.entry) }
{
    match verdict {
        Some(verdict) => verdict.votes == votes,
        None => true,
    }
}

/// Whether a place is one of these.
pub(crate) fn is_among(places: &[u64], place: u64) -> bool
    ensures { result ≡ is_among places.now place }
{
    places.iter().any(|&other| other == place)
}
