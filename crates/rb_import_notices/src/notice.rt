//! Notices: what isn't among answers that make a script, what isn't written of them, and what can't be used or isn't sure. The
//! script is written all the same, but updates may be missed.
ghost use Rattle.std.specs.Prelude.{◌≡◌, ◌++◌, option_to_list, IfOk, OnOk};
ghost use Rattle.rb_import_notices.specs.Whole.{AreNoticesOf, notices_at, notices_of_kind, notices_of_kinds, places};

use crate::canonical::not_canonical;
use crate::channels::{other_channel, sources_of};
use crate::counterparties::{ends_of, sent_to_several};
use crate::excess::{too_many_headers, too_many_packets, too_many_records, too_many_sets};
use crate::headers::{missing_headers, missing_sets, unsigned_headers};
use crate::latest::missing_latest;
use crate::missing::{NextSets, missing_next_set};
use crate::packets::{add_packets, lack_name, lack_remedy, lack_words, more_packets};
use crate::pages::missing_states;
use crate::passed::{Others, others_of_chain, others_of_client, others_of_path};
use crate::shown::Shown;
use crate::stale::nothing_fresh;
use crate::unsearched::{lacking_names, missing_searches};
use crate::unusable::{
    Expired, future_headers, last_goals, nothing_trusted, unseen_goal, wanted_height,
};
use crate::verified::{not_verified, unverified_commits};
use rb_import_check::SavedAnswers;
use rb_import_merge::{PacketLack, Searches, SeenSetup, Surplus, answers_at};
use rb_import_setup::ImportSetup;
use std::alloc::{AllocError, Global};
use std::fmt;
use thiserror::Error;

/// A notice: the place in the setup of the chain, the client, the path or the goal that it is about, and numbers.
#[derive(Clone, Copy)]
pub enum Notice {
    /// A chain that a client tracks, of which no header is written.
    MissingHeaders {
        chain: usize,
    },
    /// A chain of which so many headers are left out, since no answers make their validator sets, and the greatest height of
    /// these.
    MissingSets {
        chain: usize,
        headers: usize,
        highest: u64,
    },
    /// A chain of which so many headers are left out, since not more than two thirds of their validators signed them, and
    /// the greatest height of these.
    UnsignedHeaders {
        chain: usize,
        headers: usize,
        highest: u64,
    },
    /// A chain of whose headers so many are left out, since its book has no room for more.
    TooManyHeaders {
        chain: usize,
        left_out: usize,
    },
    /// A chain of whose sets so many are left out, since its book has no room for more, and with them so many headers.
    TooManySets {
        chain: usize,
        left_out: usize,
        headers: usize,
    },
    /// A client of whose stored records so many are left out, since the book of the chain that it tracks has no room for
    /// more.
    TooManyRecords {
        client: usize,
        left_out: usize,
    },
    /// A path, and the packets of it for which it has no room.
    TooManyPackets {
        path: usize,
        surplus: Surplus,
    },
    /// A path, and one of its packets that is left out: what it lacks, and the place of the answer that tells of it.
    PacketLeftOut {
        path: usize,
        sequence: u64,
        lack: PacketLack,
        answer: Option<usize>,
    },
    /// A path, how many of its packets are left out beside those that are told one by one, and the least sequence of these.
    MorePackets {
        path: usize,
        packets: usize,
        first: u64,
    },
    /// A client none of whose records is trusted to the window's end: each of so many has expired by then.
    NothingTrusted {
        client: usize,
        expired: usize,
    },
    /// A client: so many headers of the chain that it tracks, from a height on, are ahead of the window's first moment by
    /// its clock drift or more, so that it takes none of them throughout the window.
    FutureHeaders {
        client: usize,
        headers: usize,
        lowest: u64,
    },
    /// A goal of the last turn: no header of the chain that its client tracks is of a height that the goal wants, nor is a
    /// stored record.
    UnseenGoal {
        goal: usize,
    },
    /// A client that is due for a refresh by the window's end: each header of the chain that it tracks is too old to serve.
    NothingFresh {
        client: usize,
    },
    /// A client of whose written records some could be of use to a plan and name a next set that isn't written, so that no
    /// update starts from them. No answer has the sets of `unseen` of them, that of the highest of which is of height `next`;
    /// those of `left_out` of them were seen, and the chain's book has no room for them.
    MissingNextSet {
        client: usize,
        unseen: usize,
        next: Option<u64>,
        left_out: usize,
    },
    /// A client, and the latest height that its state names, of which no answer has the record. Each update stores one (ICS
    /// 7), so that the state and the records are of two moments or of two nodes, or pages of consensus states are missing.
    MissingLatest {
        client: usize,
        height: u64,
    },
    /// A client, and the first page of its consensus states that isn't among its answers, although a later one is.
    MissingStates {
        client: usize,
        page: u64,
    },
    /// A path some of whose packets may be pending, and what its answers tell nothing of; fewer answers are empty than
    /// searches for that.
    MissingSearches {
        path: usize,
        searches: Searches,
    },
    /// A path of which the setup doesn't name the counterparty, and packets from its source were sent to several
    /// destinations.
    SeveralCounterparties {
        path: usize,
    },
    /// A path whose answers tell of packets, but of none from the source that the setup names.
    OtherChannel {
        path: usize,
    },
    /// A chain, how many of its commits aren't canonical, and the greatest height of these. A node answers so of its newest
    /// block, whose commit isn't in a next block yet; it has the votes that came in time to that node (CometBFT, `/commit`).
    NotCanonical {
        chain: usize,
        commits: usize,
        highest: u64,
    },
    /// A chain whose answers hold verdicts, and of how many of its headers they have none.
    NotVerified {
        chain: usize,
        headers: usize,
    },
    /// A chain whose answers hold no verdicts, and which has headers.
    UnverifiedCommits {
        chain: usize,
    },
    /// A chain some of whose answers are to queries that aren't needed.
    OthersOfChain {
        chain: usize,
    },
    /// A client some of whose answers are.
    OthersOfClient {
        client: usize,
    },
    /// A path some of whose answers are.
    OthersOfPath {
        path: usize,
    },
}

/// All notices of a setup and of its answers, in the order in which they are told. Shown as a line each.
#[derive(Drop)]
pub struct Notices<'a> {
    pub setup: &'a ImportSetup,
    pub answers: &'a SavedAnswers,
    pub list: Vec<Notice>,
}

impl fmt::Display for Notices<'_> {
    fn fmt<W: fmt::Write>(&self, f: &mut fmt::Formatter<W>) -> fmt::Result {
        for notice in &self.list {
            let line = self.line_of(*notice);
            writeln!(f, "{line}")?;
        }
        Ok(())
    }
}

/// A notice as a line, with the names of what it is about.
#[derive(Clone, Copy, Error)]
enum Line<'a> {
    #[error("notice MissingHeaders at {chain}: no header of it is written, so that there is nothing to update to; fetch /commit and /validators of some heights into files *.json of the folder {chain}")]
    MissingHeaders {
        chain: &'a str,
    },
    #[error("notice MissingSets at {chain} {highest}: {headers} headers, this the highest, are left out, since no answers have all validators of their sets; fetch all pages of /validators?height={highest}&per_page=100 into files *.json of the folder {chain}")]
    MissingSets {
        chain: &'a str,
        headers: usize,
        highest: u64,
    },
    #[error("notice UnsignedHeaders at {chain} {highest}: {headers} headers, this the highest, are left out, since the votes that count for them are not more than two thirds of their validators' power; fetch /commit?height={highest} again, from another node if it stays; with --verified run tools/verify_commits first")]
    UnsignedHeaders {
        chain: &'a str,
        headers: usize,
        highest: u64,
    },
    #[error("notice TooManyHeaders at {chain}: {left_out} of its headers, the lowest, are left out; a light store holds 4,096 consensus states")]
    TooManyHeaders {
        chain: &'a str,
        left_out: usize,
    },
    #[error("notice TooManySets at {chain}: {left_out} of its validator sets, the lowest, are left out, with {headers} headers of them; a light store holds 1,024 sets")]
    TooManySets {
        chain: &'a str,
        left_out: usize,
        headers: usize,
    },
    #[error("notice TooManyRecords at {client}: {left_out} of its stored consensus states, the lowest, are left out; a light store holds 4,096 consensus states")]
    TooManyRecords {
        client: &'a str,
        left_out: usize,
    },
    #[error("notice TooManyPackets at {path}: {count} of its packets, from {first} on, are left out, since a path holds 4,096; if all packets before {fitting} are finished, give the path first = {fitting} in the setup")]
    TooManyPackets {
        path: &'a str,
        count: usize,
        first: u64,
        fitting: u64,
    },
    #[error("notice {name} at {path} {sequence}: {file}: {words}, so that it is left out, on an ordered path with those behind it; fetch {remedy} into files *.json of the folder {path}")]
    PacketLeftOut {
        path: &'a str,
        sequence: u64,
        file: &'a str,
        name: &'static str,
        words: &'static str,
        remedy: &'static str,
    },
    #[error("notice MorePackets at {path} {first}: {packets} more packets, this the first, are left out alike")]
    MorePackets {
        path: &'a str,
        packets: usize,
        first: u64,
    },
    #[error("notice NothingTrusted at {client}: {expired}, so that no update starts from any; see whether the window is right, or fetch the client's consensus states again into files *.json of the folder {client}")]
    NothingTrusted {
        client: &'a str,
        expired: Expired,
    },
    #[error("notice FutureHeaders at {client} {lowest}: headers of {chain} from this height on, {headers} of them, are ahead of the window's first moment by the client's clock drift or more, so that no update takes them; let the window begin later")]
    FutureHeaders {
        client: &'a str,
        chain: &'a str,
        headers: usize,
        lowest: u64,
    },
    #[error("notice UnseenGoal at {client} {height}: {chain} has no header {which} height, so that no update reaches it; fetch /commit?height={height} and all pages of /validators?height={height}&per_page=100 into files *.json of the folder {chain}")]
    UnseenGoal {
        client: &'a str,
        chain: &'a str,
        height: u64,
        which: &'static str,
    },
    #[error("notice NothingFresh at {client}: its consensus states are due for a refresh by the window's end, and no header of {chain} is young enough for it, so that none is planned; fetch /commit and /validators of later heights into files *.json of the folder {chain}")]
    NothingFresh {
        client: &'a str,
        chain: &'a str,
    },
    #[error("notice MissingNextSet at {client}: no update starts from stored consensus states without their next validators{sets}")]
    MissingNextSet {
        client: &'a str,
        sets: NextSets<'a>,
    },
    #[error("notice MissingLatest at {client} {height}: the client's latest height is not among its stored consensus states, so that its answers are of two moments or of two nodes, or pages of consensus states are missing; fetch client_states and all pages of consensus_states of the client again, from one node, into files *.json of the folder {client}")]
    MissingLatest {
        client: &'a str,
        height: u64,
    },
    #[error("notice MissingStates at {client} {page}: the answers have a later page of the client's consensus states, and not this one; delete the files consensus_states-*.json of higher numbers in the folder {client}, and fetch the pages from this one on")]
    MissingStates {
        client: &'a str,
        page: u64,
    },
    #[error("notice MissingSearches at {path}: no answer of /tx_search tells of{names}, nor is there an empty answer to each such search; nothing is planned for packets that aren't seen as sent, and those that aren't seen as received or cleared are planned again; fetch all pages of /tx_search into files *.json of the folder {path}")]
    MissingSearches {
        path: &'a str,
        names: &'static str,
    },
    #[error("notice SeveralCounterparties at {path}: packets were sent from its source to several destinations: those to {taken} are taken, those to others, as {other}, are passed over; write counterparty_port and counterparty_channel, beside port and channel, into the setup's path, so that they decide")]
    SeveralCounterparties {
        path: &'a str,
        taken: Shown<'a>,
        other: Shown<'a>,
    },
    #[error("notice OtherChannel at {path}: the answers tell of packets of {told}, none of {named}; see the path's port and channel")]
    OtherChannel {
        path: &'a str,
        told: Shown<'a>,
        named: Shown<'a>,
    },
    #[error("notice NotCanonical at {chain} {highest}: {commits} commits, this the highest, are not canonical yet, since the node had no next block; the chain may store more votes of them, so that an update costs more; fetch /commit?height={highest} again, in place of that answer")]
    NotCanonical {
        chain: &'a str,
        commits: usize,
        highest: u64,
    },
    #[error("notice NotVerified at {chain}: verdicts.json has no verdict on the commits of {headers} headers, so that their signatures were not verified; run tools/verify_commits again")]
    NotVerified {
        chain: &'a str,
        headers: usize,
    },
    #[error("notice UnverifiedCommits at {chain}: its folder has no verdicts.json, so that signatures count as the node gave them; run tools/verify_commits, and import with --verified")]
    UnverifiedCommits {
        chain: &'a str,
    },
    #[error("notice PassedOver at {object}: answers that aren't needed:{others}")]
    PassedOver {
        object: &'a str,
        others: Others<'a>,
    },
}

impl fmt::Debug for Line<'_> {
    fn fmt<W: fmt::Write>(&self, f: &mut fmt::Formatter<W>) -> fmt::Result {
        fmt::Display::fmt(self, f)
    }
}

impl<'a> Notices<'a> {
    /// The line of a notice.
    fn line_of(&self, notice: Notice) -> Line<'a> {
        match notice {
            Notice::MissingHeaders { chain } => Line::MissingHeaders {
                chain: self.chain(chain),
            },
            Notice::MissingSets {
                chain,
                headers,
                highest,
            } => Line::MissingSets {
                chain: self.chain(chain),
                headers,
                highest,
            },
            Notice::UnsignedHeaders {
                chain,
                headers,
                highest,
            } => Line::UnsignedHeaders {
                chain: self.chain(chain),
                headers,
                highest,
            },
            Notice::TooManyHeaders { chain, left_out } => Line::TooManyHeaders {
                chain: self.chain(chain),
                left_out,
            },
            Notice::TooManySets {
                chain,
                left_out,
                headers,
            } => Line::TooManySets {
                chain: self.chain(chain),
                left_out,
                headers,
            },
            Notice::TooManyRecords { client, left_out } => Line::TooManyRecords {
                client: self.client(client),
                left_out,
            },
            Notice::TooManyPackets { path, surplus } => Line::TooManyPackets {
                path: self.path(path),
                count: surplus.count,
                first: surplus.first,
                fitting: surplus.fitting_from,
            },
            Notice::PacketLeftOut {
                path,
                sequence,
                lack,
                answer,
            } => Line::PacketLeftOut {
                path: self.path(path),
                sequence,
                file: self.file(path, answer),
                name: lack_name(lack),
                words: lack_words(lack),
                remedy: lack_remedy(lack),
            },
            Notice::MorePackets {
                path,
                packets,
                first,
            } => Line::MorePackets {
                path: self.path(path),
                packets,
                first,
            },
            Notice::NothingTrusted { client, expired } => Line::NothingTrusted {
                client: self.client(client),
                expired: Expired { records: expired },
            },
            Notice::FutureHeaders {
                client,
                headers,
                lowest,
            } => Line::FutureHeaders {
                client: self.client(client),
                chain: self.tracked(client),
                headers,
                lowest,
            },
            Notice::UnseenGoal { goal } => self.goal(goal),
            Notice::NothingFresh { client } => Line::NothingFresh {
                client: self.client(client),
                chain: self.tracked(client),
            },
            Notice::MissingNextSet {
                client,
                unseen,
                next,
                left_out,
            } => Line::MissingNextSet {
                client: self.client(client),
                sets: NextSets {
                    chain: self.tracked(client),
                    unseen,
                    next,
                    left_out,
                },
            },
            Notice::MissingLatest { client, height } => Line::MissingLatest {
                client: self.client(client),
                height,
            },
            Notice::MissingStates { client, page } => Line::MissingStates {
                client: self.client(client),
                page,
            },
            Notice::MissingSearches { path, searches } => Line::MissingSearches {
                path: self.path(path),
                names: lacking_names(searches),
            },
            Notice::SeveralCounterparties { path } => self.counterparties(path),
            Notice::OtherChannel { path } => self.sources(path),
            Notice::NotCanonical {
                chain,
                commits,
                highest,
            } => Line::NotCanonical {
                chain: self.chain(chain),
                commits,
                highest,
            },
            Notice::NotVerified { chain, headers } => Line::NotVerified {
                chain: self.chain(chain),
                headers,
            },
            Notice::UnverifiedCommits { chain } => Line::UnverifiedCommits {
                chain: self.chain(chain),
            },
            Notice::OthersOfChain { chain } => Line::PassedOver {
                object: self.chain(chain),
                others: Others {
                    answers: answers_at(&self.answers.chains, chain),
                },
            },
            Notice::OthersOfClient { client } => Line::PassedOver {
                object: self.client(client),
                others: Others {
                    answers: answers_at(&self.answers.clients, client),
                },
            },
            Notice::OthersOfPath { path } => Line::PassedOver {
                object: self.path(path),
                others: Others {
                    answers: answers_at(&self.answers.paths, path),
                },
            },
        }
    }

    /// The identifier of the chain at a place.
    fn chain(&self, place: usize) -> &'a str {
        match self.setup.chains.get(place) {
            Some(id) => id.as_str(),
            None => "",
        }
    }

    /// The identifier of the client at a place.
    fn client(&self, place: usize) -> &'a str {
        match self.setup.clients.get(place) {
            Some(client) => client.id.as_str(),
            None => "",
        }
    }

    /// The identifier of the chain that the client at a place tracks.
    fn tracked(&self, place: usize) -> &'a str {
        match self.setup.clients.get(place) {
            Some(client) => self.chain(client.tracks),
            None => "",
        }
    }

    /// The identifier of the path at a place.
    fn path(&self, place: usize) -> &'a str {
        match self.setup.paths.get(place) {
            Some(path) => path.config.id.as_str(),
            None => "",
        }
    }

    /// The name of the file of an answer on the path at a place.
    fn file(&self, path: usize, answer: Option<usize>) -> &'a str {
        let Some(place) = answer else {
            return "";
        };
        match answers_at(&self.answers.paths, path).get(place) {
            Some(saved) => saved.file.as_str(),
            None => "",
        }
    }

    /// The line of the goal at a place in the last turn.
    fn goal(&self, place: usize) -> Line<'a> {
        let (client, chain, height, which) = match last_goals(self.setup).get(place) {
            Some(asked) => {
                let (height, which) = wanted_height(asked.goal);
                let client = self.client(asked.client);
                let chain = self.tracked(asked.client);
                (client, chain, height, which)
            }
            None => ("", "", 0, ""),
        };
        Line::UnseenGoal {
            client,
            chain,
            height,
            which,
        }
    }

    /// The line of a path from whose source packets were sent to several destinations.
    fn counterparties(&self, place: usize) -> Line<'a> {
        let (taken, other) = match self.setup.paths.get(place) {
            Some(path) => ends_of(path, answers_at(&self.answers.paths, place)),
            None => ("", ""),
        };
        Line::SeveralCounterparties {
            path: self.path(place),
            taken: Shown { text: taken },
            other: Shown { text: other },
        }
    }

    /// The line of a path whose answers tell of packets of another source.
    fn sources(&self, place: usize) -> Line<'a> {
        let (named, told) = match self.setup.paths.get(place) {
            Some(path) => sources_of(path, answers_at(&self.answers.paths, place)),
            None => ("", ""),
        };
        Line::OtherChannel {
            path: self.path(place),
            told: Shown { text: told },
            named: Shown { text: named },
        }
    }
}

/// What a notice is about: a chain, a client or a path of the setup, or a goal of its last turn.
#[derive(Clone, Copy)]
enum Subject {
    Chain,
    Client,
    Path,
    Goal,
}

/// A kind of notices.
#[derive(Clone, Copy)]
enum Kind {
    MissingHeaders,
    MissingSets,
    UnsignedHeaders,
    TooManyHeaders,
    TooManySets,
    TooManyRecords,
    TooManyPackets,
    PacketLeftOut,
    MorePackets,
    NothingTrusted,
    FutureHeaders,
    UnseenGoal,
    NothingFresh,
    MissingNextSet,
    MissingLatest,
    MissingStates,
    MissingSearches,
    SeveralCounterparties,
    OtherChannel,
    NotCanonical,
    NotVerified,
    UnverifiedCommits,
    OthersOfChain,
    OthersOfClient,
    OthersOfPath,
}

/// All kinds, in the order in which they are told, and what each is about.
const KINDS: [(Subject, Kind); 25] = [
    (Subject::Chain, Kind::MissingHeaders),
    (Subject::Chain, Kind::MissingSets),
    (Subject::Chain, Kind::UnsignedHeaders),
    (Subject::Chain, Kind::TooManyHeaders),
    (Subject::Chain, Kind::TooManySets),
    (Subject::Client, Kind::TooManyRecords),
    (Subject::Path, Kind::TooManyPackets),
    (Subject::Path, Kind::PacketLeftOut),
    (Subject::Path, Kind::MorePackets),
    (Subject::Client, Kind::NothingTrusted),
    (Subject::Client, Kind::FutureHeaders),
    (Subject::Goal, Kind::UnseenGoal),
    (Subject::Client, Kind::NothingFresh),
    (Subject::Client, Kind::MissingNextSet),
    (Subject::Client, Kind::MissingLatest),
    (Subject::Client, Kind::MissingStates),
    (Subject::Path, Kind::MissingSearches),
    (Subject::Path, Kind::SeveralCounterparties),
    (Subject::Path, Kind::OtherChannel),
    (Subject::Chain, Kind::NotCanonical),
    (Subject::Chain, Kind::NotVerified),
    (Subject::Chain, Kind::UnverifiedCommits),
    (Subject::Chain, Kind::OthersOfChain),
    (Subject::Client, Kind::OthersOfClient),
    (Subject::Path, Kind::OthersOfPath),
];

/// Adds the notices of a setup, of its answers and of what was seen in them.
#[derive(Clone, Copy)]
struct NoticeSources<'a, 'b> {
    setup: &'a ImportSetup,
    answers: &'a SavedAnswers,
    seen: &'b SeenSetup<'a>,
}

/// What isn't among the answers of which this was seen, what isn't written of it, and what can't be used or isn't sure.
/// `AllocError` comes where a growth is refused.
pub fn notices_of<'a>(
    alloc: Global,
    setup: &'a ImportSetup,
    answers: &'a SavedAnswers,
    seen: &SeenSetup<'a>,
) -> Result<Notices<'a>, AllocError>
    ensures { IfOk result (AreNoticesOf setup.entry.now answers.entry.now seen.now) }
{
    let told = NoticeSources {
        setup,
        answers,
        seen,
    };
    let list = told.of_kinds(alloc, &KINDS)?;
    Ok(Notices {
        setup,
        answers,
        list,
    })
}

impl NoticeSources<'_, '_> {
    /// The notices of these kinds, one kind behind the other.
    fn of_kinds(&self, alloc: Global, kinds: &[(Subject, Kind)]) -> Result<Vec<Notice>, AllocError>
        ensures { IfOk result (λ list. list.items ≡ notices_of_kinds self.now.setup.now self.now.answers.now self.now.seen.now kinds.now) }
    {
        let mut list = Vec::new(alloc);
        for &(subject, kind) in kinds {
            self.add_kind(alloc, subject, kind, &mut list)?;
        }
        Ok(list)
    }

    /// Adds the notices of a kind, in the order of the setup.
    fn add_kind(
        &self,
        alloc: Global,
        subject: Subject,
        kind: Kind,
        list: &mut Vec<Notice>,
    ) -> Result<(), AllocError>
        ensures { OnOk result (list.new.items ≡ list.old.items ++ notices_of_kind self.now.setup.now self.now.answers.now self.now.seen.now (subject, kind)) }
    {
        for place in 0..places(self.setup, subject) {
            self.add_at(alloc, kind, place, list)?;
        }
        Ok(())
    }

    /// Adds the notices of a kind on the subject at a place.
    fn add_at(
        &self,
        alloc: Global,
        kind: Kind,
        place: usize,
        list: &mut Vec<Notice>,
    ) -> Result<(), AllocError>
        ensures { OnOk result (list.new.items ≡ list.old.items ++ notices_at self.now.setup.now self.now.answers.now self.now.seen.now kind place) }
    {
        let NoticeSources {
            setup,
            answers,
            seen,
        } = *self;
        match kind {
            Kind::MissingHeaders => add(missing_headers(setup, seen, place), list),
            Kind::MissingSets => add(missing_sets(seen, place), list),
            Kind::UnsignedHeaders => add(unsigned_headers(seen, place), list),
            Kind::TooManyHeaders => add(too_many_headers(seen, place), list),
            Kind::TooManySets => add(too_many_sets(seen, place), list),
            Kind::TooManyRecords => add(too_many_records(seen, place), list),
            Kind::TooManyPackets => add(too_many_packets(seen, place), list),
            Kind::PacketLeftOut => add_packets(answers, seen, place, list),
            Kind::MorePackets => add(more_packets(seen, place), list),
            Kind::NothingTrusted => add(nothing_trusted(setup, seen, place), list),
            Kind::FutureHeaders => add(future_headers(setup, seen, place), list),
            Kind::UnseenGoal => add(unseen_goal(setup, seen, place), list),
            Kind::NothingFresh => add(nothing_fresh(setup, seen, place), list),
            Kind::MissingNextSet => add(missing_next_set(setup, seen, place), list),
            Kind::MissingLatest => add(missing_latest(seen, place), list),
            Kind::MissingStates => add(missing_states(alloc, answers, place)?, list),
            Kind::MissingSearches => add(missing_searches(setup, answers, place), list),
            Kind::SeveralCounterparties => add(sent_to_several(setup, answers, place), list),
            Kind::OtherChannel => add(other_channel(setup, answers, place), list),
            Kind::NotCanonical => add(not_canonical(seen, place), list),
            Kind::NotVerified => add(not_verified(answers, seen, place), list),
            Kind::UnverifiedCommits => add(unverified_commits(answers, seen, place), list),
            Kind::OthersOfChain => add(others_of_chain(answers, place), list),
            Kind::OthersOfClient => add(others_of_client(answers, place), list),
            Kind::OthersOfPath => add(others_of_path(answers, place), list),
        }
    }
}

/// How many subjects of a sort there are.
fn places(setup: &ImportSetup, subject: Subject) -> usize
    ensures { result ≡ places setup.now subject }
{
    match subject {
        Subject::Chain => setup.chains.len(),
        Subject::Client => setup.clients.len(),
        Subject::Path => setup.paths.len(),
        Subject::Goal => last_goals(setup).len(),
    }
}

/// Adds a notice, if one is due.
fn add(due: Option<Notice>, list: &mut Vec<Notice>) -> Result<(), AllocError>
    ensures { OnOk result (list.new.items ≡ list.old.items ++ option_to_list due) }
{
    if let Some(notice) = due {
        list.push(notice)?;
    }
    Ok(())
}
