//! What a relayer knows, as words.
use crate::words::{Unread, Words, Written, write_all, write_digits};
use hex::FromHex;
use rb_base::{Height, Moment, Window};
use rb_batch::Transaction;
use rb_book::{BookError, ChainBook, Header, MAX_RECORDS, Record, RecordAt, SharedBook, Vote};
use rb_core::Snapshot;
use rb_core_state::{ClientSnapshot, OpenBatch, PathSnapshot};
use rb_plan_client::{Batch, Message};
use rb_plan_types::Update;
use rb_scan::{Kind, Packet, PacketMsg, Sequence};
use rb_script_types::{BlockHeight, Goal};
use rb_valset::{PublicKey, Validator, ValidatorSet, ValsetError};
use std::alloc::AllocError;

impl Written for Height {
    fn write(&self, text: &mut String) -> Result<(), AllocError> {
        self.get().write(text)
    }

    fn read(words: &mut Words<'_>) -> Result<Height, Unread> {
        Height::new(words.read::<u64>()?).ok_or(Unread::Wrong)
    }
}

impl Written for BlockHeight {
    fn write(&self, text: &mut String) -> Result<(), AllocError> {
        self.height().write(text)
    }

    fn read(words: &mut Words<'_>) -> Result<BlockHeight, Unread> {
        BlockHeight::new(words.read::<u64>()?).ok_or(Unread::Wrong)
    }
}

impl Written for Sequence {
    fn write(&self, text: &mut String) -> Result<(), AllocError> {
        self.get().write(text)
    }

    fn read(words: &mut Words<'_>) -> Result<Sequence, Unread> {
        Sequence::new(words.read::<u64>()?).ok_or(Unread::Wrong)
    }
}

impl Written for Moment {
    fn write(&self, text: &mut String) -> Result<(), AllocError> {
        self.nanoseconds().write(text)
    }

    fn read(words: &mut Words<'_>) -> Result<Moment, Unread> {
        Moment::new(words.read::<u128>()?).ok_or(Unread::Wrong)
    }
}

impl Written for Window {
    fn write(&self, text: &mut String) -> Result<(), AllocError> {
        self.from().write(text)?;
        self.until().write(text)
    }

    fn read(words: &mut Words<'_>) -> Result<Window, Unread> {
        let from = words.read::<Moment>()?;
        match Window::new(from, words.read::<Moment>()?) {
            Ok(window) => Ok(window),
            Err(_) => Err(Unread::Wrong),
        }
    }
}

impl Written for Validator {
    fn write(&self, text: &mut String) -> Result<(), AllocError> {
        write_digits(text, self.key().as_bytes())?;
        self.power().write(text)
    }

    fn read(words: &mut Words<'_>) -> Result<Validator, Unread> {
        let digits = words.word()?;
        let key = match <[u8; 32] as FromHex>::from_hex(digits) {
            Ok(bytes) => PublicKey::Ed25519(bytes),
            Err(_) => match <[u8; 33] as FromHex>::from_hex(digits) {
                Ok(bytes) => PublicKey::Secp256k1(bytes),
                Err(_) => return Err(Unread::Wrong),
            },
        };
        match Validator::new(key, words.read::<u64>()?) {
            Ok(validator) => Ok(validator),
            Err(_) => Err(Unread::Wrong),
        }
    }
}

impl Written for ValidatorSet {
    fn write(&self, text: &mut String) -> Result<(), AllocError> {
        text.push_str("\n")?;
        write_all(text, self.members())
    }

    fn read(words: &mut Words<'_>) -> Result<ValidatorSet, Unread> {
        let members = words.read::<Vec<Validator>>()?;
        match ValidatorSet::new(words.alloc, members) {
            Ok(set) => Ok(set),
            Err(ValsetError::NoMemory) => Err(Unread::NoMemory),
            Err(_) => Err(Unread::Wrong),
        }
    }
}

impl Written for RecordAt {
    fn write(&self, text: &mut String) -> Result<(), AllocError> {
        text.push_str("\n")?;
        self.height().write(text)?;
        self.record().time().write(text)?;
        self.record().root().write(text)?;
        self.record().next().write(text)
    }

    fn read(words: &mut Words<'_>) -> Result<RecordAt, Unread> {
        let height = words.read::<Height>()?;
        let time = words.read::<Moment>()?;
        let root = words.read::<[u8; 32]>()?;
        let next = words.read::<[u8; 32]>()?;
        Ok(RecordAt::new(height, Record::new(time, root, next)))
    }
}

/// Adds the votes of a header as one word, as in an event.
fn write_votes(text: &mut String, votes: &[Vote]) -> Result<(), AllocError> {
    text.push_str(" ")?;
    for vote in votes {
        text.push_str(match vote {
            Vote::Commit => "C",
            Vote::Nil => "N",
            Vote::Absent => "A",
            Vote::Bad => "B",
        })?;
    }
    Ok(())
}

fn read_votes(words: &mut Words<'_>) -> Result<Vec<Vote>, Unread> {
    let mut votes = Vec::new(words.alloc);
    for letter in words.word()?.as_bytes() {
        votes.push(match *letter {
            b'C' => Vote::Commit,
            b'N' => Vote::Nil,
            b'A' => Vote::Absent,
            _ => return Err(Unread::Wrong),
        })?;
    }
    Ok(votes)
}

/// Adds a header, but for its record.
fn write_header(text: &mut String, header: &Header) -> Result<(), AllocError> {
    text.push_str("\n")?;
    header.height().write(text)?;
    header.set_hash().write(text)?;
    write_votes(text, header.votes())
}

/// Reads a header, whose record a book has.
fn read_header(words: &mut Words<'_>, book: &ChainBook) -> Result<Header, Unread> {
    let height = words.read::<Height>()?;
    let set = words.read::<[u8; 32]>()?;
    let votes = read_votes(words)?;
    match book.record(height) {
        Some(known) => Ok(Header::new(height, *known, set, votes)),
        None => Err(Unread::Wrong),
    }
}

impl Written for Packet {
    fn write(&self, text: &mut String) -> Result<(), AllocError> {
        text.push_str("\n")?;
        self.sequence().write(text)?;
        self.sent().write(text)?;
        self.sent_time().write(text)?;
        self.timeout_height().write(text)?;
        self.timeout_time().write(text)?;
        self.received().write(text)?;
        self.written().write(text)?;
        self.written_time().write(text)?;
        (*self == self.with_cleared()).write(text)?;
        (*self == self.with_receive_settled()).write(text)?;
        (*self == self.with_outcome_settled()).write(text)
    }

    fn read(words: &mut Words<'_>) -> Result<Packet, Unread> {
        let sequence = words.read::<Sequence>()?;
        let sent = words.read::<BlockHeight>()?;
        let sent_time = words.read::<Option<Moment>>()?;
        let timeout_height = words.read::<Option<Height>>()?;
        let timeout_time = words.read::<Option<Moment>>()?;
        let mut packet = Packet::new(
            sequence,
            sent.height(),
            sent_time,
            timeout_height,
            timeout_time,
        );
        if let Some(block) = words.read::<Option<Height>>()? {
            packet = packet.with_received(block);
        }
        let written = words.read::<Option<BlockHeight>>()?;
        let time = words.read::<Option<Moment>>()?;
        if let Some(block) = written {
            packet = packet.with_written(block.height(), time);
        }
        if words.read::<bool>()? {
            packet = packet.with_cleared();
        }
        if words.read::<bool>()? {
            packet = packet.with_receive_settled();
        }
        if words.read::<bool>()? {
            packet = packet.with_outcome_settled();
        }
        Ok(packet)
    }
}

impl From<BookError> for Unread {
    ghost from_gives = { λ _ _. Unit {0} };

    fn from(error: BookError) -> Unread {
        match error {
            BookError::NoMemory => Unread::NoMemory,
            _ => Unread::Wrong,
        }
    }
}

impl Written for SharedBook {
    fn write(&self, text: &mut String) -> Result<(), AllocError> {
        let book = self.book();
        write_all(text, book.sets())?;
        write_all(text, book.records())?;
        book.headers().len().write(text)?;
        for header in book.headers() {
            write_header(text, header)?;
        }
        Ok(())
    }

    fn read(words: &mut Words<'_>) -> Result<SharedBook, Unread> {
        let limit = words.config.limit;
        if limit == 0 || limit > MAX_RECORDS {
            return Err(Unread::Wrong);
        }
        let mut book = ChainBook::with_limit(words.alloc, limit)?;
        for set in words.read::<Vec<ValidatorSet>>()? {
            book.add_set(set)?;
        }
        for known in words.read::<Vec<RecordAt>>()? {
            book.add_record(known.height(), *known.record())?;
        }
        for _ in 0..words.read::<usize>()? {
            let header = read_header(words, &book)?;
            book.add_header(header)?;
        }
        Ok(SharedBook::new(words.alloc, book)?)
    }
}

impl Written for Goal {
    fn write(&self, text: &mut String) -> Result<(), AllocError> {
        text.push_str(match self {
            Goal::Exactly(_) => " exactly",
            Goal::AtLeast(_) => " at_least",
        })?;
        self.height().write(text)
    }

    fn read(words: &mut Words<'_>) -> Result<Goal, Unread> {
        match words.word()? {
            "exactly" => Ok(Goal::Exactly(words.read::<Height>()?)),
            "at_least" => Ok(Goal::AtLeast(words.read::<Height>()?)),
            _ => Err(Unread::Wrong),
        }
    }
}

impl Written for Update {
    fn write(&self, text: &mut String) -> Result<(), AllocError> {
        self.height().write(text)?;
        self.trusted().write(text)
    }

    fn read(words: &mut Words<'_>) -> Result<Update, Unread> {
        let height = words.read::<Height>()?;
        Ok(Update::new(height, words.read::<Height>()?))
    }
}

impl Written for Kind {
    fn write(&self, text: &mut String) -> Result<(), AllocError> {
        text.push_str(match self {
            Kind::Receive => " recv",
            Kind::Acknowledge => " ack",
            Kind::Timeout => " timeout",
        })
    }

    fn read(words: &mut Words<'_>) -> Result<Kind, Unread> {
        match words.word()? {
            "recv" => Ok(Kind::Receive),
            "ack" => Ok(Kind::Acknowledge),
            "timeout" => Ok(Kind::Timeout),
            _ => Err(Unread::Wrong),
        }
    }
}

impl Written for Message {
    fn write(&self, text: &mut String) -> Result<(), AllocError> {
        let packet = self.packet();
        text.push_str("\n")?;
        self.path().write(text)?;
        packet.kind.write(text)?;
        packet.sequence.write(text)?;
        packet.floor.write(text)?;
        packet.expires.write(text)?;
        packet.since.write(text)?;
        packet.timeout.write(text)
    }

    fn read(words: &mut Words<'_>) -> Result<Message, Unread> {
        let path = words.read::<usize>()?;
        let packet = PacketMsg {
            kind: words.read::<Kind>()?,
            sequence: words.read::<Sequence>()?,
            floor: words.read::<Height>()?,
            expires: words.read::<Option<Moment>>()?,
            since: words.read::<Option<Moment>>()?,
            timeout: words.read::<Option<Moment>>()?,
        };
        match words.config.paths.as_slice().get(path) {
            Some(config) => Ok(Message::new(path, config.gas, packet)),
            None => Err(Unread::Wrong),
        }
    }
}

impl Written for Transaction {
    fn write(&self, text: &mut String) -> Result<(), AllocError> {
        self.first.write(text)?;
        self.count.write(text)?;
        self.gas.write(text)
    }

    fn read(words: &mut Words<'_>) -> Result<Transaction, Unread> {
        Ok(Transaction {
            first: words.read::<usize>()?,
            count: words.read::<usize>()?,
            gas: words.read::<u64>()?,
        })
    }
}

impl Written for OpenBatch {
    fn write(&self, text: &mut String) -> Result<(), AllocError> {
        self.number().write(text)?;
        self.proof().write(text)?;
        write_all(text, self.updates())?;
        write_all(text, self.messages())?;
        write_all(text, self.transactions())
    }

    fn read(words: &mut Words<'_>) -> Result<OpenBatch, Unread> {
        let number = words.read::<u64>()?;
        let proof = words.read::<Height>()?;
        let updates = words.read::<Vec<Update>>()?;
        let messages = words.read::<Vec<Message>>()?;
        let batch = Batch::new(proof, words.read::<Vec<Transaction>>()?);
        Ok(OpenBatch::new(number, updates, messages, batch))
    }
}

impl Written for ClientSnapshot {
    fn write(&self, text: &mut String) -> Result<(), AllocError> {
        text.push_str("\n")?;
        self.window.write(text)?;
        self.stored.write(text)?;
        self.asked.write(text)?;
        self.batches.write(text)?;
        self.batch.write(text)
    }

    fn read(words: &mut Words<'_>) -> Result<ClientSnapshot, Unread> {
        Ok(ClientSnapshot {
            window: words.read::<Option<Window>>()?,
            stored: words.read::<Vec<Height>>()?,
            asked: words.read::<Option<Goal>>()?,
            batches: words.read::<u64>()?,
            batch: words.read::<Option<OpenBatch>>()?,
        })
    }
}

impl Written for PathSnapshot {
    fn write(&self, text: &mut String) -> Result<(), AllocError> {
        text.push_str("\n")?;
        self.first.write(text)?;
        self.packets.write(text)?;
        self.closed.write(text)
    }

    fn read(words: &mut Words<'_>) -> Result<PathSnapshot, Unread> {
        Ok(PathSnapshot {
            first: words.read::<Sequence>()?,
            packets: words.read::<Vec<Packet>>()?,
            closed: words.read::<bool>()?,
        })
    }
}

impl Written for Snapshot {
    fn write(&self, text: &mut String) -> Result<(), AllocError> {
        self.window.write(text)?;
        self.books.write(text)?;
        self.clients.write(text)?;
        self.paths.write(text)
    }

    fn read(words: &mut Words<'_>) -> Result<Snapshot, Unread> {
        Ok(Snapshot {
            window: words.read::<Option<Window>>()?,
            books: words.read::<Vec<SharedBook>>()?,
            clients: words.read::<Vec<ClientSnapshot>>()?,
            paths: words.read::<Vec<PathSnapshot>>()?,
        })
    }
}
