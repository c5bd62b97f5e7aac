//! The journal of a follower in a file: a script of the turns that were answered, from which it goes on after a crash.
ghost use Rattle.std.specs.Prelude.{◌≡◌, OnOk};
ghost use Rattle.std.specs.Vec.Iter.{into_iter_items};
ghost use Rattle.ibcplan.specs.Journals.{AddsEntry, StoresNext};

use crate::host::Host;
use ibcplan_cli::{Input, ProgramError, ShownName};
use rb_follow::{Journal, check_setup};
use rb_journal::{
    damage_in, entry_text, input_of, is_opening, opening_text, split_part, state_in, state_part,
    stored_in,
};
use rb_script_toml::RunError;
use std::alloc::{AllocError, Global};
use std::fs::{File, Files, OpenFile, OpenOptions, TryLockError, rename};
use std::io::{Read, Seek, SeekFrom, Write};
use std::vec::IntoIter;
use std::{io, mem};

/// What to do where the file can't be opened or read.
const UNREAD: &str =
    "Give the path of a file that can be read and written; where SETUP is given, too, a file that isn't there is made.";

/// What to do where the file can't be begun or cut.
const UNWRITTEN: &str = "Nothing is answered. Make room, or give another file.";

/// What an error says where a turn that the file has is refused.
const UNEXPECTED: &str = "a turn of it is refused, or was changed";

/// The journal in a file, which no other process has while this one has it. The first documents that are stored
/// have to be those that the file had already; the others are added to it.
#[derive(Drop)]
pub struct FileJournal<F> {
    alloc: Global,
    file: F,
    /// Whether its parts end with their digests: those of journals that were begun by older releases don't.
    digests: bool,
    past: IntoIter<Vec<u8>>,
}

impl<F: Write + OpenFile> FileJournal<F> {
    /// Stores a turn: the next of those that the file has already, or else one more.
    fn store_turn(&mut self, document: &[u8]) -> io::Result<()>
        ensures { OnOk result (StoresNext self.old.digests document.now (into_iter_items self.old.past) (into_iter_items self.new.past) (F.contents self.old.file) (F.contents self.new.file)) }
    {
        match self.past.next() {
            Some(past) if past.as_slice() == document => Ok(()),
            Some(_) => Err(io::Error::new(io::ErrorKind::InvalidData, UNEXPECTED)),
            None => self.append(document),
        }
    }

    /// Adds a turn, and waits until the disk has it. Each document that reads as TOML has a part.
    fn append(&mut self, document: &[u8]) -> io::Result<()>
        ensures added { OnOk result (AddsEntry self.old.digests document.now (F.contents self.old.file) (F.contents self.new.file)) }
        ensures past { into_iter_items self.new.past ≡ into_iter_items self.old.past }
    {
        match entry_text(self.alloc, self.digests, document) {
            Ok(entry) => {
                self.file.write_all(entry.as_slice())?;
                self.file.sync_data()
            }
            Err(_) => Err(io::Error::from(io::ErrorKind::OutOfMemory)),
        }
    }
}

/// The same, which is begun anew where it is long.
#[derive(Drop)]
pub struct LongJournal<R> {
    rt: R,
    path: String,
    opening: Vec<u8>,
    stored: FileJournal<File>,
    /// From which length on it is begun anew, if there is a state.
    long: u64,
    next: Option<Beginning>,
    /// The file before, which stays locked: who had opened it before its name went to another finds it in use.
    before: Option<File>,
}

/// What a journal is to begin with anew: the part of a state, the batches that are open in it, by client, and how long the
/// file was then.
#[derive(Drop)]
struct Beginning {
    part: String,
    batches: Vec<u64>,
    length: u64,
}

impl<R: Files<File = File> + Eprint> LongJournal<R> {
    /// What it can begin with anew, if it is then half as long at most.
    fn beginning(&mut self, state: &str, batches: Vec<u64>) -> io::Result<Option<Beginning>> {
        let Ok(part) = state_part(self.stored.alloc, state) else {
            return Err(io::Error::from(io::ErrorKind::OutOfMemory));
        };
        let length = self.stored.file.metadata()?.len();
        self.long = twice(part.len(), self.opening.len());
        if length < self.long {
            return Ok(None);
        }
        Ok(Some(Beginning {
            part,
            batches,
            length,
        }))
    }

    /// Writes a file that takes the place of this one: a state, the setup, and the turns after the state.
    fn put(&mut self, next: &Beginning) -> io::Result<File> {
        let Ok(name) = format!(in self.stored.alloc; "{}.new", self.path) else {
            return Err(io::Error::from(io::ErrorKind::OutOfMemory));
        };
        let mut options = OpenOptions::new();
        options.read(true).append(true).create(true);
        let mut file = options.open(&self.rt, name.as_str())?;
        if file.try_lock().is_err() {
            return Err(io::Error::new(io::ErrorKind::Other, "another process has it"));
        }
        self.stored.file.seek(SeekFrom::Start(next.length))?;
        let turns = content(self.stored.alloc, &mut self.stored.file)?;
        file.set_len(0)?;
        file.write_all(next.part.as_bytes())?;
        file.write_all(self.opening.as_slice())?;
        file.write_all(turns.as_slice())?;
        file.sync_all()?;
        rename(&self.rt, name.as_str(), self.path.as_str())?;
        Ok(file)
    }

    /// Goes on with the file that took the place of the one before.
    fn go_on(&mut self, file: File) -> io::Result<()> {
        self.before = Some(mem::replace(&mut self.stored.file, file));
        File::open(&self.rt, folder_of(self.path.as_str()))?.sync_all()
    }

    /// Tells why it isn't begun anew.
    fn tell(&self, error: &io::Error) {
        let shown = ShownName {
            name: self.path.as_str(),
        };
        let _ = eprintln!(&self.rt; "{shown}: not begun anew: {error}");
    }
}

impl<R: Files<File = File> + Eprint> Journal for LongJournal<R> {
    ghost use Rattle.std.specs.Prelude.{None};

    ghost documents = { λ _. None };

    fn store(&mut self, document: &[u8]) -> io::Result<()> {
        self.stored.store_turn(without_number(document))
    }

    /// Not again before it is twice as long.
    fn is_long(&mut self) -> bool {
        let stored = &self.stored;
        if self.next.is_some() || !stored.digests || stored.past.len() > 0 {
            return false;
        }
        match stored.file.metadata() {
            Ok(metadata) if metadata.len() >= self.long => {
                self.long = metadata.len().saturating_mul(2);
                true
            }
            _ => false,
        }
    }

    fn remember(&mut self, state: Option<&str>, batches: Vec<u64>) {
        let next = match state {
            Some(state) => self.beginning(state, batches),
            None => Err(io::Error::new(io::ErrorKind::InvalidData, "its state can't be written")),
        };
        match next {
            Ok(next) => self.next = next,
            Err(error) => self.tell(&error),
        }
    }

    fn batches(&self) -> Option<&[u64]> {
        Some(self.next.as_ref()?.batches.as_slice())
    }

    fn renew(&mut self) -> io::Result<()> {
        let Some(next) = self.next.take() else {
            return Ok(());
        };
        match self.put(&next) {
            Ok(file) => self.go_on(file),
            Err(error) => {
                self.tell(&error);
                Ok(())
            }
        }
    }
}

/// Twice as many bytes as both are.
fn twice(part: usize, opening: usize) -> u64 {
    (part.saturating_add(opening) as u64).saturating_mul(2)
}

/// A document without the number that it may begin with: a turn of a script has none.
fn without_number(document: &[u8]) -> &[u8] {
    let Some(rest) = document.strip_prefix(b"turn = ".as_slice()) else {
        return document;
    };
    match rest.iter().position(|byte| !byte.is_ascii_digit()) {
        Some(end) if end > 0 => &rest[end..],
        _ => document,
    }
}

/// A journal that was opened, the state that it goes on from, if it was begun anew, the setup that it begins with, and
/// the documents that it has, as an input.
#[derive(Drop)]
pub struct OpenedJournal<'a, R> {
    pub journal: LongJournal<R>,
    pub state: Option<String>,
    pub setup: Input<'a>,
    pub past: Vec<u8>,
}

/// Opens the journal in a file. With a setup the file is begun where it isn't there, and else has to have this
/// setup; without one the file has to be there. What stands behind its last whole turn is cut off: that turn was
/// never answered.
pub fn open_journal<'a, R: Host>(
    rt: &R,
    setup: Option<Input<'a>>,
    path: &'a str,
) -> Result<OpenedJournal<'a, R>, ProgramError<'a>> {
    let input = match setup {
        Some(setup) => Some(checked(rt, setup)?),
        None => None,
    };
    let mut file = opened(rt, path, input.is_some())?;
    let bytes = match content(rt.alloc(), &mut file) {
        Ok(bytes) => bytes,
        Err(error) => return Err(failed(path, error, UNREAD)),
    };
    let digests = !is_opening(false, bytes.as_slice());
    let opening = match &input {
        Some(input) => Some(opening_of(rt, digests, input)?),
        None => None,
    };
    let (state, rest) = split_state(rt, path, bytes.as_slice())?;
    if digests && (state.is_some() || is_opening(true, rest)) {
        check_digests(rt, path, bytes.as_slice())?;
    }
    match split_part(rest) {
        Some((first, turns)) => {
            check_opening(path, digests, first, &opening)?;
            gone_on(rt, path, file, digests, state, first, turns)
        }
        None if state.is_some() => Err(no_journal(path, "it isn't a journal")),
        None => begun(rt, path, file, digests, rest, opening),
    }
}

/// The state that a journal goes on from, if it was begun anew, and what stands behind it.
fn split_state<'a, 'b, R: Host>(
    rt: &R,
    path: &'a str,
    bytes: &'b [u8],
) -> Result<(Option<String>, &'b [u8]), ProgramError<'a>> {
    let Some((part, rest)) = split_part(bytes) else {
        return Ok((None, bytes));
    };
    let Some(state) = state_in(part) else {
        return Ok((None, bytes));
    };
    match str::from_utf8(state) {
        Ok(state) => match String::from_str(rt.alloc(), state) {
            Ok(state) => Ok((Some(state), rest)),
            Err(_) => Err(ProgramError::NoMemory),
        },
        Err(_) => Err(no_journal(path, "it isn't a journal")),
    }
}

/// Whether each part of a journal is as it was written.
fn check_digests<'a, R: Host>(rt: &R, path: &'a str, bytes: &[u8]) -> Result<(), ProgramError<'a>> {
    match damage_in(rt.alloc(), bytes) {
        Ok(None) => Ok(()),
        Ok(Some(place)) => Err(ProgramError::DamagedJournal {
            file: ShownName { name: path },
            place,
        }),
        Err(_) => Err(ProgramError::NoMemory),
    }
}

/// The setup, if a journal may begin with it.
fn checked<'a, R: Host>(rt: &R, setup: Input<'a>) -> Result<Input<'a>, ProgramError<'a>> {
    match check_setup(rt.alloc(), setup.bytes()) {
        Ok(()) => Ok(setup),
        Err(error) => Err(ProgramError::of_run(error, &setup)),
    }
}

/// The first part of a journal with this setup.
fn opening_of<'a, R: Host>(
    rt: &R,
    digests: bool,
    setup: &Input<'a>,
) -> Result<String, ProgramError<'a>> {
    match opening_text(rt.alloc(), digests, setup.bytes()) {
        Ok(opening) => Ok(opening),
        Err(error) => Err(ProgramError::of_run(error, setup)),
    }
}

/// The file, to be read and to be added to, which this process alone has.
fn opened<'a, R: Host>(rt: &R, path: &'a str, may_begin: bool) -> Result<File, ProgramError<'a>> {
    let mut options = OpenOptions::new();
    options.read(true).append(true).create(may_begin);
    let file = match options.open(rt, path) {
        Ok(file) => file,
        Err(error) => return Err(failed(path, error, UNREAD)),
    };
    match file.metadata() {
        Ok(metadata) if metadata.is_file() => {}
        Ok(_) => return Err(no_journal(path, "it isn't a regular file")),
        Err(error) => return Err(failed(path, error, UNREAD)),
    }
    match file.try_lock() {
        Ok(()) => Ok(file),
        Err(TryLockError::WouldBlock) => Err(no_journal(path, "another process has it")),
        Err(TryLockError::Error(error)) => Err(failed(path, error, UNREAD)),
    }
}

fn content(alloc: Global, file: &mut File) -> io::Result<Vec<u8>> {
    let mut bytes = Vec::new(alloc);
    file.read_to_end(&mut bytes)?;
    Ok(bytes)
}

/// Whether the first part of a journal is the one that is wanted, or one at all.
fn check_opening<'a>(
    path: &'a str,
    digests: bool,
    first: &[u8],
    opening: &Option<String>,
) -> Result<(), ProgramError<'a>> {
    if !is_opening(digests, first) {
        return Err(no_journal(path, "it isn't a journal"));
    }
    match opening {
        Some(opening) if opening.as_bytes() != first => {
            Err(no_journal(path, "it was begun with another setup"))
        }
        _ => Ok(()),
    }
}

/// Begins a journal in a file that is empty, or was begun with the same setup and was cut.
fn begun<'a, R: Host>(
    rt: &R,
    path: &'a str,
    file: File,
    digests: bool,
    bytes: &[u8],
    opening: Option<String>,
) -> Result<OpenedJournal<'a, R>, ProgramError<'a>> {
    let Some(opening) = opening else {
        return Err(no_journal(path, "it has no setup: give SETUP, too"));
    };
    if !opening.as_bytes().starts_with(bytes) {
        return Err(no_journal(path, "it isn't a journal"));
    }
    let mut file = file;
    match write_opening(&mut file, opening.as_str()) {
        Ok(()) => {
            let past = Vec::new(rt.alloc());
            settled(rt, path, file, digests, None, opening.as_bytes(), past)
        }
        Err(error) => Err(failed(path, error, UNWRITTEN)),
    }
}

/// Writes the first part of a journal.
fn write_opening(file: &mut File, opening: &str) -> io::Result<()> {
    file.set_len(0)?;
    file.write_all(opening.as_bytes())
}

/// Waits until the disk has the file and its name.
fn settle<R: Host>(rt: &R, path: &str, file: &File) -> io::Result<()> {
    file.sync_all()?;
    File::open(rt, folder_of(path))?.sync_all()
}

/// The folder in which a file is.
fn folder_of(path: &str) -> &str {
    match path.rsplit_once('/') {
        Some(("", _)) => "/",
        Some((folder, _)) => folder,
        None => ".",
    }
}

/// Goes on from a journal with this first part, and turns behind it.
fn gone_on<'a, R: Host>(
    rt: &R,
    path: &'a str,
    file: File,
    digests: bool,
    state: Option<String>,
    opening: &[u8],
    turns: &[u8],
) -> Result<OpenedJournal<'a, R>, ProgramError<'a>> {
    let stored = match stored_in(rt.alloc(), digests, turns) {
        Ok(stored) => stored,
        Err(RunError::Fault(_)) => return Err(no_journal(path, "a part of it isn't a turn")),
        Err(_) => return Err(ProgramError::NoMemory),
    };
    let cut = stored.cut;
    if cut > 0 {
        if let Err(error) = cut_off(&file, cut as u64) {
            return Err(failed(path, error, UNWRITTEN));
        }
        let shown = ShownName { name: path };
        let _ = eprintln!(rt;
            "{shown}: the last {cut} bytes are left out: a turn that wasn't answered"
        );
    }
    settled(rt, path, file, digests, state, opening, stored.documents)
}

/// Cuts off the last bytes of a file.
fn cut_off(file: &File, count: u64) -> io::Result<()> {
    file.set_len(file.metadata()?.len().saturating_sub(count))
}

/// A journal that goes on behind these documents, which the disk has: they may have been written and not synced.
fn settled<'a, R: Host>(
    rt: &R,
    path: &'a str,
    file: File,
    digests: bool,
    state: Option<String>,
    opening: &[u8],
    documents: Vec<Vec<u8>>,
) -> Result<OpenedJournal<'a, R>, ProgramError<'a>> {
    if let Err(error) = settle(rt, path, &file) {
        return Err(failed(path, error, UNWRITTEN));
    }
    match going_on(rt, path, file, digests, state, opening, documents) {
        Ok(opened) => Ok(opened),
        Err(_) => Err(ProgramError::NoMemory),
    }
}

/// The same, which the disk has.
fn going_on<'a, R: Host>(
    rt: &R,
    path: &'a str,
    file: File,
    digests: bool,
    state: Option<String>,
    opening: &[u8],
    documents: Vec<Vec<u8>>,
) -> Result<OpenedJournal<'a, R>, AllocError> {
    let alloc = rt.alloc();
    let length = match &state {
        Some(state) => state.len(),
        None => 0,
    };
    let setup = Input::beginning(path, Vec::from_slice(alloc, opening)?);
    let past = input_of(alloc, documents.as_slice())?;
    let journal = LongJournal {
        rt: *rt,
        path: String::from_str(alloc, path)?,
        opening: Vec::from_slice(alloc, opening)?,
        stored: FileJournal {
            alloc,
            file,
            digests,
            past: documents.into_iter(),
        },
        long: twice(length, opening.len()),
        next: None,
        before: None,
    };
    Ok(OpenedJournal {
        journal,
        state,
        setup,
        past,
    })
}

fn failed<'a>(path: &'a str, error: io::Error, advice: &'static str) -> ProgramError<'a> {
    ProgramError::of_journal(ShownName { name: path }, error, advice)
}

fn no_journal<'a>(path: &'a str, reason: &'static str) -> ProgramError<'a> {
    ProgramError::NoJournal {
        file: ShownName { name: path },
        reason,
    }
}
