//! What is to be fetched next: the files of a folder are read, as far as they are there.
use crate::file_system::FileSystem;
use crate::importing::{add, path_in, tracked_revision};
use crate::left_out::is_tracked;
use ibcplan_cli::{Input, ProgramError, bytes_of};
use rb_import_setup::{ImportSetup, read_setup};
use rb_want::wanted_of;
use rb_want_requests::{Content, Folder, Folders, NextRequests, content_of};
use std::alloc::{AllocError, Global};
use std::fs::File;
use std::{fs, io};

/// The lines that tell what is to be fetched next, and those that tell of which clients no more is asked though they aren't
/// where they should be.
#[derive(Drop)]
pub struct WantedText {
    pub requests: String,
    pub ends: String,
}

/// What is to be fetched next for a setup, by the answers in a folder.
pub fn wanted<'a, R: FileSystem>(
    rt: &R,
    input: &Input<'a>,
    folder: &str,
) -> Result<WantedText, ProgramError<'a>> {
    let setup = match read_setup(rt.alloc(), input.bytes()) {
        Ok(setup) => setup,
        Err(error) => return Err(ProgramError::of_setup(error, input)),
    };
    let folders = read_folders(rt, &setup, folder)?;
    match texts_of(rt.alloc(), &setup, &folders) {
        Ok(texts) => Ok(texts),
        Err(_) => Err(ProgramError::NoMemory),
    }
}

fn texts_of(
    alloc: Global,
    setup: &ImportSetup,
    folders: &Folders,
) -> Result<WantedText, AllocError> {
    let wanted = wanted_of(alloc, setup, folders)?;
    let requests = format!(in alloc; "{wanted}")?;
    let ends = ends_of(alloc, &wanted)?;
    Ok(WantedText { requests, ends })
}

/// A line for each client and each path of which no more is asked.
fn ends_of(alloc: Global, wanted: &NextRequests<'_>) -> Result<String, AllocError> {
    let mut text = String::new(alloc);
    for end in &wanted.ends {
        writeln!(text, "{end}")?;
    }
    for end in &wanted.path_ends {
        writeln!(text, "{end}")?;
    }
    Ok(text)
}

/// Reads what there is of the chains that clients track, of the clients, and of the paths that name both ends of their channels.
fn read_folders<'a, R: FileSystem>(
    rt: &R,
    setup: &ImportSetup,
    folder: &str,
) -> Result<Folders, ProgramError<'a>> {
    Ok(Folders {
        chains: chain_folders(rt, setup, folder)?,
        clients: client_folders(rt, setup, folder)?,
        paths: path_folders(rt, setup, folder)?,
    })
}

fn chain_folders<'a, R: FileSystem>(
    rt: &R,
    setup: &ImportSetup,
    folder: &str,
) -> Result<Vec<Folder>, ProgramError<'a>> {
    let mut folders = Vec::new(rt.alloc());
    for (place, chain) in setup.chains.iter().enumerate() {
        let read = if is_tracked(setup, place) {
            read_folder(rt, folder, chain.as_str(), 0)?
        } else {
            empty(rt.alloc())
        };
        add(&mut folders, read)?;
    }
    Ok(folders)
}

fn client_folders<'a, R: FileSystem>(
    rt: &R,
    setup: &ImportSetup,
    folder: &str,
) -> Result<Vec<Folder>, ProgramError<'a>> {
    let mut folders = Vec::new(rt.alloc());
    for client in &setup.clients {
        let since = tracked_revision(setup.chains.as_slice(), client);
        let read = read_folder(rt, folder, client.id.as_str(), since)?;
        add(&mut folders, read)?;
    }
    Ok(folders)
}

fn path_folders<'a, R: FileSystem>(
    rt: &R,
    setup: &ImportSetup,
    folder: &str,
) -> Result<Vec<Folder>, ProgramError<'a>> {
    let mut folders = Vec::new(rt.alloc());
    for path in &setup.paths {
        let read = if path.counterparty.is_some() {
            read_folder(rt, folder, path.config.id.as_str(), 0)?
        } else {
            empty(rt.alloc())
        };
        add(&mut folders, read)?;
    }
    Ok(folders)
}

/// A folder with nothing in it.
fn empty(alloc: Global) -> Folder {
    Folder {
        contents: Vec::new(alloc),
        refused: Vec::new(alloc),
        searched: Vec::new(alloc),
    }
}

/// Reads what the folder of an identifier holds, of a client's records those of this revision and of later ones; nothing
/// where it isn't there.
fn read_folder<'a, R: FileSystem>(
    rt: &R,
    folder: &str,
    id: &str,
    since: u64,
) -> Result<Folder, ProgramError<'a>> {
    let mut read = empty(rt.alloc());
    let path = path_in(rt.alloc(), folder, id)?;
    let names = match names_in(rt, path.as_str()) {
        Ok(names) => names,
        Err(error) if error.kind() == io::ErrorKind::NotFound => return Ok(read),
        Err(error) => return Err(ProgramError::of_file(rt.alloc(), path.as_str(), error)),
    };
    for name in &names {
        read_named(rt, path.as_str(), name.as_str(), since, &mut read)?;
    }
    Ok(read)
}

/// The names of a folder's files, in the order of their bytes.
fn names_in<R: FileSystem>(rt: &R, path: &str) -> io::Result<Vec<String>> {
    let mut names = Vec::new(rt.alloc());
    for entry in fs::read_dir(rt, path)? {
        let entry = entry?;
        names.push(String::from_str(rt.alloc(), entry.file_name())?)?;
    }
    names.sort_unstable();
    Ok(names)
}

/// Reads a file of a folder, if it is an answer, or keeps its name, if it is that of a request that was refused.
fn read_named<'a, R: FileSystem>(
    rt: &R,
    path: &str,
    name: &str,
    since: u64,
    read: &mut Folder,
) -> Result<(), ProgramError<'a>> {
    if let Some(request) = name.strip_suffix(".refused") {
        return add_name(rt.alloc(), &mut read.refused, request);
    }
    let Some(request) = request_of(name) else {
        return Ok(());
    };
    let file = path_in(rt.alloc(), path, name)?;
    let content = read_content(rt, file.as_str(), request, since)?;
    add_content(rt.alloc(), request, content, read)
}

/// The name of the request that a file of this name answers, if it is an answer.
fn request_of(name: &str) -> Option<&str> {
    if name == "status" {
        Some(name)
    } else {
        name.strip_suffix(".json")
    }
}

/// Reads what the file of a request holds. What there is no memory to read is passed over, as what can't be read is; `import`
/// refuses it by name.
fn read_content<'a, R: FileSystem>(
    rt: &R,
    file: &str,
    request: &str,
    since: u64,
) -> Result<Content, ProgramError<'a>> {
    match bytes_at(rt, file) {
        Ok(bytes) => Ok(contents_of(rt.alloc(), request, bytes.as_slice(), since)),
        Err(error) if error.kind() == io::ErrorKind::OutOfMemory => Ok(Content::Other),
        Err(error) => Err(ProgramError::of_file(rt.alloc(), file, error)),
    }
}

fn bytes_at<R: FileSystem>(rt: &R, path: &str) -> io::Result<Vec<u8>> {
    bytes_of(rt.alloc(), File::open(rt, path)?)
}

fn contents_of(alloc: Global, request: &str, bytes: &[u8], since: u64) -> Content {
    content_of(alloc, request, bytes, since).unwrap_or(Content::Other)
}

/// Adds what the file of a request holds, and the request's name, if it is an answer of a search.
fn add_content<'a>(
    alloc: Global,
    request: &str,
    content: Content,
    read: &mut Folder,
) -> Result<(), ProgramError<'a>> {
    if let Content::Search(_) = &content {
        add_name(alloc, &mut read.searched, request)?;
    }
    add(&mut read.contents, content)
}

/// Adds the name of a request.
fn add_name<'a>(
    alloc: Global,
    names: &mut Vec<String>,
    request: &str,
) -> Result<(), ProgramError<'a>> {
    match String::from_str(alloc, request) {
        Ok(request) => add(names, request),
        Err(_) => Err(ProgramError::NoMemory),
    }
}
