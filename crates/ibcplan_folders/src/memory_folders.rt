//! Folders of answers in memory.
ghost use Rattle.std.specs.Prelude.{◌≡◌, IfOk, Some, filter, find, map, string_bytes};
ghost use Rattle.std.specs.Option.{option_copied};
ghost use Rattle.ibcplan_folders.specs.Memory.{is_at, is_in};

use crate::answer_folders::AnswerFolders;
use std::alloc::{AllocError, Global};
use std::io;

/// A file in a folder.
#[derive(Drop)]
pub struct MemoryFile {
    pub folder: String,
    pub name: String,
    pub bytes: Vec<u8>,
}

/// Files in folders; a folder's answers are in their order here.
#[derive(Drop)]
pub struct MemoryFolders {
    pub alloc: Global,
    pub files: Vec<MemoryFile>,
}

impl AnswerFolders for MemoryFolders {
    ghost use Rattle.std.specs.Prelude.{◌≡◌, IfOk, Some, map, string_bytes};
    ghost use Rattle.ibcplan_folders.specs.Folders.{content, names_in};
    ghost use Rattle.ibcplan_folders.specs.Memory.{known_files};

    ghost known = { λ folders. Some (known_files folders.files.items) };

    fn alloc(&self) -> Global {
        self.alloc
    }

    fn place(&self, folder: &str) -> Result<String, AllocError> {
        String::from_str(self.alloc, folder)
    }

    fn names(&self, folder: &str) -> io::Result<Vec<String>>
        ensures { IfOk result (λ names. map string_bytes names.items ≡ names_in folder.now (known_files self.now.files.items)) }
    {
        Ok(names_of(self.alloc, self.files.as_slice(), folder)?)
    }

    fn read(&self, folder: &str, name: &str) -> io::Result<Vec<u8>>
        ensures { IfOk result (λ bytes. content folder.now name.now (known_files self.now.files.items) ≡ Some bytes.items) }
    {
        match file_at(self.files.as_slice(), folder, name) {
            Some(file) => Ok(Vec::from_slice(self.alloc, file.bytes.as_slice())?),
            None => Err(io::Error::from(io::ErrorKind::NotFound)),
        }
    }
}

/// The names of a folder's files.
#[tactic(auto, using(crate::proofs::Remembered::naming))]
fn names_of(alloc: Global, files: &[MemoryFile], folder: &str) -> Result<Vec<String>, AllocError>
    ensures { IfOk result (λ names. map string_bytes names.items ≡ map (λ f. string_bytes f.name) (filter (is_in folder.now) files.now)) }
{
    let mut names = Vec::new(alloc);
    for file in files {
        if is_in(file, folder) {
            let name = String::from_str(alloc, file.name.as_str())?;
            names.push(name)?;
        }
    }
    Ok(names)
}

/// Whether a file is in a folder.
fn is_in(file: &MemoryFile, folder: &str) -> bool
    ensures { result ≡ is_in folder.now file.now }
{
    file.folder.as_str() == folder
}

/// The first of a folder's files of this name.
fn file_at<'m>(files: &'m [MemoryFile], folder: &str, name: &str) -> Option<&'m MemoryFile>
    ensures { option_copied result ≡ find (is_at folder.now name.now) files.entry.now }
{
    files.iter().find(|file| is_at(file, folder, name))
}

/// Whether a file is in a folder and has this name.
fn is_at(file: &MemoryFile, folder: &str, name: &str) -> bool
    ensures { result ≡ is_at folder.now name.now file.now }
{
    is_in(file, folder) && file.name.as_str() == name
}
