//! Where the answers of nodes stand: in folders on the host, or in memory.
ghost use Rattle.std.specs.Prelude.{◌≡◌, List, Option, Some, IfOk, map, string_bytes};
ghost use Rattle.ibcplan_folders.specs.Folders.{AnswerFile, OfKnown, content, names_in};

use crate::file_system::FileSystem;
use ibcplan_cli::bytes_of;
use std::alloc::{AllocError, Global};
use std::fs::File;
use std::{fs, io};

/// Folders of answers, and memory for what they hold.
pub trait AnswerFolders {
    // The files, where they are known.
    ghost known: { Self → Option (List AnswerFile) };

    /// The memory.
    fn alloc(&self) -> Global;

    /// What to call a folder.
    fn place(&self, folder: &str) -> Result<String, AllocError>;

    /// The names of the answers in a folder.
    fn names(&self, folder: &str) -> io::Result<Vec<String>>
        ensures { IfOk result (λ names. OfKnown (known self.now) (λ files. map string_bytes names.items ≡ names_in folder.now files)) };

    /// The bytes of a folder's file of this name.
    fn read(&self, folder: &str, name: &str) -> io::Result<Vec<u8>>
        ensures { IfOk result (λ bytes. OfKnown (known self.now) (λ files. content folder.now name.now files ≡ Some bytes.items)) };
}

/// The folders in a folder of the host, of which no contract knows the bytes.
#[derive(Clone, Copy)]
pub struct HostFolders<'r, R> {
    pub rt: &'r R,
    pub folder: &'r str,
}

impl<'r, R: FileSystem> AnswerFolders for HostFolders<'r, R> {
    ghost use Rattle.std.specs.Prelude.{None};

    ghost known = { λ _. None };

    fn alloc(&self) -> Global {
        self.rt.alloc()
    }

    fn place(&self, folder: &str) -> Result<String, AllocError> {
        path_of(self.rt.alloc(), self.folder, folder)
    }

    /// The names of the files `*.json`, in the order of their bytes.
    fn names(&self, folder: &str) -> io::Result<Vec<String>> {
        let path = self.place(folder)?;
        let mut names = Vec::new(self.rt.alloc());
        for entry in fs::read_dir(self.rt, path.as_str())? {
            let entry = entry?;
            if entry.file_name().ends_with(".json") {
                names.push(String::from_str(self.rt.alloc(), entry.file_name())?)?;
            }
        }
        names.sort_unstable();
        Ok(names)
    }

    fn read(&self, folder: &str, name: &str) -> io::Result<Vec<u8>> {
        let path = self.place(folder)?;
        let file = path_of(self.rt.alloc(), path.as_str(), name)?;
        bytes_of(self.rt.alloc(), File::open(self.rt, file.as_str())?)
    }
}

/// The path of what a folder has under a name.
fn path_of(alloc: Global, folder: &str, name: &str) -> Result<String, AllocError> {
    format!(in alloc; "{folder}/{name}")
}
