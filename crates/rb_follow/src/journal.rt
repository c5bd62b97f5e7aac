//! Where documents that were accepted are stored.
ghost use Rattle.std.specs.Prelude.{◌≡◌, ℕ, List, Option, OnOk, OnErr};
ghost use Rattle.rb_follow.specs.Journals.{Stores};

use std::io;

/// Where documents that were accepted are stored before they are answered, so that what was answered is there
/// after a crash.
pub trait Journal {
    // The documents that it has stored for good, in their order, where they are known.
    ghost documents: { Self → Option (List (List ℕ)) };

    /// Stores one more document for good. After an error it may be there or not, or in part, and the journal
    /// must not be called again.
    fn store(&mut self, document: &[u8]) -> io::Result<()>
        ensures stored { OnOk result (Stores (documents self.old) (documents self.new) document.now) }
        ensures same { OnErr result (documents self.new ≡ documents self.old) };

    /// Whether it is so long that it is to remember a state, by which it can be begun anew.
    fn is_long(&mut self) -> bool
        ensures { documents self.new ≡ documents self.old };

    /// Remembers a state that its documents lead to, if there is one, and the numbers of the batches that are open in it, by
    /// client; 0 where none is.
    fn remember(&mut self, state: Option<&str>, batches: Vec<u64>)
        ensures { documents self.new ≡ documents self.old };

    /// The batches that are open in the state that it remembers.
    fn batches(&self) -> Option<&[u64]>;

    /// Begins anew with that state in place of the documents that led to it. After an error the journal must not be called
    /// again.
    fn renew(&mut self) -> io::Result<()>
        ensures { documents self.new ≡ documents self.old };
}

/// No journal: nothing is stored.
#[derive(Clone, Copy)]
pub struct NoJournal;

impl Journal for NoJournal {
    ghost use Rattle.std.specs.Prelude.{None};

    ghost documents = { λ _. None };

    fn store(&mut self, _document: &[u8]) -> io::Result<()> {
        Ok(())
    }

    fn is_long(&mut self) -> bool {
        false
    }

    fn remember(&mut self, _state: Option<&str>, _batches: Vec<u64>) {}

    fn batches(&self) -> Option<&[u64]> {
        None
    }

    fn renew(&mut self) -> io::Result<()> {
        Ok(())
    }
}
