//! Documents, gathered from an input as it comes.
ghost use Rattle.std.specs.Prelude.{◌≡◌};
ghost use Rattle.rb_follow.specs.Documents.{is_mark};

use std::alloc::{AllocError, Global};
use std::marker::Model;

/// What was read of the document that comes. A document ends by a line `---`, also one that ends by CR and LF;
/// that line isn't a part of it. A contract sees the lines that are whole, and what there is of the last one.
#[derive(Drop)]
pub struct Gathering {
    bytes: Vec<u8>,
    line_start: usize,
}

impl Model for Gathering {
    ghost use Rattle.std.specs.Prelude.{◌≤◌, length, take, drop};
    ghost use Rattle.rb_follow.specs.Documents.{Gathered};

    ghost Value = { Gathered };

    ghost view = { λ g. record { whole = take g.line_start g.bytes.items; line = drop g.line_start g.bytes.items } };

    ghost invariant = { λ g. g.line_start ≤ length g.bytes.items };
}

impl Gathering {
    ghost use Rattle.std.specs.Prelude.{◌≡◌, true, false, [], Ok, IfOk, codes};
    ghost use Rattle.std.specs.Str.{bytes_eq};
    ghost use Rattle.rb_follow.specs.Documents.{nothing_read, is_end, gathered_after, all_read, finished, IsGathered};

    /// Nothing was read.
    pub fn new(alloc: Global) -> Gathering
        ensures { result ≡ nothing_read }
    {
        Gathering {
            bytes: Vec::new(alloc),
            line_start: 0,
        }
    }

    /// Reads one more byte; tells whether the document ends by it.
    fn push(&mut self, byte: u8) -> Result<bool, AllocError>
        ensures ended { IfOk result (λ e. e ≡ is_end self.old byte) }
        ensures more { result ≡ Ok false → self.new ≡ gathered_after self.old byte }
        ensures document { result ≡ Ok true → self.new ≡ record { whole = self.old.whole; line = [] } }
    {
        self.bytes.push(byte)?;
        if byte != b'\n' {
            return Ok(false);
        }
        if is_mark(&self.bytes.as_slice()[self.line_start..]) {
            self.bytes.truncate(self.line_start);
            return Ok(true);
        }
        self.line_start = self.bytes.len();
        Ok(false)
    }

    /// Reads from a piece up to the end of the document, or all of it; of how many bytes the document's end was
    /// the last, if it ends in the piece.
    pub fn gather(&mut self, piece: &[u8]) -> Result<Option<usize>, AllocError>
        ensures { IfOk result (λ end. IsGathered self.old piece.now end self.new) }
    {
        for (place, byte) in piece.iter().enumerate() {
            if self.push(*byte)? {
                return Ok(Some(place + 1));
            }
        }
        Ok(None)
    }

    /// The bytes of the document.
    pub fn document(&self) -> &[u8]
        ensures { result.now ≡ all_read self.now }
    {
        self.bytes.as_slice()
    }

    /// Goes on with the next document.
    pub fn clear(&mut self)
        ensures { self.new ≡ nothing_read }
    {
        self.bytes.clear();
        self.line_start = 0;
    }

    /// Ends a document whose last line is `---` without an end of its own, as of an input that ends there; tells
    /// whether it was.
    pub fn finish(&mut self) -> bool
        ensures last { result ≡ bytes_eq self.old.line (codes "---") }
        ensures finished { self.new ≡ finished self.old }
    {
        if &self.bytes.as_slice()[self.line_start..] == b"---".as_slice() {
            self.bytes.truncate(self.line_start);
            return true;
        }
        false
    }
}

/// Whether a line is the one that ends a document.
fn is_mark(line: &[u8]) -> bool
    ensures { result ≡ is_mark line.now }
{
    line == b"---\n".as_slice() || line == b"---\r\n".as_slice()
}
