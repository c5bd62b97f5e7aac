//! The writer that a report goes to, and how a text is written to it whole.
ghost use Rattle.std.specs.Prelude.{◌≡◌, ℕ, List, Option, Bool, true, false, OnOk, OnErr};
ghost use Rattle.std.specs.Io.{WritesAtMost};
ghost use Rattle.std.specs.Io.KnownBytes.{Appends, WriteAppends};
ghost use Rattle.rb_base.specs.Sink.{is_failure, AppendsBeginning};

use std::io;
use std::io::Write;

/// A writer that knows for good whether a write of it has failed: by an error, or by taking
/// nothing of a piece that isn't empty.
pub trait Sink {
    // The bytes that the writer took, where they are known.
    ghost taken: { Self → Option (List ℕ) };

    // Whether a write has failed.
    ghost is_broken: { Self → Bool };

    /// Writes a beginning of `piece`, and answers its length in bytes. A writer of which a write has
    /// failed must not be called again.
    fn write(&mut self, piece: &[u8]) -> io::Result<usize>
        requires works { is_broken self.old ≡ false }
        ensures bound { WritesAtMost result piece.now }
        ensures bytes { WriteAppends (taken self.old) (taken self.new) result piece.now }
        ensures failure { is_broken self.new ≡ is_failure result piece.now };

    /// Whether a write has failed.
    fn failed(&self) -> bool
        ensures { result ≡ is_broken self.now };
}

/// Makes any writer a `Sink`, and counts the bytes that it takes.
#[derive(Drop)]
pub struct Counted<W> {
    inner: W,
    count: u64,
    failed: bool,
}

impl<W: Write> Counted<W> {
    ghost use Rattle.std.specs.Prelude.{◌≡◌, false};
    ghost use Rattle.rb_base.specs.Counted.{counted_bytes, counted_number, counted_failed};

    /// A sink over this writer, which has taken no byte and not failed.
    pub fn new(inner: W) -> Counted<W>
        ensures bytes { counted_bytes W.contents result ≡ W.contents inner }
        ensures count { counted_number result ≡ 0 }
        ensures works { counted_failed result ≡ false }
    {
        Counted {
            inner,
            count: 0,
            failed: false,
        }
    }

    /// How many bytes were taken, up to 2^64 - 1.
    pub fn count(&self) -> u64
        ensures { result ≡ counted_number self.now }
    {
        self.count
    }

    /// The writer.
    pub fn into_inner(self) -> W
        ensures { W.contents result ≡ counted_bytes W.contents self }
    {
        let Counted {
            inner,
            count: _,
            failed: _,
        } = self;
        inner
    }
}

impl<W: Write> Sink for Counted<W> {
    ghost use Rattle.std.specs.Prelude.{◌≡◌, false};
    ghost use Rattle.std.specs.Io.{WritesAtMost};
    ghost use Rattle.std.specs.Io.KnownBytes.{WriteAppends};
    ghost use Rattle.rb_base.specs.Sink.{is_failure};
    ghost use Rattle.rb_base.specs.Counted.{counted_bytes, counted_number, counted_failed, number_after};

    ghost taken = { counted_bytes W.contents };

    ghost is_broken = { counted_failed };

    fn write(&mut self, piece: &[u8]) -> io::Result<usize>
        requires works { counted_failed self.old ≡ false }
        ensures bound { WritesAtMost result piece.now }
        ensures bytes { WriteAppends (counted_bytes W.contents self.old) (counted_bytes W.contents self.new) result piece.now }
        ensures failure { counted_failed self.new ≡ is_failure result piece.now }
        ensures count { counted_number self.new ≡ number_after (counted_number self.old) result }
    {
        let result = self.inner.write(piece);
        match &result {
            Ok(taken) => {
                self.count = self.count.saturating_add(*taken as u64);
                if *taken == 0 && !piece.is_empty() {
                    self.failed = true;
                }
            }
            Err(_) => self.failed = true,
        }
        result
    }

    fn failed(&self) -> bool {
        self.failed
    }
}

/// A write of the sink failed.
#[derive(Clone, Copy, PartialEq, Eq)]
pub struct Device;

/// Writes all of the bytes, in as many writes as the sink takes them in. After a write that failed the
/// sink is not called again, as `Sink::write` demands. After `Device` a beginning of the bytes was
/// taken.
pub fn write_whole<W: Sink>(writer: &mut W, bytes: &[u8]) -> Result<(), Device>
    requires works { W.is_broken writer.old ≡ false }
    ensures written { OnOk result (Appends (W.taken writer.old) (W.taken writer.new) bytes.now) }
    ensures works { OnOk result (W.is_broken writer.new ≡ false) }
    ensures begun { OnErr result (AppendsBeginning (W.taken writer.old) (W.taken writer.new) bytes.now) }
    ensures failed { OnErr result (W.is_broken writer.new ≡ true) }
{
    let mut written = 0;
    while written < bytes.len() {
        match writer.write(&bytes[written..]) {
            Ok(count) if count > 0 => written += count,
            _ => return Err(Device),
        }
    }
    Ok(())
}
