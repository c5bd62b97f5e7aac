//! Why a writer failed, to be told once nothing more is written.
use rb_base::Sink;
use std::io;

/// A sink that keeps the error of the write that failed.
#[derive(Drop)]
pub struct Explained<W> {
    inner: W,
    error: Option<io::Error>,
}

impl<W: Sink> Explained<W> {
    ghost use Rattle.std.specs.Prelude.{◌≡◌};
    ghost use Rattle.ibcplan_cli.specs.Explanations.{explained_sink};

    /// This sink, of which no write has failed yet.
    pub fn new(inner: W) -> Explained<W>
        ensures { explained_sink result ≡ inner }
    {
        Explained { inner, error: None }
    }

    /// The error of the last write that failed, unless that took nothing and gave none.
    pub fn error(&self) -> Option<io::Error> {
        self.error
    }

    /// The sink.
    pub fn into_inner(self) -> W
        ensures { result ≡ explained_sink self }
    {
        let Explained { inner, error: _ } = self;
        inner
    }
}

impl<W: Sink> Sink for Explained<W> {
    ghost use Rattle.ibcplan_cli.specs.Explanations.{explained_sink};

    ghost taken = { λ sink. W.taken (explained_sink sink) };

    ghost is_broken = { λ sink. W.is_broken (explained_sink sink) };

    fn write(&mut self, piece: &[u8]) -> io::Result<usize> {
        let result = self.inner.write(piece);
        if let Err(error) = &result {
            self.error = Some(*error);
        }
        result
    }

    fn failed(&self) -> bool {
        self.inner.failed()
    }
}
