//! Writers that fail: what was written before is a beginning of the report, the failure is answered, and it is the last call.
use crate::script::{REPORT, SCRIPT};
use rb_base::{OpenGate, Sink};
use rb_script_toml::RunError;
use rb_text::run_over;
use std::alloc::Global;
use std::io;
use std::io::{ErrorKind, Write};
use std::process::Abort;
use std::sync::{Arc, Wait};
use std::test::Fail;
use std::thread::Threads;

/// A writer that takes at most so many bytes a call, and fails after so many calls: by an error of a kind, or by
/// taking nothing.
#[derive(Drop)]
struct Failing {
    bytes: Vec<u8>,
    most: usize,
    good_calls: usize,
    fault: Option<ErrorKind>,
    calls: usize,
    is_failed: bool,
}

impl Failing {
    ghost use Rattle.std.specs.Prelude.{◌≡◌, false};
    ghost use Rattle.std.specs.Io.{WritesAtMost};

    fn new(alloc: Global, most: usize, fault: Option<ErrorKind>, good_calls: usize) -> Failing
        ensures { result.is_failed ≡ false }
    {
        Failing {
            bytes: Vec::new(alloc),
            most,
            good_calls,
            fault,
            calls: 0,
            is_failed: false,
        }
    }

    fn take(&mut self, piece: &[u8]) -> io::Result<usize>
        ensures { WritesAtMost result piece.now }
    {
        self.calls = self.calls.saturating_add(1);
        if self.calls > self.good_calls {
            return match self.fault {
                Some(kind) => Err(io::Error::from(kind)),
                None => Ok(0),
            };
        }
        let count = piece.len().min(self.most);
        self.bytes.write(&piece[..count])
    }
}

impl Sink for Failing {
    ghost use Rattle.std.specs.Prelude.{◌≡◌, None, false};
    ghost use Rattle.std.specs.Io.{WritesAtMost};
    ghost use Rattle.std.specs.Io.KnownBytes.{WriteAppends};
    ghost use Rattle.rb_base.specs.Sink.{is_failure};

    // The tests compare what it took.
    ghost taken = { λ _. None };

    ghost is_broken = { λ writer. writer.is_failed };

    fn write(&mut self, piece: &[u8]) -> io::Result<usize>
        requires works { self.old.is_failed ≡ false }
        ensures bound { WritesAtMost result piece.now }
        ensures bytes { WriteAppends None None result piece.now }
        ensures failure { self.new.is_failed ≡ is_failure result piece.now }
    {
        let result = self.take(piece);
        self.is_failed = match &result {
            Ok(count) => *count == 0 && !piece.is_empty(),
            Err(_) => true,
        };
        result
    }

    fn failed(&self) -> bool {
        self.is_failed
    }
}

/// How much a call takes, and how the writer fails.
const WRITERS: &[(usize, Option<ErrorKind>)] = &[
    (1, Some(ErrorKind::Interrupted)),
    (1, None),
    (usize::MAX, Some(ErrorKind::BrokenPipe)),
    (usize::MAX, None),
];

/// A writer has taken all of the report, and none of its calls failed.
fn check_whole(rt: &impl Abort, writer: &Failing) {
    let (taken, calls) = (writer.bytes.len(), writer.calls);
    assert!(rt;
        taken == REPORT.len() && calls <= writer.good_calls,
        "{taken} {calls}"
    );
}

/// The call of the writer that failed is the last one, and the run ended with `device`.
fn check_failed(rt: &impl Abort, writer: &Failing, error: RunError) {
    let (taken, calls, good_calls) = (writer.bytes.len(), writer.calls, writer.good_calls);
    let is_device = matches!(error, RunError::Device) && error.status() == 4;
    let is_last = calls == good_calls.saturating_add(1);
    let is_all_before = taken == good_calls || (writer.most > 1 && taken > good_calls);
    assert!(rt;
        is_device && is_last && is_all_before,
        "{good_calls}: {taken} {calls}"
    );
}

/// Runs the script over a writer that fails after so many calls. What it took is a beginning of the report, and all of
/// it where the run ends well; the call that fails is the last one, and the run ends with `device`. Tells whether it
/// ends well.
fn run<R: Threads + Wait + Abort + Copy + Send + Sync + 'static>(
    rt: &R,
    alloc: Global,
    gate: &Arc<OpenGate, Global>,
    (most, fault): (usize, Option<ErrorKind>),
    good_calls: usize,
) -> bool {
    let mut writer = Failing::new(alloc, most, fault, good_calls);
    let ran = run_over(rt, alloc, SCRIPT.as_bytes(), &mut writer, 0, gate);
    let is_beginning = REPORT.as_bytes().starts_with(writer.bytes.as_slice());
    assert!(rt; is_beginning, "{most} {good_calls}");
    match ran {
        Ok(()) => {
            check_whole(rt, &writer);
            true
        }
        Err(error) => {
            check_failed(rt, &writer, error);
            false
        }
    }
}

/// Whether the run ends well after so many good calls, each of which failed in turn before.
fn ends_well<R: Threads + Wait + Abort + Copy + Send + Sync + 'static>(
    rt: &R,
    alloc: Global,
    gate: &Arc<OpenGate, Global>,
    writer: (usize, Option<ErrorKind>),
) -> bool {
    for good_calls in 0..=REPORT.len() {
        if run(rt, alloc, gate, writer, good_calls) {
            return true;
        }
    }
    false
}

#[test]
fn no_writer_is_called_after_it_failed(rt: HostRuntime) -> Result<(), Fail> {
    let alloc = rt.alloc();
    let gate = Arc::new(alloc, OpenGate)?;
    for writer in WRITERS {
        assert!(rt; ends_well(&rt, alloc, &gate, *writer), "{writer:?}");
    }
    Ok(())
}
