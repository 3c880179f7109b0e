//! Readers and writers that fail.
use fold_app::{FoldFault, fold};
use std::alloc::Global;
use std::io;
use std::io::{Error, ErrorKind, Read, Write};
use std::process::Abort;

/// A reader that gives some bytes, then one answer for good, or once and then its end.
#[derive(Drop)]
struct Source {
    left: u64,
    then: Option<ErrorKind>,
    once: bool,
}

impl Read for Source {
    fn read(&mut self, buf: &mut [u8]) -> io::Result<usize> {
        if self.left == 0 {
            let then = self.then;
            if self.once {
                self.then = None;
            }
            return match then {
                None => Ok(0),
                Some(kind) => Err(Error::from(kind)),
            };
        }
        let count = if self.left < buf.len() as u64 {
            self.left as usize
        } else {
            buf.len()
        };
        self.left -= count as u64;
        for b in buf[..count].iter_mut() {
            *b = b'\n';
        }
        Ok(count)
    }
}

/// What is wrong with a fold of what a reader gives, whose output is appended.
fn fault(alloc: Global, source: &mut Source, output: &mut Vec<u8>) -> Option<FoldFault> {
    fold(alloc, source, output).err()
}

/// Whether a fold of what a reader gives ends so, and writes nothing.
fn ends_so(alloc: Global, mut source: Source, want: Option<FoldFault>) -> bool {
    let mut output = Vec::new(alloc);
    fault(alloc, &mut source, &mut output) == want && output.is_empty()
}

/// How many bytes a reader gives, what it answers then, whether only once, and what is wrong.
type Reading = (u64, Option<ErrorKind>, bool, Option<FoldFault>);

const READINGS: &[Reading] = &[
    // A reader fails for good.
    (
        0,
        Some(ErrorKind::Interrupted),
        false,
        Some(FoldFault::Read),
    ),
    (70, Some(ErrorKind::TimedOut), false, Some(FoldFault::Read)),
    // A reader fails once.
    (0, Some(ErrorKind::TimedOut), true, Some(FoldFault::Read)),
    (0, Some(ErrorKind::WouldBlock), true, Some(FoldFault::Read)),
    (0, Some(ErrorKind::Interrupted), true, None),
];

/// Folds of what these readers give end so, and write nothing.
fn check_readings(rt: &impl Abort, alloc: Global) {
    for (left, then, once, want) in READINGS {
        let source = Source {
            left: *left,
            then: *then,
            once: *once,
        };
        assert!(rt; ends_so(alloc, source, *want));
    }
}

/// A writer that takes so many bytes, and then none, and whose flush may fail.
#[derive(Drop)]
struct Sink {
    room: usize,
    flushes: bool,
}

impl Write for Sink {
    fn write(&mut self, buf: &[u8]) -> io::Result<usize> {
        if self.room == 0 {
            return Err(Error::from(ErrorKind::BrokenPipe));
        }
        let count = self.room.min(buf.len());
        self.room -= count;
        Ok(count)
    }

    fn flush(&mut self) -> io::Result<()> {
        if self.flushes {
            Ok(())
        } else {
            Err(Error::from(ErrorKind::BrokenPipe))
        }
    }
}

/// A request, which is answered by 15 bytes.
const ATTACH: &[u8] = b"0101000000000000000100000000000000010000000000000001000000006553f10001\n";

/// What is wrong with a fold of a request into a writer.
fn written(alloc: Global, mut sink: Sink) -> Option<FoldFault> {
    let mut reader = ATTACH;
    fold(alloc, &mut reader, &mut sink).err()
}

/// How many bytes a writer takes, whether its flush succeeds, and what is wrong.
const SINKS: &[(usize, bool, Option<FoldFault>)] = &[
    (0, true, Some(FoldFault::Write)),
    (14, true, Some(FoldFault::Write)),
    (15, true, None),
    (15, false, Some(FoldFault::Write)),
];

#[test]
fn what_is_not_read_or_written_whole_is_a_fault(rt: HostRuntime) {
    check_readings(&rt, rt.alloc());
    for (room, flushes, want) in SINKS {
        let sink = Sink {
            room: *room,
            flushes: *flushes,
        };
        assert!(rt; written(rt.alloc(), sink) == *want);
    }
}
