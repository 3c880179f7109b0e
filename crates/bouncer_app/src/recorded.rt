//! What `bouncer replay` and `bouncer draw` do with the record in a file. If the file is at fault, a line is written to
//! standard error that names it and says why.
use records::{ReplayFault, Verdict};
use std::alloc::Global;
use std::fs::File;
use std::io::{ErrorKind, Read, Write};
use std::rt::Runtime;
use std::{fs, io};
use whole_input::read_whole;
use world_app::{RecordFault, draw, replay_record};

/// Reruns what is recorded in a file, and prints whether the same comes out.
pub fn replay(
    rt: &(impl Runtime<File = File> + AllocGlobal),
    path: &str,
) -> Result<Verdict, RecordFault> {
    let mut file = open(rt, path)?;
    match replay_record(rt.alloc(), &mut file, &mut io::writer(rt)) {
        Ok(verdict) => Ok(verdict),
        Err(fault) => {
            tell(rt, path, fault);
            Err(fault)
        }
    }
}

/// Prints the picture of the run that is recorded in a file.
pub fn print_picture(
    rt: &(impl Runtime<File = File> + AllocGlobal),
    path: &str,
) -> Result<(), RecordFault> {
    let mut file = open(rt, path)?;
    let picture = match drawn(rt.alloc(), &mut file) {
        Ok(picture) => picture,
        Err(fault) => {
            tell(rt, path, fault);
            return Err(fault);
        }
    };
    let mut output = io::writer(rt);
    if output.write_all(&picture).is_err() || output.flush().is_err() {
        return Err(RecordFault::Write);
    }
    Ok(())
}

/// The picture of the record in an input.
fn drawn<R: Read>(alloc: Global, input: &mut R) -> Result<Vec<u8>, RecordFault> {
    let record = read_whole(alloc, input)?;
    Ok(draw(alloc, &record)?)
}

/// The file of a record.
fn open(rt: &(impl Runtime<File = File> + AllocGlobal), path: &str) -> Result<File, RecordFault> {
    match fs::open(rt, path) {
        Ok(file) => Ok(file),
        Err(error) if error.kind() == ErrorKind::OutOfMemory => {
            Err(RecordFault::Replay(ReplayFault::Memory))
        }
        Err(error) => {
            let _ = eprintln!(rt; "{path}: {error}");
            Err(RecordFault::Read)
        }
    }
}

/// Says on standard error what is wrong with a file, unless something else was.
fn tell(rt: &impl Runtime, path: &str, fault: RecordFault) {
    let _ = match fault {
        RecordFault::Read => eprintln!(rt; "{path}: can't be read"),
        RecordFault::Replay(ReplayFault::Version) => eprintln!(rt;
            "{path}: is no record, or of another version"
        ),
        RecordFault::Replay(ReplayFault::BadLine(line)) => {
            eprintln!(rt; "{path}:{line}: is not what has to stand there")
        }
        RecordFault::Replay(ReplayFault::TooLong) => eprintln!(rt; "{path}: is too long"),
        RecordFault::Replay(ReplayFault::Memory) | RecordFault::Write => Ok(()),
    };
}
