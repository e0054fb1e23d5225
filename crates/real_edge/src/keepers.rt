//! A file of the system that keeps a history.
ghost use Rattle.std.specs.Prelude.{◌≡◌, ◌≤◌, None};
ghost use Rattle.causes.specs.Faults.{Rose};

use line_history::{Keeper, KeeperFault};
use std::alloc::Global;
use std::fs::{Files, OpenOptions};
use std::io::{ErrorKind, Write};
use std::{fmt, fs, io};
use text_doc::Bytes;

/// What was asked of a history file.
#[derive(Clone, Copy, Debug, PartialEq, Eq)]
pub enum FileCall {
    /// To be read.
    Load,
    /// To take bytes behind those that it has.
    Append,
}

/// A call that a history file refused, and why.
#[derive(Debug, Drop)]
pub struct FileFault {
    call: FileCall,
    cause: io::Error,
}

impl FileFault {
    /// Returns the call that was refused.
    pub fn call(&self) -> FileCall
        ensures { result ≡ self.now.call }
    {
        self.call
    }
}

impl fmt::Display for FileFault {
    fn fmt<W: fmt::Write>(&self, f: &mut fmt::Formatter<W>) -> fmt::Result {
        write!(f, "{}", self.cause)
    }
}

/// A history file, with its count of faults. One that is not there is read as empty, and is made by the first entry. Each
/// entry is written by one call behind what is there, so that programs which append at the same time part no entry.
#[derive(Drop)]
pub struct FileKeeper<'a, R: Files + AllocGlobal + Drop> {
    rt: R,
    path: &'a str,
    fault: Option<FileFault>,
    faults: u64,
}

impl<'a, R: Files + AllocGlobal + Drop> FileKeeper<'a, R> {
    /// Returns a keeper over the file of this path, of which no call failed yet.
    pub fn new(rt: R, path: &'a str) -> FileKeeper<'a, R> {
        FileKeeper {
            rt,
            path,
            fault: None,
            faults: 0,
        }
    }

    /// Returns the last fault, if there was one.
    pub fn fault(&self) -> Option<&FileFault> {
        self.fault.as_ref()
    }

    /// Counts a fault, and keeps it.
    fn fail(&mut self, call: FileCall, cause: io::Error) -> KeeperFault
        ensures reason { result ≡ KeeperFault.Failed }
        ensures later { self.old.faults ≤ self.new.faults }
        ensures rose { Rose self.old.faults self.new.faults }
    {
        self.faults = self.faults.saturating_add(1);
        self.fault = Some(FileFault { call, cause });
        KeeperFault::Failed
    }
}

impl<'a, R: Files + AllocGlobal + Drop> Keeper for FileKeeper<'a, R> {
    ghost kept = { λ _. None };

    ghost faults = { λ k. k.faults };

    fn load(&mut self, alloc: Global) -> Result<Bytes, KeeperFault> {
        match read_file(&self.rt, self.path) {
            Ok(bytes) => Ok(Bytes::from_slice(alloc, bytes.as_slice())?),
            Err(fault) if fault.kind() == ErrorKind::OutOfMemory => Err(KeeperFault::NoMemory),
            Err(fault) => Err(self.fail(FileCall::Load, fault)),
        }
    }

    fn append(&mut self, bytes: &[u8]) -> Result<(), KeeperFault> {
        match append_to(&self.rt, self.path, bytes) {
            Ok(()) => Ok(()),
            Err(fault) if fault.kind() == ErrorKind::OutOfMemory => Err(KeeperFault::NoMemory),
            Err(fault) => Err(self.fail(FileCall::Append, fault)),
        }
    }
}

/// Reads the whole file. One that is not there is empty.
fn read_file<R: Files + AllocGlobal>(rt: &R, path: &str) -> io::Result<Vec<u8>> {
    match fs::read(rt, path) {
        Ok(bytes) => Ok(bytes),
        Err(fault) if fault.kind() == ErrorKind::NotFound => Ok(Vec::new(rt.alloc())),
        Err(fault) => Err(fault),
    }
}

/// Writes the bytes to the end of the file by one call, and makes the file where it is not there. A call that writes a part
/// of them alone has failed.
fn append_to<R: Files>(rt: &R, path: &str, bytes: &[u8]) -> io::Result<()> {
    let mut options = OpenOptions::new();
    options.append(true).create(true);
    let mut file = options.open(rt, path)?;
    for _ in 0..u64::MAX {
        match file.write(bytes) {
            Ok(count) if count == bytes.len() => return Ok(()),
            Ok(_) => return Err(io::Error::from(ErrorKind::WriteZero)),
            Err(fault) if fault.kind() == ErrorKind::Interrupted => {}
            Err(fault) => return Err(fault),
        }
    }
    Err(io::Error::from(ErrorKind::Interrupted))
}
