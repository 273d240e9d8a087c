ghost use Rattle.std.specs.Prelude.{◌≡◌, IsErrOf, IsOkUnless, IsTrue, None, OnErr, OnOk};
ghost use Rattle.std.specs.Prelude.{false, is_ok};
ghost use Rattle.std.specs.Result.{result_unwrap_or};
ghost use Rattle.std.specs.Io.{ReadsAtMost};
ghost use Rattle.outside.specs.Causes.{HasCause, next_count};
ghost use Rattle.outside.specs.Names.{stays_inside};

use crate::{Shelf, Trouble};
use std::alloc::Global;
use std::fs;
use std::io::{self, ErrorKind, Read, Write};
use std::marker::Model;
use std::rt::Files;

// The name under which a file is made. It begins with a dot, so no file that is opened or created
// here has it.
const PART: &str = ".faissb-part";

/// The files of the current folder. It does not tell them, and counts each error of the system as a
/// fault. Contracts see whether a file is being read, whether one is being made, and the number of
/// faults.
///
/// A file is written under the name `.faissb-part`, in place of an old one of that name, and
/// renamed by `keep`. So a file that has the new file's name stays whole until then, also if the
/// program ends before. Nothing is promised of what stands there after a power failure.
///
/// A name that is empty, begins with a dot or has a slash is a fault, so that no call leaves the
/// folder.
#[derive(Drop)]
pub struct FolderShelf<'r, R: Files> {
    rt: &'r R,
    alloc: Global,
    reading: Option<R::File>,
    making: Option<Part<R::File>>,
    faults: u64,
}

// A file that is being made, and the name that it is to have.
#[derive(Drop)]
struct Part<F> {
    name: String,
    file: F,
}

impl<'r, R: Files> Model for FolderShelf<'r, R> {
    ghost use Rattle.std.specs.Prelude.{is_some};
    ghost use Rattle.outside.specs.States.{FolderState};

    ghost Value = { FolderState };

    ghost view = { λ s. record {
      is_reading = is_some s.reading;
      is_making = is_some s.making;
      faults = s.faults;
    } };
}

impl<'r, R: Files> FolderShelf<'r, R> {
    /// A shelf of the files in the current folder, none of which is being read or made. It takes no
    /// memory.
    pub fn new(rt: &'r R, alloc: Global) -> FolderShelf<'r, R>
        ensures { result ≡ record { is_reading = false; is_making = false; faults = 0 } }
    {
        FolderShelf {
            rt,
            alloc,
            reading: None,
            making: None,
            faults: 0,
        }
    }
}

// Whether a file of this name stands in the folder itself, and is not hidden.
fn is_inside(name: &str) -> bool
    ensures { result ≡ stays_inside name.now }
{
    match name.as_bytes() {
        [] => false,
        [first, ..] => *first != b'.' && !name.as_bytes().contains(&b'/'),
    }
}

// Counts a fault.
fn fault(faults: &mut u64) -> Trouble
    ensures failed { result ≡ Trouble.Failed }
    ensures cause { HasCause faults.old faults.new (result ≡ Trouble.Failed) }
    ensures counted { faults.new ≡ next_count faults.old }
{
    *faults = faults.saturating_add(1);
    Trouble::Failed
}

// The file of this name, or `None` where there is none.
fn find<R: Files>(rt: &R, name: &str) -> io::Result<Option<R::File>> {
    match fs::open(rt, name) {
        Ok(file) => Ok(Some(file)),
        Err(error) if error.kind() == ErrorKind::NotFound => Ok(None),
        Err(error) => Err(error),
    }
}

impl<'r, R: Files> Shelf for FolderShelf<'r, R> {
    ghost contents = { λ _. None };

    ghost is_reading = { λ s. s.is_reading };

    ghost is_making = { λ s. s.is_making };

    ghost faults = { λ s. s.faults };

    /// Opens the file, unless its name is none of this folder. An error of the system other than
    /// that there is no such file is `Failed`; `Memory` never comes.
    fn open(&mut self, name: &str) -> Result<bool, Trouble>
        ensures reading { self.new.is_reading ≡ result_unwrap_or result false }
        ensures making { self.new.is_making ≡ false }
        ensures inside { stays_inside name.now ≡ false → IsErrOf result Trouble.Failed }
        ensures cause { HasCause self.old.faults self.new.faults (IsErrOf result Trouble.Failed) }
        ensures faultless { OnOk result (self.new.faults ≡ self.old.faults) }
        ensures failed_only { IsOkUnless result Trouble.Failed }
        ensures memory_is_no_fault { IsErrOf result Trouble.Memory
            → self.new.faults ≡ self.old.faults }
        ensures counted { OnErr result (self.new.faults ≡ next_count self.old.faults) }
    {
        self.reading = None;
        self.making = None;
        if !is_inside(name) {
            return Err(fault(&mut self.faults));
        }
        match find(self.rt, name) {
            Ok(file) => {
                self.reading = file;
                Ok(self.reading.is_some())
            }
            Err(_) => Err(fault(&mut self.faults)),
        }
    }

    /// One read of the file. Each error of it, one that was interrupted too, is `Failed`; `Memory`
    /// never comes.
    fn read(&mut self, buf: &mut [u8]) -> Result<usize, Trouble>
        requires { IsTrue self.old.is_reading }
        ensures bound { ReadsAtMost result buf.new }
        ensures reading { self.new.is_reading ≡ self.old.is_reading }
        ensures making { self.new.is_making ≡ self.old.is_making }
        ensures cause { HasCause self.old.faults self.new.faults (IsErrOf result Trouble.Failed) }
        ensures faultless { OnOk result (self.new.faults ≡ self.old.faults) }
        ensures failed_only { IsOkUnless result Trouble.Failed }
        ensures memory_is_no_fault { IsErrOf result Trouble.Memory
            → self.new.faults ≡ self.old.faults }
        ensures counted { OnErr result (self.new.faults ≡ next_count self.old.faults) }
    {
        let Some(file) = &mut self.reading else {
            unreachable!()
        };
        match file.read(buf) {
            Ok(count) => Ok(count),
            Err(_) => Err(fault(&mut self.faults)),
        }
    }

    /// Begins the file `.faissb-part`, unless the new file's name is none of this folder.
    fn create(&mut self, name: &str) -> Result<(), Trouble>
        ensures reading { self.new.is_reading ≡ false }
        ensures making { self.new.is_making ≡ is_ok result }
        ensures inside { stays_inside name.now ≡ false → IsErrOf result Trouble.Failed }
        ensures cause { HasCause self.old.faults self.new.faults (IsErrOf result Trouble.Failed) }
        ensures faultless { OnOk result (self.new.faults ≡ self.old.faults) }
        ensures memory_is_no_fault { IsErrOf result Trouble.Memory
            → self.new.faults ≡ self.old.faults }
        ensures counted { IsErrOf result Trouble.Failed
            → self.new.faults ≡ next_count self.old.faults }
    {
        self.reading = None;
        self.making = None;
        if !is_inside(name) {
            return Err(fault(&mut self.faults));
        }
        let name = String::from_str(self.alloc, name)?;
        match fs::create(self.rt, PART) {
            Ok(file) => {
                self.making = Some(Part { name, file });
                Ok(())
            }
            Err(_) => Err(fault(&mut self.faults)),
        }
    }

    /// Writes the whole piece. `Memory` never comes.
    fn append(&mut self, piece: &[u8]) -> Result<(), Trouble>
        requires { IsTrue self.old.is_making }
        ensures reading { self.new.is_reading ≡ self.old.is_reading }
        ensures making { self.new.is_making ≡ is_ok result }
        ensures cause { HasCause self.old.faults self.new.faults (IsErrOf result Trouble.Failed) }
        ensures faultless { OnOk result (self.new.faults ≡ self.old.faults) }
        ensures failed_only { IsOkUnless result Trouble.Failed }
        ensures memory_is_no_fault { IsErrOf result Trouble.Memory
            → self.new.faults ≡ self.old.faults }
        ensures counted { OnErr result (self.new.faults ≡ next_count self.old.faults) }
    {
        let Some(mut part) = self.making.take() else {
            unreachable!()
        };
        match part.file.write_all(piece) {
            Ok(()) => {
                self.making = Some(part);
                Ok(())
            }
            Err(_) => Err(fault(&mut self.faults)),
        }
    }

    /// Renames `.faissb-part`. `Memory` never comes.
    fn keep(&mut self) -> Result<(), Trouble>
        requires { IsTrue self.old.is_making }
        ensures reading { self.new.is_reading ≡ self.old.is_reading }
        ensures making { self.new.is_making ≡ false }
        ensures cause { HasCause self.old.faults self.new.faults (IsErrOf result Trouble.Failed) }
        ensures faultless { OnOk result (self.new.faults ≡ self.old.faults) }
        ensures failed_only { IsOkUnless result Trouble.Failed }
        ensures memory_is_no_fault { IsErrOf result Trouble.Memory
            → self.new.faults ≡ self.old.faults }
        ensures counted { OnErr result (self.new.faults ≡ next_count self.old.faults) }
    {
        let Some(Part { name, file }) = self.making.take() else {
            unreachable!()
        };
        drop(file);
        match fs::rename(self.rt, PART, name.as_str()) {
            Ok(()) => Ok(()),
            Err(_) => Err(fault(&mut self.faults)),
        }
    }
}
