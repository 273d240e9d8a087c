ghost use Rattle.std.specs.Prelude.{◌≡◌, ◌<◌, ◌^◌, Ok, Some, IfOk, OnOk, OnErr, IsOkUnless};
ghost use Rattle.std.specs.Prelude.{IsTrue, drop, is_some, length, string_bytes};
ghost use Rattle.std.specs.List.{All};
ghost use Rattle.std.specs.Option.{option_map};
ghost use Rattle.std.specs.Io.{ReadsAtMost};
ghost use Rattle.std.specs.Io.KnownBytes.{ReadConsumes};
ghost use Rattle.outside.specs.Contents.{put};
ghost use Rattle.outside.specs.States.{closed, created, dropped, empty_shelf, files_of, given_len};
ghost use Rattle.outside.specs.States.{lengthened, named_by, opened, read_on, refiled};
ghost use Rattle.outside.specs.States.{to_read, with_made};

use crate::remaining::Remaining;
use crate::{Shelf, Trouble};
use std::alloc::{AllocError, Global};
use std::collections::BTreeMap;
use std::marker::Model;

/// A shelf in memory that never fails. Contracts see the files with their names, what is left of
/// the file that is being read, and the file that is being made.
#[derive(Debug, Drop)]
pub struct SureShelf {
    alloc: Global,
    files: BTreeMap<String, Vec<u8>>,
    reading: Option<Remaining>,
    making: Option<Draft>,
}

// A file that is being made.
#[derive(Debug, Drop)]
struct Draft {
    name: String,
    bytes: Vec<u8>,
}

impl Model for SureShelf {
    ghost use Rattle.std.specs.Prelude.{string_bytes};
    ghost use Rattle.std.specs.Option.{option_map};
    ghost use Rattle.outside.specs.States.{SureShelfState, draft_of, named_by};

    ghost Value = { SureShelfState };

    ghost view = { λ s. record {
      named = named_by string_bytes (λ bytes. bytes.items) s.files.entries;
      reading = s.reading;
      making = option_map (λ draft. draft_of (string_bytes draft.name) draft.bytes.items) s.making;
    } };
}

impl SureShelf {
    /// A shelf with no file, of which none is being read or made. It takes no memory.
    pub fn new(alloc: Global) -> SureShelf
        ensures { result ≡ empty_shelf }
    {
        SureShelf {
            alloc,
            files: BTreeMap::new(alloc),
            reading: None,
            making: None,
        }
    }

    /// Puts a file of these bytes under a name, in place of one that has the name.
    ///
    /// # Errors
    ///
    /// If memory runs out. The shelf is then as before.
    pub fn put(&mut self, name: &str, bytes: &[u8]) -> Result<(), AllocError>
        ensures ok { OnOk result (files_of self.new.named
            ≡ put (files_of self.old.named) name.now bytes.now) }
        ensures reading { self.new.reading ≡ self.old.reading }
        ensures making { self.new.making ≡ self.old.making }
        ensures err { OnErr result (self.new ≡ self.old) }
    {
        let name = String::from_str(self.alloc, name)?;
        let bytes = bytes.to_vec(self.alloc)?;
        put_file(&mut self.files, name, bytes)?;
        Ok(())
    }

    /// The bytes of the file of this name, or `None` where there is none.
    #[tactic(auto, using(crate::proofs::ShelfLemmas::named_found))]
    pub fn get(&self, name: &str) -> Option<&[u8]>
        ensures { option_map (λ bytes. bytes.now) result ≡ files_of self.now.named name.now }
    {
        match self.files.get(name) {
            Some(bytes) => Some(bytes),
            None => None,
        }
    }

    /// Gives up what is being read and what is being made.
    pub(crate) fn close(&mut self)
        ensures { self.new ≡ closed self.old }
    {
        self.reading = None;
        self.making = None;
    }

    /// Gives up what is being made.
    pub(crate) fn drop_draft(&mut self)
        ensures { self.new ≡ dropped self.old }
    {
        self.making = None;
    }
}

// Puts a file into the map, in place of one that has the name.
fn put_file(
    files: &mut BTreeMap<String, Vec<u8>>,
    name: String,
    bytes: Vec<u8>,
) -> Result<(), AllocError>
    ensures ok { OnOk result (files_of (named_by string_bytes (λ v. v.items) files.new.entries)
        ≡ put (files_of (named_by string_bytes (λ v. v.items) files.old.entries))
        (string_bytes name) bytes.items) }
    ensures err { OnErr result (files.new.entries ≡ files.old.entries) }
{
    match files.insert(name, bytes) {
        Ok(_) => Ok(()),
        Err(_) => Err(AllocError),
    }
}

impl Shelf for SureShelf {
    ghost use Rattle.std.specs.Prelude.{Some, is_some};
    ghost use Rattle.outside.specs.States.{contents_of};

    ghost contents = { λ s. Some (contents_of s) };

    ghost is_reading = { λ s. is_some s.reading };

    ghost is_making = { λ s. is_some s.making };

    ghost faults = { λ _. 0 };

    /// Never answers `Failed`.
    #[tactic(auto, using(crate::proofs::ShelfLemmas::named_found))]
    fn open(&mut self, name: &str) -> Result<bool, Trouble>
        ensures finds { IfOk result (λ found.
            found ≡ is_some (files_of self.old.named name.now)) }
        ensures ok { OnOk result (self.new ≡ opened self.old name.now) }
        ensures are_bytes { OnOk result (All (λ byte. byte < 2 ^ 8) (to_read self.new)) }
        ensures memory_only { IsOkUnless result Trouble.Memory }
        ensures err { OnErr result (self.new ≡ closed self.old) }
    {
        self.reading = None;
        self.making = None;
        match self.files.get(name) {
            Some(bytes) => {
                self.reading = Some(Remaining::new(self.alloc, bytes)?);
                Ok(true)
            }
            None => Ok(false),
        }
    }

    /// Never refuses. It gives as many bytes as are left or as `buf` holds, whichever is less, and
    /// leaves the rest of `buf`.
    #[tactic(auto, using(crate::proofs::ReadLemmas::consumes))]
    fn read(&mut self, buf: &mut [u8]) -> Result<usize, Trouble>
        requires { IsTrue (is_some self.old.reading) }
        ensures gives { result ≡ Ok (given_len self.old (length buf.old)) }
        ensures bound { ReadsAtMost result buf.new }
        ensures bytes { ReadConsumes (Some (to_read self.old)) (Some (to_read self.new)) result
            buf.new }
        ensures rest { IfOk result (λ n. drop n buf.new ≡ drop n buf.old) }
        ensures read { self.new ≡ read_on self.old (length buf.old) }
    {
        match &mut self.reading {
            Some(left) => Ok(left.read(buf, usize::MAX)),
            None => unreachable!(),
        }
    }

    /// Never answers `Failed`.
    fn create(&mut self, name: &str) -> Result<(), Trouble>
        ensures ok { OnOk result (self.new ≡ created self.old name.now) }
        ensures memory_only { IsOkUnless result Trouble.Memory }
        ensures err { OnErr result (self.new ≡ closed self.old) }
    {
        self.reading = None;
        self.making = None;
        let name = String::from_str(self.alloc, name)?;
        let bytes = Vec::new(self.alloc);
        self.making = Some(Draft { name, bytes });
        Ok(())
    }

    /// Never answers `Failed`.
    fn append(&mut self, piece: &[u8]) -> Result<(), Trouble>
        requires { IsTrue (is_some self.old.making) }
        ensures ok { OnOk result (self.new ≡ lengthened self.old piece.now) }
        ensures memory_only { IsOkUnless result Trouble.Memory }
        ensures err { OnErr result (self.new ≡ dropped self.old) }
    {
        let Some(mut draft) = self.making.take() else {
            unreachable!()
        };
        draft.bytes.extend_from_slice(piece)?;
        self.making = Some(draft);
        Ok(())
    }

    /// Never answers `Failed`.
    fn keep(&mut self) -> Result<(), Trouble>
        requires { IsTrue (is_some self.old.making) }
        ensures ok { OnOk result (files_of self.new.named ≡ with_made self.old) }
        ensures after { OnOk result (self.new ≡ refiled self.old self.new.named) }
        ensures memory_only { IsOkUnless result Trouble.Memory }
        ensures err { OnErr result (self.new ≡ dropped self.old) }
    {
        let Some(draft) = self.making.take() else {
            unreachable!()
        };
        put_file(&mut self.files, draft.name, draft.bytes)?;
        Ok(())
    }
}
