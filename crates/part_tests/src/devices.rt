use outside::{
    Failed, FolderShelf, InputSource, MemShelf, MemSink, MemSource, OutputSink, Shelf, Sink,
    Source, SureShelf, SureSink, SureSource, Trouble,
};
use std::alloc::{AllocError, Global};
use std::fs;
use std::io::{self, ErrorKind, Read, Write};
use std::rt::Files;
use std::test::Fail;

/// A reader that gives at most two bytes at once, and whose second read fails.
#[derive(Drop)]
struct FalteringReader<'a> {
    bytes: &'a [u8],
    kind: ErrorKind,
    reads: u8,
}

impl Read for FalteringReader<'_> {
    fn read(&mut self, buf: &mut [u8]) -> io::Result<usize> {
        self.reads = self.reads.saturating_add(1);
        if self.reads == 2 {
            return Err(self.kind.into());
        }
        let len = buf.len().min(2);
        self.bytes.read(&mut buf[..len])
    }
}

/// A writer whose first write or first flush fails. It takes all bytes of every other write.
#[derive(Drop)]
struct FalteringWriter {
    kind: ErrorKind,
    write_fails: bool,
    flush_fails: bool,
}

impl Write for FalteringWriter {
    fn write(&mut self, piece: &[u8]) -> io::Result<usize> {
        if self.write_fails {
            self.write_fails = false;
            return Err(self.kind.into());
        }
        Ok(piece.len())
    }

    fn flush(&mut self) -> io::Result<()> {
        if self.flush_fails {
            self.flush_fails = false;
            return Err(self.kind.into());
        }
        Ok(())
    }
}

/// A writer that takes at most so many bytes at once. Each write needs a flush before the next
/// one, and each flush needs a write before it.
#[derive(Drop)]
struct NarrowWriter {
    width: usize,
    is_flushed: bool,
}

impl Write for NarrowWriter {
    fn write(&mut self, piece: &[u8]) -> io::Result<usize> {
        if !self.is_flushed {
            return Err(ErrorKind::Other.into());
        }
        self.is_flushed = false;
        Ok(piece.len().min(self.width))
    }

    fn flush(&mut self) -> io::Result<()> {
        if self.is_flushed {
            return Err(ErrorKind::Other.into());
        }
        self.is_flushed = true;
        Ok(())
    }
}

fn read_from<S: Source>(source: &mut S, buf: &mut [u8]) -> Result<usize, Failed> {
    source.read(buf)
}

fn write_to<S: Sink>(sink: &mut S, piece: &[u8]) -> Result<usize, Trouble> {
    sink.write(piece)
}

// Makes a file of two pieces.
fn save<S: Shelf>(shelf: &mut S, name: &str, first: &[u8], last: &[u8]) -> Result<(), Trouble> {
    shelf.create(name)?;
    shelf.append(first)?;
    shelf.append(last)?;
    shelf.keep()
}

// Begins to make a file.
fn begin<S: Shelf>(shelf: &mut S, name: &str, piece: &[u8]) -> Result<(), Trouble> {
    shelf.create(name)?;
    shelf.append(piece)
}

type Loaded = Result<Option<usize>, Trouble>;

// What one read gives of a file, or `None` where there is no such file.
fn load<S: Shelf>(shelf: &mut S, name: &str, buf: &mut [u8]) -> Loaded {
    if !shelf.open(name)? {
        return Ok(None);
    }
    Ok(Some(shelf.read(buf)?))
}

#[test]
fn reads_once_and_never_again_after_an_error(rt: HostRuntime) {
    for kind in [ErrorKind::Other, ErrorKind::Interrupted] {
        let mut source = InputSource::new(FalteringReader {
            bytes: b"hello",
            kind,
            reads: 0,
        });
        let mut buf = [0; 3];
        assert_eq!(rt; read_from(&mut source, &mut buf), Ok(2));
        assert_eq!(rt; buf, *b"he\0");
        assert_eq!(rt; read_from(&mut source, &mut buf), Err(Failed));
        assert_eq!(rt; read_from(&mut source, &mut buf), Ok(2));
        assert_eq!(rt; &buf[..2], b"ll".as_slice());
        assert_eq!(rt; read_from(&mut source, &mut buf), Ok(1));
        assert_eq!(rt; buf[0], b'o');
        assert_eq!(rt; read_from(&mut source, &mut buf), Ok(0));
    }
}

#[test]
fn writes_once_and_never_again_after_an_error(rt: HostRuntime) {
    for kind in [ErrorKind::Other, ErrorKind::Interrupted] {
        for write_fails in [true, false] {
            let mut sink = OutputSink::new(FalteringWriter {
                kind,
                write_fails,
                flush_fails: !write_fails,
            });
            assert_eq!(rt; write_to(&mut sink, b"hello"), Err(Trouble::Failed));
            assert_eq!(rt; write_to(&mut sink, b"hello"), Ok(5));
        }
    }
}

#[test]
fn flushes_once_after_each_write(rt: HostRuntime) {
    let mut sink = OutputSink::new(NarrowWriter {
        width: 2,
        is_flushed: true,
    });
    assert_eq!(rt; write_to(&mut sink, b"hello"), Ok(2));
    assert_eq!(rt; write_to(&mut sink, b"llo"), Ok(2));
    assert_eq!(rt; write_to(&mut sink, b"o"), Ok(1));
    assert_eq!(rt; write_to(&mut sink, b""), Ok(0));

    let mut closed = OutputSink::new(NarrowWriter {
        width: 0,
        is_flushed: true,
    });
    assert_eq!(rt; write_to(&mut closed, b"hello"), Err(Trouble::Failed));
}

#[test]
fn writes_to_a_vector(rt: HostRuntime) {
    let mut sink = OutputSink::new(Vec::new(rt.alloc()));
    assert_eq!(rt; write_to(&mut sink, b"hello"), Ok(5));
}

#[test]
fn fails_in_mid_stream(rt: HostRuntime) -> Result<(), Fail> {
    let mut source = MemSource::new(rt.alloc(), b"hello")?;
    source.fail_at(1)?;
    source.most(2);
    let mut buf = [0; 4];
    assert_eq!(rt; read_from(&mut source, &mut buf), Ok(2));
    assert_eq!(rt; read_from(&mut source, &mut buf), Err(Failed));
    assert_eq!(rt; read_from(&mut source, &mut buf), Ok(2));
    assert_eq!(rt; buf, *b"ll\0\0");

    let mut sink = MemSink::new(rt.alloc());
    sink.fail_at(1)?;
    assert_eq!(rt; write_to(&mut sink, b"one"), Ok(3));
    assert_eq!(rt; write_to(&mut sink, b"two"), Err(Trouble::Failed));
    assert_eq!(rt; write_to(&mut sink, b"three"), Ok(5));
    assert_eq!(rt; sink.as_slice(), b"onethree".as_slice());
    Ok(())
}

#[test]
fn reads_at_most(rt: HostRuntime) -> Result<(), Fail> {
    for most in [1, 2, 3] {
        let mut source = MemSource::new(rt.alloc(), b"hello")?;
        source.most(most);
        assert_eq!(rt; source.read(&mut [0; 4]), Ok(most));
    }
    Ok(())
}

#[test]
fn never_fails(rt: HostRuntime) -> Result<(), Fail> {
    let mut source = SureSource::new(rt.alloc(), b"hello")?;
    let mut buf = [0; 4];
    assert_eq!(rt; read_from(&mut source, &mut buf), Ok(4));
    source.most(3);
    assert_eq!(rt; read_from(&mut source, &mut buf), Ok(1));
    assert_eq!(rt; buf, *b"oell");
    assert_eq!(rt; read_from(&mut source, &mut buf), Ok(0));

    let mut sink = SureSink::new(rt.alloc());
    assert_eq!(rt; write_to(&mut sink, b"hello"), Ok(5));
    assert_eq!(rt; sink.as_slice(), b"hello".as_slice());
    Ok(())
}

// Whether the file of this name has these bytes.
fn holds(shelf: &SureShelf, name: &str, bytes: &[u8]) -> bool {
    match shelf.get(name) {
        Some(found) => found == bytes,
        None => false,
    }
}

#[test]
fn keeps_files_in_memory(rt: HostRuntime) -> Result<(), Fail> {
    let mut buf = [0; 4];
    let mut shelf = SureShelf::new(rt.alloc());
    shelf.put("a", b"old")?;
    assert_eq!(rt; load(&mut shelf, "b", &mut buf), Ok(None));
    assert_eq!(rt; save(&mut shelf, "b", b"hel", b"lo"), Ok(()));
    assert!(rt; holds(&shelf, "a", b"old") && holds(&shelf, "b", b"hello"));
    assert_eq!(rt; load(&mut shelf, "b", &mut buf), Ok(Some(4)));
    assert_eq!(rt; buf, *b"hell");
    Ok(())
}

// Whether a save that fails at this call leaves the old file, and the next save replaces it.
fn survives(alloc: Global, call: u64) -> Result<bool, AllocError> {
    let mut shelf = MemShelf::new(alloc);
    shelf.put("f", b"old")?;
    shelf.fail_at(call)?;
    let is_failed = save(&mut shelf, "f", b"hel", b"lo") == Err(Trouble::Failed);
    let is_old = matches!(shelf.get("f"), Some(b"old"));
    let is_saved = save(&mut shelf, "f", b"hel", b"lo") == Ok(());
    Ok(is_failed && is_old && is_saved && matches!(shelf.get("f"), Some(b"hello")))
}

#[test]
fn fails_at_each_call_of_a_save(rt: HostRuntime) -> Result<(), Fail> {
    for call in 0..4 {
        assert!(rt; survives(rt.alloc(), call)?, "call {call}");
    }
    Ok(())
}

// What a load that fails at this call answers, and what the next one does.
fn load_twice(alloc: Global, call: u64) -> Result<[Loaded; 2], AllocError> {
    let mut buf = [0; 4];
    let mut shelf = MemShelf::new(alloc);
    shelf.put("f", b"old")?;
    shelf.fail_at(call)?;
    let first = load(&mut shelf, "f", &mut buf);
    Ok([first, load(&mut shelf, "f", &mut buf)])
}

#[test]
fn fails_at_each_call_of_a_load(rt: HostRuntime) -> Result<(), Fail> {
    for call in 0..2 {
        let answers = load_twice(rt.alloc(), call)?;
        assert_eq!(rt; answers, [Err(Trouble::Failed), Ok(Some(3))]);
    }
    Ok(())
}

fn save_here<R: Files>(rt: &R, alloc: Global, name: &str) -> Result<(), Trouble> {
    save(&mut FolderShelf::new(rt, alloc), name, b"hel", b"lo")
}

fn begin_here<R: Files>(rt: &R, alloc: Global, name: &str) -> Result<(), Trouble> {
    begin(&mut FolderShelf::new(rt, alloc), name, b"half a ")
}

fn load_here<R: Files>(rt: &R, alloc: Global, name: &str, buf: &mut [u8]) -> Loaded {
    load(&mut FolderShelf::new(rt, alloc), name, buf)
}

#[test]
fn keeps_files_in_the_folder(rt: HostRuntime) -> Result<(), Fail> {
    let mut buf = [0; 8];
    assert_eq!(rt; load_here(&rt, rt.alloc(), "kept", &mut buf), Ok(None));
    fs::write(&rt, "kept", "old")?;

    // The old file stays until the new one is kept.
    assert_eq!(rt; begin_here(&rt, rt.alloc(), "kept"), Ok(()));
    assert_eq!(rt; load_here(&rt, rt.alloc(), "kept", &mut buf), Ok(Some(3)));
    assert_eq!(rt; save_here(&rt, rt.alloc(), "kept"), Ok(()));
    assert_eq!(rt; load_here(&rt, rt.alloc(), "kept", &mut buf), Ok(Some(5)));
    assert_eq!(rt; buf, *b"hello\0\0\0");
    fs::remove_file(&rt, "kept")?;

    // A folder is no file, and no name leads elsewhere.
    fs::create_dir(&rt, "taken")?;
    let failed = Err(Trouble::Failed);
    assert_eq!(rt; load_here(&rt, rt.alloc(), "taken", &mut buf), failed);
    for name in ["taken", "taken/kept", "..", ""] {
        assert_eq!(rt; save_here(&rt, rt.alloc(), name), Err(Trouble::Failed));
    }
    fs::remove_dir(&rt, "taken")?;
    fs::remove_file(&rt, ".faissb-part")?;
    Ok(())
}

#[test]
fn prints_errors(rt: HostRuntime) -> Result<(), Fail> {
    let text = format!(in rt.alloc(); "{Failed}, {}, {}", Trouble::Failed, Trouble::Memory)?;
    assert_eq!(rt;
        text.as_str(),
        "the device failed, the device failed, out of memory"
    );
    Ok(())
}
