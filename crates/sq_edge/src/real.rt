// Real files and standard output. They tell no content.
ghost use Rattle.std.specs.Prelude.{◌≡◌, ◌≤◌, None};
ghost use Rattle.sq_edge.specs.Edge.{Rose};

use crate::{Shelf, ShelfError, Sink, SinkFault};
use std::alloc::Global;
use std::fs::File;
use std::io;
use std::io::{Read, Seek, SeekFrom, Write};
use std::rt::Files;

/// The files of the system, by their paths. It tells no content.
#[derive(Drop)]
pub struct FileShelf<'a, R: Files> {
    rt: &'a R,
    faults: u64,
    misses: u64,
}

impl<'a, R: Files> FileShelf<'a, R> {
    /// The files that the runtime reaches. It takes no memory.
    pub fn new(rt: &'a R) -> FileShelf<'a, R>
        ensures counts { (result.faults ≡ 0) × (result.misses ≡ 0) }
    {
        FileShelf {
            rt,
            faults: 0,
            misses: 0,
        }
    }

    // Counts a failure.
    fn failed(&mut self) -> ShelfError
        ensures error { result ≡ ShelfError.Failed }
        ensures faults { Rose self.old.faults self.new.faults }
        ensures later { self.old.faults ≤ self.new.faults }
        ensures misses { self.new.misses ≡ self.old.misses }
    {
        self.faults = self.faults.saturating_add(1);
        ShelfError::Failed
    }

    // Counts an error at the opening of a file that is to be there.
    fn not_opened(&mut self, kind: io::ErrorKind) -> ShelfError
        ensures failed { result ≡ ShelfError.Failed → Rose self.old.faults self.new.faults }
        ensures missing { result ≡ ShelfError.Missing → Rose self.old.misses self.new.misses }
        ensures memory { result ≡ ShelfError.NoMemory → ⊥ }
        ensures later { self.old.faults ≤ self.new.faults }
        ensures misses_later { self.old.misses ≤ self.new.misses }
    {
        if kind == io::ErrorKind::NotFound {
            self.misses = self.misses.saturating_add(1);
            ShelfError::Missing
        } else {
            self.failed()
        }
    }
}

// One read of the open file at a place.
fn read_at<F: Read + Seek>(file: &mut F, at: u64, buffer: &mut [u8]) -> io::Result<usize> {
    file.seek(SeekFrom::Start(at))?;
    file.read(buffer)
}

impl<R: Files> Shelf for FileShelf<'_, R> {
    ghost files = { λ _. None };

    ghost faults = { λ s. s.faults };

    ghost misses = { λ s. s.misses };

    fn read(
        &mut self,
        alloc: Global,
        name: &str,
        at: u64,
        room: usize,
    ) -> Result<Vec<u8>, ShelfError> {
        let mut buffer = vec![in alloc; 0u8; room]?;
        let mut file = match File::open(self.rt, name) {
            Ok(file) => file,
            Err(error) if error.kind() == io::ErrorKind::OutOfMemory => {
                return Err(ShelfError::NoMemory);
            }
            Err(error) => return Err(self.not_opened(error.kind())),
        };
        match read_at(&mut file, at, &mut buffer) {
            Ok(count) => {
                buffer.truncate(count);
                Ok(buffer)
            }
            Err(_) => Err(self.failed()),
        }
    }

    fn create(&mut self, name: &str) -> Result<(), ShelfError> {
        match File::create(self.rt, name) {
            Ok(_) => Ok(()),
            Err(_) => Err(self.failed()),
        }
    }

    fn append(&mut self, name: &str, piece: &[u8]) -> Result<(), ShelfError> {
        let mut file = match File::options().append(true).open(self.rt, name) {
            Ok(file) => file,
            Err(error) => return Err(self.not_opened(error.kind())),
        };
        match file.write_all(piece) {
            Ok(()) => Ok(()),
            Err(_) => Err(self.failed()),
        }
    }
}

/// Standard output. It tells no content.
#[derive(Drop)]
pub struct StdSink<'a, P: Print> {
    rt: &'a P,
    faults: u64,
}

impl<'a, P: Print> StdSink<'a, P> {
    /// The runtime's standard output. It takes no memory.
    pub fn new(rt: &'a P) -> StdSink<'a, P>
        ensures counts { result.faults ≡ 0 }
    {
        StdSink { rt, faults: 0 }
    }
}

impl<P: Print> Sink for StdSink<'_, P> {
    ghost bytes = { λ _. None };

    ghost faults = { λ s. s.faults };

    fn put(&mut self, piece: &[u8]) -> Result<usize, SinkFault> {
        match io::writer(self.rt).write(piece) {
            Ok(count) => {
                if count == 0 && !piece.is_empty() {
                    self.faults = self.faults.saturating_add(1);
                }
                Ok(count)
            }
            Err(_) => {
                self.faults = self.faults.saturating_add(1);
                Err(SinkFault)
            }
        }
    }
}
