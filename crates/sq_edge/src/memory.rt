// A shelf and a sink in memory, which fail at the calls that they are told.
ghost use Rattle.std.specs.Prelude.{◌≡◌, ◌⊎◌, ◌++◌, ◌≤◌, ◌<◌, [], ◌∷◌, ℕ, List, length, take, drop, Some, None, IfOk, OnOk, OnErr, IfErr, IsOk, IsErr, IsErrOf, IfSome, IfNone, IsTrue, slice_get, slice_set};
ghost use Rattle.std.specs.FinMap.{from_entries, insert, find};
ghost use Rattle.sq_base.specs.Gives.{Gives};
ghost use Rattle.sq_edge.specs.Edge.{name_cmp, held, with_file, with_more, Lacks, IsPiece, HasCause, KeptOrFront, Rose};
ghost use Rattle.sq_edge.specs.Memory.{told, file_of, names_differ, one_more, counted, together, fails_at, is_miss, read_outcome, create_outcome, append_outcome, put_outcome, is_failed_put, sink_fault, GivesOrStarves};

use crate::{Shelf, ShelfError, Sink, SinkFault};
use sq_base::{NoMemory, Seq, Text};
use std::alloc::{AllocError, Global};

/// A shelf in memory.
#[derive(Drop)]
pub struct MemShelf {
    /// The files with their names. No name stands twice.
    pub files: Seq<(Text, Seq<u8>)>,
    /// The numbers of the calls that fail and change no file. The first call has the number 1.
    pub fails: Seq<u64>,
    /// How many calls there were.
    pub calls: u64,
    /// How many calls failed because `fails` holds their number.
    pub faults: u64,
    /// How many calls of `create` and `append` failed because memory ran out.
    pub starved: u64,
    /// How many other reads and appends found no file with the name.
    pub misses: u64,
}

impl MemShelf {
    /// A shelf with these files, whose calls with these numbers fail. It takes no memory.
    pub fn new(files: Seq<(Text, Seq<u8>)>, fails: Seq<u64>) -> MemShelf
        requires { IsTrue (names_differ files) }
        ensures files { result.files ≡ files }
        ensures fails { result.fails ≡ fails }
        ensures counts { (result.calls ≡ 0) × (result.faults ≡ 0) × (result.starved ≡ 0) ×
            (result.misses ≡ 0) }
    {
        MemShelf {
            files,
            fails,
            calls: 0,
            faults: 0,
            starved: 0,
            misses: 0,
        }
    }

    // Counts a call, and says whether it is one that fails.
    fn counts(&mut self) -> bool
        ensures answer { result ≡ fails_at self.old.fails (one_more self.old.calls) }
        ensures calls { self.new.calls ≡ one_more self.old.calls }
        ensures faults { self.new.faults ≡ counted result self.old.faults }
        ensures starved { self.new.starved ≡ self.old.starved }
        ensures misses { self.new.misses ≡ self.old.misses }
        ensures files { self.new.files ≡ self.old.files }
        ensures fails { self.new.fails ≡ self.old.fails }
    {
        self.calls = self.calls.saturating_add(1);
        let fails = fails_at(self.fails.as_slice(), self.calls);
        if fails {
            self.faults = self.faults.saturating_add(1);
        }
        fails
    }
}

impl Shelf for MemShelf {
    ghost files = { λ s. told s.files };

    ghost faults = { λ s. together s.faults s.starved };

    ghost misses = { λ s. s.misses };

    fn read(
        &mut self,
        alloc: Global,
        name: &str,
        at: u64,
        room: usize,
    ) -> Result<Vec<u8>, ShelfError>
        ensures room { IfOk result (λ piece. length piece.items ≤ room) }
        ensures bytes { IfOk result (λ piece. (file : List ℕ)
            → held (told self.old.files) name.now ≡ Some file → IsPiece file at room piece.items) }
        ensures present { IsOk result → Lacks (told self.old.files) name.now → ⊥ }
        ensures absent { IsErrOf result ShelfError.Missing → (file : List ℕ)
            → held (told self.old.files) name.now ≡ Some file → ⊥ }
        ensures files { told self.new.files ≡ told self.old.files }
        ensures cause { HasCause (together self.old.faults self.old.starved) self.old.misses
            (together self.new.faults self.new.starved) self.new.misses result }
        // And exactly:
        ensures outcome { Gives ShelfError.NoMemory (λ piece. piece.items) result
            (read_outcome (fails_at self.old.fails (one_more self.old.calls))
            (file_of self.old.files name.now) at room) }
        ensures calls { self.new.calls ≡ one_more self.old.calls }
        ensures faults { self.new.faults
            ≡ counted (fails_at self.old.fails (one_more self.old.calls)) self.old.faults }
        ensures starved { self.new.starved ≡ self.old.starved }
        ensures misses { self.new.misses
            ≡ counted (is_miss (fails_at self.old.fails (one_more self.old.calls))
            (file_of self.old.files name.now)) self.old.misses }
        ensures same_files { self.new.files ≡ self.old.files }
        ensures fails { self.new.fails ≡ self.old.fails }
    {
        if self.counts() {
            return Err(ShelfError::Failed);
        }
        let files = self.files.as_slice();
        match find(files, name) {
            Some(i) => Ok(piece_of(alloc, files[i].1.as_slice(), at, room)?),
            None => {
                self.misses = self.misses.saturating_add(1);
                Err(ShelfError::Missing)
            }
        }
    }

    fn create(&mut self, name: &str) -> Result<(), ShelfError>
        ensures ok { OnOk result (told self.new.files
            ≡ with_file (told self.old.files) name.now []) }
        ensures err { OnErr result ((told self.new.files ≡ told self.old.files)
            ⊎ (told self.new.files ≡ with_file (told self.old.files) name.now [])) }
        ensures only { IfErr result (λ e. e ≡ ShelfError.Failed) }
        ensures cause { HasCause (together self.old.faults self.old.starved) self.old.misses
            (together self.new.faults self.new.starved) self.new.misses result }
        // And exactly:
        ensures outcome { GivesOrStarves ShelfError.Failed
            (create_outcome (fails_at self.old.fails
            (one_more self.old.calls))) result self.old.starved self.new.starved }
        ensures unchanged { OnErr result (self.new.files ≡ self.old.files) }
        ensures calls { self.new.calls ≡ one_more self.old.calls }
        ensures faults { self.new.faults
            ≡ counted (fails_at self.old.fails (one_more self.old.calls)) self.old.faults }
        ensures misses { self.new.misses ≡ self.old.misses }
        ensures fails { self.new.fails ≡ self.old.fails }
    {
        if self.counts() {
            return Err(ShelfError::Failed);
        }
        match put_file(&mut self.files, name) {
            Ok(()) => Ok(()),
            Err(_) => {
                self.starved = self.starved.saturating_add(1);
                Err(ShelfError::Failed)
            }
        }
    }

    fn append(&mut self, name: &str, piece: &[u8]) -> Result<(), ShelfError>
        ensures ok { OnOk result (told self.new.files
            ≡ with_more (told self.old.files) name.now piece.now) }
        ensures err { OnErr result (KeptOrFront (told self.old.files)
            (told self.new.files) name.now piece.now) }
        ensures present { IsOk result → Lacks (told self.old.files) name.now → ⊥ }
        ensures absent { IsErrOf result ShelfError.Missing → (file : List ℕ)
            → held (told self.old.files) name.now ≡ Some file → ⊥ }
        ensures only { IsErrOf result ShelfError.NoMemory → ⊥ }
        ensures cause { HasCause (together self.old.faults self.old.starved) self.old.misses
            (together self.new.faults self.new.starved) self.new.misses result }
        // And exactly:
        ensures outcome { GivesOrStarves ShelfError.Failed
            (append_outcome (fails_at self.old.fails (one_more self.old.calls))
            (file_of self.old.files name.now)) result self.old.starved self.new.starved }
        ensures unchanged { OnErr result (self.new.files ≡ self.old.files) }
        ensures calls { self.new.calls ≡ one_more self.old.calls }
        ensures faults { self.new.faults
            ≡ counted (fails_at self.old.fails (one_more self.old.calls)) self.old.faults }
        ensures misses { self.new.misses
            ≡ counted (is_miss (fails_at self.old.fails (one_more self.old.calls))
            (file_of self.old.files name.now)) self.old.misses }
        ensures fails { self.new.fails ≡ self.old.fails }
    {
        if self.counts() {
            return Err(ShelfError::Failed);
        }
        let i = match find(self.files.as_slice(), name) {
            Some(i) => i,
            None => {
                self.misses = self.misses.saturating_add(1);
                return Err(ShelfError::Missing);
            }
        };
        match extend_file(&mut self.files, i, piece) {
            Ok(()) => Ok(()),
            Err(_) => {
                self.starved = self.starved.saturating_add(1);
                Err(ShelfError::Failed)
            }
        }
    }
}

// Whether the call with this number fails.
fn fails_at(fails: &[u64], call: u64) -> bool
    ensures { result ≡ fails_at fails.now call }
{
    fails.iter().any(|n| *n == call)
}

// Where the first file with this name stands.
fn find(files: &[(Text, Seq<u8>)], name: &str) -> Option<usize>
    ensures none { IfNone result (find name_cmp name.now files.now ≡ None) }
    ensures within { IfSome result (λ i. i < length files.now) }
    ensures first { IfSome result (λ i. find name_cmp name.now (take i files.now) ≡ None) }
    ensures here { IfSome result (λ i. IfSome (slice_get files.now i) (λ e. e.0 ≡ name.now)) }
{
    for (i, file) in files.iter().enumerate() {
        if file.0.as_str() == name {
            return Some(i);
        }
    }
    None
}

// At most `room` bytes from place `at` on.
fn piece_of(alloc: Global, file: &[u8], at: u64, room: usize) -> Result<Vec<u8>, AllocError>
    ensures { IfOk result (λ piece. piece.items ≡ take room (drop at file.now)) }
{
    let at = at as usize;
    if at >= file.len() {
        return Ok(Vec::new(alloc));
    }
    let rest = &file[at..];
    if room < rest.len() {
        rest[..room].to_vec(alloc)
    } else {
        rest.to_vec(alloc)
    }
}

// Makes the file empty, new or not.
fn put_file(files: &mut Seq<(Text, Seq<u8>)>, name: &str) -> Result<(), NoMemory>
    ensures ok { OnOk result (from_entries {R = name_cmp} files.new
        ≡ insert (from_entries files.old) name.now []) }
    ensures err { OnErr result (files.new ≡ files.old) }
{
    let alloc = files.allocator();
    let text = Text::from_str(alloc, name)?;
    match find(files.as_slice(), name) {
        Some(i) => {
            let _old = files.replace(i, (text, Seq::new(alloc)));
            Ok(())
        }
        None => files.push((text, Seq::new(alloc))),
    }
}

// Adds the piece at the end of the file that stands there.
fn extend_file(files: &mut Seq<(Text, Seq<u8>)>, at: usize, piece: &[u8]) -> Result<(), NoMemory>
    requires { at < length files.old }
    ensures ok { OnOk result (IfSome (slice_get files.old at)
        (λ e. files.new ≡ slice_set files.old at (e.0, e.1 ++ piece.now))) }
    ensures err { OnErr result (files.new ≡ files.old) }
{
    let alloc = files.allocator();
    let (name, mut bytes) = files.replace(at, (Text::new(alloc), Seq::new(alloc)));
    let done = bytes.extend_from_slice(piece);
    let _hole = files.replace(at, (name, bytes));
    done
}

/// A sink in memory.
#[derive(Drop)]
pub struct MemSink {
    /// The bytes that were put.
    pub taken: Seq<u8>,
    /// How many bytes one call takes at most.
    pub most: usize,
    /// The numbers of the calls that fail and take nothing. The first call has the number 1.
    pub fails: Seq<u64>,
    /// How many calls there were.
    pub calls: u64,
    /// How many calls failed because `fails` holds their number, or took nothing of a piece that is not empty.
    pub faults: u64,
    /// How many calls failed because memory ran out.
    pub starved: u64,
}

impl MemSink {
    /// A sink that takes at most so many bytes in one call, and whose calls with these numbers fail. It takes no memory.
    pub fn new(alloc: Global, most: usize, fails: Seq<u64>) -> MemSink
        ensures taken { result.taken ≡ [] }
        ensures most { result.most ≡ most }
        ensures fails { result.fails ≡ fails }
        ensures counts { (result.calls ≡ 0) × (result.faults ≡ 0) × (result.starved ≡ 0) }
    {
        MemSink {
            taken: Seq::new(alloc),
            most,
            fails,
            calls: 0,
            faults: 0,
            starved: 0,
        }
    }
}

impl Sink for MemSink {
    ghost bytes = { λ s. Some s.taken };

    ghost faults = { λ s. together s.faults s.starved };

    fn put(&mut self, piece: &[u8]) -> Result<usize, SinkFault>
        ensures within { IfOk result (λ n. n ≤ length piece.now) }
        ensures took { IfOk result (λ n. self.new.taken ≡ self.old.taken ++ take n piece.now) }
        ensures err { OnErr result (self.new.taken ≡ self.old.taken) }
        ensures later { together self.old.faults self.old.starved ≤ together self.new.faults self.new.starved }
        ensures failed { IsErr result → Rose (together self.old.faults self.old.starved)
            (together self.new.faults self.new.starved) }
        ensures none { IfOk result (λ n. n ≡ 0 → 0 < length piece.now
            → Rose (together self.old.faults self.old.starved)
            (together self.new.faults self.new.starved)) }
        // And exactly:
        ensures outcome { GivesOrStarves sink_fault
            (put_outcome (fails_at self.old.fails (one_more self.old.calls)) self.old.most
            (length piece.now)) result self.old.starved self.new.starved }
        ensures calls { self.new.calls ≡ one_more self.old.calls }
        ensures faults { self.new.faults
            ≡ counted (is_failed_put (fails_at self.old.fails
            (one_more self.old.calls)) self.old.most (length piece.now)) self.old.faults }
        ensures most { self.new.most ≡ self.old.most }
        ensures fails { self.new.fails ≡ self.old.fails }
    {
        self.calls = self.calls.saturating_add(1);
        if fails_at(self.fails.as_slice(), self.calls) {
            self.faults = self.faults.saturating_add(1);
            return Err(SinkFault);
        }
        let count = self.most.min(piece.len());
        if self.most == 0 && !piece.is_empty() {
            self.faults = self.faults.saturating_add(1);
        }
        if self.taken.extend_from_slice(&piece[..count]).is_err() {
            self.starved = self.starved.saturating_add(1);
            return Err(SinkFault);
        }
        Ok(count)
    }
}
