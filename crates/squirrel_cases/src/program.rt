// What the program answers for the words of a command, over files and a sink in memory.
use sq_base::{NoMemory, Seq, Text};
use sq_edge::{MemShelf, MemSink, Shelf, ShelfError};
use sq_run::squirrel_run;
use std::alloc::Global;

/// The most bytes that one call of the sink takes where a case says nothing of it.
const MOST_TAKEN: usize = 1_000_000;

/// What the lines of a file are: each ended by a newline, or parted by newlines.
#[derive(Clone, Copy, Debug, PartialEq, Eq)]
enum Lines {
    Ended,
    Parted,
}

#[derive(Drop)]
struct File {
    name: String,
    text: String,
    lines: Lines,
    /// whether it has no line yet
    is_empty: bool,
}

/// The words of a command, the files, and what the outside does.
#[derive(Drop)]
struct Run {
    words: Vec<String>,
    files: Vec<File>,
    /// How many bytes one call of the sink takes at most.
    most: usize,
    /// The numbers of the calls of the shelf that fail, and of those of the sink.
    shelf_fails: Vec<u64>,
    sink_fails: Vec<u64>,
    /// Whether the numbers of the calls are told too.
    tells_calls: bool,
}

/// The status, the lines that were put, and each file that was not there before as it is now;
/// or the line that says nothing of a run.
pub fn program(alloc: Global, given: &str) -> Result<String, NoMemory> {
    let mut run = Run::new(alloc);
    for (at, line) in given.lines().enumerate() {
        if at == 0 {
            run.words = words_of(alloc, line)?;
        } else if !run.take_line(alloc, line)? {
            return Ok(format!(in alloc; "no line of a run: {line}")?);
        }
    }
    run.outcome(alloc)
}

fn words_of(alloc: Global, line: &str) -> Result<Vec<String>, NoMemory> {
    let mut words = Vec::new(alloc);
    for word in line.split(' ') {
        if !word.is_empty() {
            words.push(String::from_str(alloc, word)?)?;
        }
    }
    Ok(words)
}

impl File {
    fn new(alloc: Global, name: &str, lines: Lines) -> Result<File, NoMemory> {
        Ok(File {
            name: String::from_str(alloc, name)?,
            text: String::new(alloc),
            lines,
            is_empty: true,
        })
    }

    fn add_line(&mut self, line: &str) -> Result<(), NoMemory> {
        if self.lines == Lines::Parted && !self.is_empty {
            self.text.push_str("\n")?;
        }
        self.text.push_str(line)?;
        if self.lines == Lines::Ended {
            self.text.push_str("\n")?;
        }
        self.is_empty = false;
        Ok(())
    }

    // Whether it has this name and these bytes.
    fn is(&self, name: &str, bytes: &[u8]) -> bool {
        self.name.as_str() == name && self.text.as_str().as_bytes() == bytes
    }
}

impl Run {
    fn new(alloc: Global) -> Run {
        Run {
            words: Vec::new(alloc),
            files: Vec::new(alloc),
            most: MOST_TAKEN,
            shelf_fails: Vec::new(alloc),
            sink_fails: Vec::new(alloc),
            tells_calls: false,
        }
    }

    // Takes a line behind the first, and says whether it is one of a run.
    fn take_line(&mut self, alloc: Global, line: &str) -> Result<bool, NoMemory> {
        if let Some(text) = line.strip_prefix("  ") {
            return self.add_text(text);
        }
        if let Some(name) = line.strip_prefix("file ") {
            self.files.push(File::new(alloc, name, Lines::Ended)?)?;
            return Ok(true);
        }
        if let Some(name) = line.strip_prefix("text ") {
            self.files.push(File::new(alloc, name, Lines::Parted)?)?;
            return Ok(true);
        }
        if let Some(number) = line.strip_prefix("shelf fails ") {
            return add_number(&mut self.shelf_fails, number);
        }
        if let Some(number) = line.strip_prefix("sink fails ") {
            return add_number(&mut self.sink_fails, number);
        }
        if let Some(number) = line.strip_prefix("sink takes ") {
            return Ok(self.set_most(number));
        }
        self.tells_calls = line == "tell calls";
        Ok(self.tells_calls)
    }

    // A further line of the last file.
    fn add_text(&mut self, text: &str) -> Result<bool, NoMemory> {
        match self.files.last_mut() {
            Some(file) => {
                file.add_line(text)?;
                Ok(true)
            }
            None => Ok(false),
        }
    }

    fn set_most(&mut self, number: &str) -> bool {
        match number.parse::<usize>() {
            Ok(most) => {
                self.most = most;
                true
            }
            Err(_) => false,
        }
    }

    // A shelf with the files, of whose calls none was made yet.
    fn shelf(&self, alloc: Global) -> Result<MemShelf, NoMemory> {
        let mut shelf = MemShelf::new(Seq::new(alloc), Seq::new(alloc));
        for file in self.files.iter() {
            if put_file(&mut shelf, file).is_err() {
                return Err(NoMemory);
            }
        }
        shelf.fails = Seq::from_slice(alloc, self.shelf_fails.as_slice())?;
        shelf.calls = 0;
        Ok(shelf)
    }

    fn outcome(&self, alloc: Global) -> Result<String, NoMemory> {
        let mut shelf = self.shelf(alloc)?;
        let fails = Seq::from_slice(alloc, self.sink_fails.as_slice())?;
        let mut out = MemSink::new(alloc, self.most, fails);
        let status = squirrel_run(alloc, self.words.as_slice(), &mut shelf, &mut out);
        let mut told = format!(in alloc; "{status:?}")?;
        add_lines(&mut told, "\n", out.taken.as_slice())?;
        self.add_new_files(alloc, &mut told, shelf.files.as_slice())?;
        if self.tells_calls {
            let calls = format!(in alloc;
                "\ncalls of the shelf: {}, of the sink: {}",
                shelf.calls, out.calls
            )?;
            told.push_str(calls.as_str())?;
        }
        Ok(told)
    }

    // Each file that is not one of those given, with its lines.
    fn add_new_files(
        &self,
        alloc: Global,
        told: &mut String,
        files: &[(Text, Seq<u8>)],
    ) -> Result<(), NoMemory> {
        for (name, bytes) in files {
            let is_given = self
                .files
                .iter()
                .any(|file| file.is(name.as_str(), bytes.as_slice()));
            if !is_given {
                let line = format!(in alloc; "\nfile {}", name.as_str())?;
                told.push_str(line.as_str())?;
                add_lines(told, "\n  ", bytes.as_slice())?;
            }
        }
        Ok(())
    }
}

fn add_number(numbers: &mut Vec<u64>, number: &str) -> Result<bool, NoMemory> {
    match number.parse::<u64>() {
        Ok(number) => {
            numbers.push(number)?;
            Ok(true)
        }
        Err(_) => Ok(false),
    }
}

fn put_file(shelf: &mut MemShelf, file: &File) -> Result<(), ShelfError> {
    shelf.create(file.name.as_str())?;
    shelf.append(file.name.as_str(), file.text.as_str().as_bytes())
}

// The lines of a text, each behind `before`, and whether its last one is not ended.
fn add_lines(told: &mut String, before: &str, bytes: &[u8]) -> Result<(), NoMemory> {
    let Ok(text) = str::from_utf8(bytes) else {
        told.push_str(before)?;
        told.push_str("(bytes that are no text)")?;
        return Ok(());
    };
    for line in text.lines() {
        told.push_str(before)?;
        told.push_str(line)?;
    }
    if !text.is_empty() && !text.ends_with('\n') {
        told.push_str(" (no newline)")?;
    }
    Ok(())
}
