// From the text of a case file to its cases.
use crate::case::{Case, Kind};
use crate::fault::Fault;
use std::alloc::Global;

/// The most copies that one line of a case may ask for.
const MOST_COPIES: usize = 1_000_000;

/// What the next line of a text belongs to.
#[derive(Clone, Copy, Debug, PartialEq, Eq)]
enum Part {
    Nothing,
    Given,
    Wanted,
}

/// The cases that were read so far. The last one is the one that lines still belong to.
#[derive(Drop)]
struct Reader {
    cases: Vec<Case>,
    part: Part,
    /// whether the part has no line yet
    is_empty: bool,
}

/// The cases of a text, in order. Blank lines and lines that begin with `#` are passed over.
pub fn cases_of(alloc: Global, text: &str) -> Result<Vec<Case>, Fault> {
    let mut reader = Reader {
        cases: Vec::new(alloc),
        part: Part::Nothing,
        is_empty: true,
    };
    let mut number = 0u32;
    for line in text.lines() {
        number = number.saturating_add(1);
        if !line.is_empty() && !line.starts_with('#') {
            reader.take_line(alloc, line, number)?;
        }
    }
    Ok(reader.cases)
}

impl Reader {
    // One line that is neither blank nor a comment.
    fn take_line(&mut self, alloc: Global, line: &str, number: u32) -> Result<(), Fault> {
        if let Some(head) = line.strip_prefix("case ") {
            return self.begin(alloc, head, number);
        }
        if line == "gives" && self.part == Part::Given {
            self.part = Part::Wanted;
            self.is_empty = true;
            return Ok(());
        }
        match line.split_once(' ') {
            Some(("|", rest)) => self.add_line(rest, number),
            Some(("+", rest)) => self.add_text(rest, number),
            Some(("*", rest)) => self.add_copies(alloc, rest, number),
            Some(_) => Err(Fault::Line(number)),
            None if line == "|" => self.add_line("", number),
            None => Err(Fault::Line(number)),
        }
    }

    // A new case, by its kind and its name.
    fn begin(&mut self, alloc: Global, head: &str, number: u32) -> Result<(), Fault> {
        let Some((word, name)) = head.split_once(": ") else {
            return Err(Fault::Line(number));
        };
        let Some(kind) = Kind::of(word) else {
            return Err(Fault::Line(number));
        };
        self.cases.push(Case {
            line: number,
            name: String::from_str(alloc, name)?,
            kind,
            given: String::new(alloc),
            wanted: String::new(alloc),
        })?;
        self.part = Part::Given;
        self.is_empty = true;
        Ok(())
    }

    // A further line of the part.
    fn add_line(&mut self, text: &str, number: u32) -> Result<(), Fault> {
        if !self.is_empty {
            self.add_text("\n", number)?;
        }
        self.is_empty = false;
        self.add_text(text, number)
    }

    // More text of the last line.
    fn add_text(&mut self, text: &str, number: u32) -> Result<(), Fault> {
        let Some(case) = self.cases.last_mut() else {
            return Err(Fault::Line(number));
        };
        match self.part {
            Part::Nothing => Err(Fault::Line(number)),
            Part::Given => Ok(case.given.push_str(text)?),
            Part::Wanted => Ok(case.wanted.push_str(text)?),
        }
    }

    // So many copies of a text behind the last line.
    fn add_copies(&mut self, alloc: Global, rest: &str, number: u32) -> Result<(), Fault> {
        let Some((count, text)) = rest.split_once(' ') else {
            return Err(Fault::Line(number));
        };
        match count.parse::<usize>() {
            Ok(count) if count <= MOST_COPIES => {
                let copies = text.repeat(alloc, count)?;
                self.add_text(copies.as_str(), number)
            }
            _ => Err(Fault::Line(number)),
        }
    }
}
