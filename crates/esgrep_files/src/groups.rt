//! Matches with their groups, as lines of JSON.

use crate::refusal::Refusal;
use esgrep_lines::{FindError, Finder};
use esgrep_patterns::Patterns;
use esgrep_rows::{Options, body_of, first_line};
use memchr::memchr_iter;
use regress::{Match, Range};
use serde_json::{Map, Value, json};
use std::alloc::{AllocError, Global};

/// A line of a text: the text's name, the line's number and offset, and what is searched of it.
#[derive(Clone, Copy)]
struct Place<'p> {
    alloc: Global,
    name: &'p str,
    number: usize,
    start: usize,
    body: &'p str,
}

impl Place<'_> {
    /// A range of the line, told in bytes of the text, and what stands there; null without a range.
    fn value(&self, range: Option<Range>) -> Result<Value, AllocError> {
        let Some(range) = range else {
            return Ok(Value::Null);
        };
        let text = self.body.get(range.start..range.end).unwrap_or("");
        let start = self.start.saturating_add(range.start) as u64;
        let end = self.start.saturating_add(range.end) as u64;
        json!(in self.alloc; {"range": [start, end], "text": text})
    }

    /// The groups of a match by number, the whole match first.
    fn groups(&self, found: &Match) -> Result<Value, AllocError> {
        let mut groups = Vec::new(self.alloc);
        for range in found.groups() {
            groups.push(self.value(range)?)?;
        }
        Ok(Value::Array(groups))
    }

    /// The groups of a match by name.
    fn names(&self, found: &Match) -> Result<Value, AllocError> {
        let mut names = Map::new(self.alloc);
        for (name, range) in found.named_groups() {
            names.insert(String::from_str(self.alloc, name)?, self.value(range)?)?;
        }
        Ok(Value::Object(names))
    }

    /// The line of JSON of a match.
    fn line(&self, found: &Match) -> Result<String, AllocError> {
        let number = self.number as u64;
        let groups = self.groups(found)?;
        let names = self.names(found)?;
        let value =
            json!(in self.alloc; {"file": self.name, "line": number, "groups": groups, "names": names})?;
        let mut line = value.to_string(self.alloc)?;
        line.push('\n')?;
        Ok(line)
    }
}

/// The lines of JSON of the matches of patterns in a text of this name.
#[derive(Drop)]
pub(crate) struct GroupRows<'s, 'p> {
    alloc: Global,
    patterns: &'s Patterns<'p>,
    options: &'s Options,
    name: &'s str,
    pub rows: String,
    /// The offsets of lines whose search was given up; of a text that is searched whole, its own.
    pub given_up: Vec<usize>,
}

impl<'s, 'p> GroupRows<'s, 'p> {
    /// None yet.
    pub fn new(
        alloc: Global,
        patterns: &'s Patterns<'p>,
        options: &'s Options,
        name: &'s str,
    ) -> GroupRows<'s, 'p> {
        GroupRows {
            alloc,
            patterns,
            options,
            name,
            rows: String::new(alloc),
            given_up: Vec::new(alloc),
        }
    }

    /// All matches in a text that stands at `start`; none where the search is given up, and then `start` is noted.
    fn find_or_note(&mut self, start: usize, text: &str) -> Result<Vec<Match>, Refusal> {
        let mut founds = Vec::new(self.alloc);
        match self.patterns.find_into(start, text, &mut founds) {
            Ok(()) => {}
            Err(FindError::OutOfMemory) => return Err(Refusal::OutOfMemory),
            Err(FindError::GivenUp) => {
                founds.clear();
                self.given_up.push(start)?;
            }
        }
        Ok(founds)
    }

    /// Appends the line of a match in what is searched of a line.
    fn push(
        &mut self,
        number: usize,
        start: usize,
        body: &str,
        found: &Match,
    ) -> Result<(), AllocError> {
        let place = Place {
            alloc: self.alloc,
            name: self.name,
            number,
            start,
            body,
        };
        self.rows.push_str(place.line(found)?.as_str())
    }

    /// Appends the line of each match in a text, each line of it searched alone, and answers how many lines have one, at most as many
    /// as the options say.
    pub fn push_of_lines(&mut self, text: &str) -> Result<usize, Refusal> {
        let Options { ending, most, .. } = *self.options;
        let mut count = 0;
        let mut number: usize = 1;
        let mut rest = text;
        while !rest.is_empty() && count < most {
            let (line, behind) = first_line(rest, ending);
            let body = body_of(line, ending);
            let start = text.len().saturating_sub(rest.len());
            let founds = self.find_or_note(start, body)?;
            for found in &founds {
                self.push(number, start, body, found)?;
            }
            count += usize::from(!founds.is_empty());
            number = number.saturating_add(1);
            rest = behind;
        }
        Ok(count)
    }

    /// Appends the line of each match in a text, which is searched whole, and answers how many matches there are, at most as many as
    /// the options say. The number is that of the line in which a match begins.
    pub fn push_whole(&mut self, text: &str) -> Result<usize, Refusal> {
        let Options { ending, most, .. } = *self.options;
        let founds = self.find_or_note(0, text)?;
        let mut number: usize = 1;
        let mut behind = 0;
        for found in founds.iter().take(most) {
            let passed = text.as_bytes().get(behind..found.start()).unwrap_or(&[]);
            let ends = memchr_iter(ending.byte(), passed).count();
            number = number.saturating_add(ends);
            behind = found.start();
            self.push(number, 0, text, found)?;
        }
        Ok(founds.len().min(most))
    }
}
