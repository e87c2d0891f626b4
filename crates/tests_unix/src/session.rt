//! The lines of a session.

use crate::boot::Entry;
use crate::calls::call_number;
use crate::escapes::{bytes_of, malformed, word_of};
use crate::program::Program;
use crate::running::run_session;
use crate::tally::Tally;
use std::alloc::Global;
use std::{fs, io};

/// Which part of the console's bytes a line expects, by where it ends.
#[derive(Clone, Copy, Debug)]
pub(crate) struct Mark {
    pub end: usize,
    pub line: usize,
}

/// A machine with its files, what its programs do, and what is expected of them.
#[derive(Drop)]
pub(crate) struct Session {
    pub name: String,
    pub pages: u32,
    pub entries: Vec<Entry>,
    /// Before how many of them `/init` stands, where that is said.
    pub init_place: Option<usize>,
    pub path: String,
    pub program: Program,
    pub input: Vec<u8>,
    pub failing_reads: Vec<u32>,
    pub expected: Vec<u8>,
    pub marks: Vec<Mark>,
    pub ending: String,
    pub holds: Vec<Entry>,
    pub left: Vec<u8>,
}

impl Session {
    /// A session of this name without lines yet.
    fn new(alloc: Global, name: &str) -> io::Result<Session> {
        Ok(Session {
            name: String::from_str(alloc, name)?,
            pages: 2048,
            entries: Vec::new(alloc),
            init_place: None,
            path: String::from_str(alloc, "/init")?,
            program: Program::first(alloc)?,
            input: Vec::new(alloc),
            failing_reads: Vec::new(alloc),
            expected: Vec::new(alloc),
            marks: Vec::new(alloc),
            ending: String::from_str(alloc, "halted 0")?,
            holds: Vec::new(alloc),
            left: Vec::new(alloc),
        })
    }

    /// The bytes that the console gets next, by a line.
    fn expect(&mut self, line: usize, bytes: &[u8]) -> io::Result<()> {
        self.expected.extend_from_slice(bytes)?;
        self.marks.push(Mark {
            end: self.expected.len(),
            line,
        })?;
        Ok(())
    }

    /// A value that is reported, by a line.
    fn expect_value(&mut self, line: usize, value: &str) -> io::Result<()> {
        let word = word_of(value)?;
        self.program.report()?;
        self.expect(line, &word.to_le_bytes())
    }

    /// The program that was being written is the file of its path, and another one begins.
    fn next_program(&mut self, rt: &HostRuntime, path: &str) -> io::Result<()> {
        let path = String::from_str(rt.alloc(), path)?;
        let done = std::mem::replace(&mut self.path, path);
        let program = std::mem::replace(&mut self.program, Program::new(rt.alloc()));
        let source = program.source()?;
        self.entries
            .push(Entry::assembled(rt, done, source.as_bytes())?)?;
        Ok(())
    }

    /// A program of the userland. Where it is the first one, the session's own program stands elsewhere.
    fn use_program(&mut self, rt: &HostRuntime, path: &str, name: &str) -> io::Result<()> {
        self.entries.push(Entry::of_userland(rt, path, name)?)?;
        if self.path.as_str() == path {
            self.path = String::from_str(rt.alloc(), "/session")?;
        }
        Ok(())
    }

    /// A line that says what the machine has: a word, and what belongs to it.
    fn set(&mut self, rt: &HostRuntime, word: &str, rest: &str) -> io::Result<()> {
        let alloc = rt.alloc();
        let (first, second) = match rest.split_once(' ') {
            Some((first, second)) => (first, second.trim()),
            None => (rest, ""),
        };
        match word {
            "pages" => self.pages = word_of(rest)?,
            "dir" => self.entries.push(Entry::directory(alloc, first)?)?,
            "file" => self
                .entries
                .push(Entry::file(alloc, first, bytes_of(alloc, second)?)?)?,
            "zeros" => self.entries.push(Entry::file(
                alloc,
                first,
                zeros(alloc, word_of(second)?)?,
            )?)?,
            "data" => self
                .entries
                .push(Entry::file(alloc, first, fs::read(rt, second)?)?)?,
            "program" => self.next_program(rt, first)?,
            "user" => self.use_program(rt, first, second)?,
            "input" => self
                .input
                .extend_from_slice(bytes_of(alloc, rest)?.as_slice())?,
            "fails" => self.failing_reads.push(word_of(rest)?)?,
            "ends" => self.ending = String::from_str(alloc, rest)?,
            "holds" => self
                .holds
                .push(Entry::file(alloc, first, bytes_of(alloc, second)?)?)?,
            "gone" => self.holds.push(Entry::directory(alloc, first)?)?,
            "left" => self
                .left
                .extend_from_slice(bytes_of(alloc, rest)?.as_slice())?,
            _ => return Err(malformed()),
        }
        Ok(())
    }

    /// A line of the program: what is shown or told, a call, or an instruction as it stands.
    fn step(&mut self, alloc: Global, number: usize, line: &str) -> io::Result<()> {
        let (word, rest) = match line.split_once(' ') {
            Some((word, rest)) => (word, rest.trim()),
            None => (line, ""),
        };
        let (left, value) = match rest.split_once(" = ") {
            Some((left, value)) => (left.trim(), Some(value.trim())),
            None => match rest.strip_prefix("= ") {
                Some(value) => ("", Some(value.trim())),
                None => (rest, None),
            },
        };
        if call_number(word).is_some() {
            self.program.call(word, left)?;
            return match value {
                Some(value) => self.expect_value(number, value),
                None => Ok(()),
            };
        }
        match (word, value) {
            ("value", Some(value)) => {
                if !left.is_empty() {
                    self.program.argument(0, left)?;
                }
                self.expect_value(number, value)
            }
            ("word", Some(value)) => {
                self.program.argument(1, left)?;
                self.program.line("lw a0, 0(a1)")?;
                self.expect_value(number, value)
            }
            ("shows", Some(text)) => self.show(alloc, number, left, text),
            ("console", Some(text)) => {
                let bytes = bytes_of(alloc, text)?;
                self.expect(number, bytes.as_slice())
            }
            ("told", Some(value)) => {
                let word = word_of(value)?;
                self.expect(number, &word.to_le_bytes())
            }
            ("data", None) => self.program.data_line(left),
            _ => self.program.line(line),
        }
    }

    /// The bytes at an address, as many as a text has, are put to the console.
    fn show(&mut self, alloc: Global, number: usize, place: &str, text: &str) -> io::Result<()> {
        let bytes = bytes_of(alloc, text)?;
        let count = bytes.len();
        self.program.line("li a0, 31")?;
        self.program.argument(1, place)?;
        let line = format!(in alloc; "li a2, {count}")?;
        self.program.line(line.as_str())?;
        self.program.line("li a7, 12")?;
        self.program.line("ecall")?;
        self.expect(number, bytes.as_slice())
    }
}

/// So many zeros.
fn zeros(alloc: Global, count: u32) -> io::Result<Vec<u8>> {
    let mut bytes = Vec::new(alloc);
    for _ in 0..count {
        bytes.push(0)?;
    }
    Ok(bytes)
}

/// Runs each session of a text: one begins at each line of `=` and a name. Lines behind `* setup` are kept, and stand for
/// each line `@ setup`.
pub(crate) fn run_sessions(rt: &HostRuntime, text: &str, tally: &mut Tally) -> io::Result<()> {
    let mut setup = Vec::new(rt.alloc());
    let mut is_setup = false;
    let mut session: Option<Session> = None;
    for (number, line) in text.lines().enumerate() {
        let line = line.trim();
        if let Some(name) = line.strip_prefix("= ") {
            if let Some(done) = session {
                run_session(rt, done, tally)?;
            }
            session = Some(Session::new(rt.alloc(), name)?);
            is_setup = false;
        } else if line == "* setup" {
            is_setup = true;
        } else if is_setup {
            setup.push(String::from_str(rt.alloc(), line)?)?;
        } else if let Some(session) = &mut session {
            add_lines(rt, session, number, line, setup.as_slice())?;
        }
    }
    match session {
        Some(done) => run_session(rt, done, tally),
        None => Ok(()),
    }
}

/// A line of a session, or the lines that were kept.
fn add_lines(
    rt: &HostRuntime,
    session: &mut Session,
    number: usize,
    line: &str,
    setup: &[String],
) -> io::Result<()> {
    if line != "@ setup" {
        return add_line(rt, session, number, line);
    }
    for kept in setup {
        add_line(rt, session, number, kept.as_str())?;
    }
    Ok(())
}

/// A line of a session; none that is empty or begins with `#`.
fn add_line(rt: &HostRuntime, session: &mut Session, number: usize, line: &str) -> io::Result<()> {
    if line.is_empty() || line.starts_with('#') {
        return Ok(());
    }
    match line.strip_prefix("@ ") {
        Some("init") => {
            session.init_place = Some(session.entries.len());
            Ok(())
        }
        Some(set) => match set.split_once(' ') {
            Some((word, rest)) => session.set(rt, word, rest.trim()),
            None => Err(malformed()),
        },
        None => session.step(rt.alloc(), number.saturating_add(1), line),
    }
}
