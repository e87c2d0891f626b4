//! The assembly source that a session's lines make.

use crate::calls::call_number;
use crate::escapes::malformed;
use std::alloc::Global;
use std::io;

/// A program that is being written: its text, its data, and how many texts it has there.
#[derive(Drop)]
pub(crate) struct Program {
    alloc: Global,
    text: String,
    data: String,
    texts: u32,
}

/// Where a program writes the values that it reports: the console, at a descriptor of its own.
const REPORT: &str = "
        li a0, 0
        li a7, 1
        ecall
report: mv s11, a0
        la t0, report_word
        sw a0, 0(t0)
        li a0, 31
        la a1, report_word
        li a2, 4
        li a7, 12
        ecall
        mv a0, s11
        ret
";

/// What every program has in its data: a word to report, and two pages for whatever its lines want.
const DATA: &str = "
        .data
buffer: .space 8192
report_word: .word 0
";

impl Program {
    /// A program without lines yet.
    pub(crate) fn new(alloc: Global) -> Program {
        Program {
            alloc,
            text: String::new(alloc),
            data: String::new(alloc),
            texts: 0,
        }
    }

    /// The first program of a session keeps what it begins with in `s9` and `s10`, and takes the console as descriptor 31.
    pub(crate) fn first(alloc: Global) -> io::Result<Program> {
        let mut program = Program::new(alloc);
        program.line("mv s9, a0")?;
        program.line("mv s10, a1")?;
        program.line("li a0, 1")?;
        program.line("li a1, 31")?;
        program.line("li a7, 15")?;
        program.line("ecall")?;
        Ok(program)
    }

    /// A line as it stands.
    pub(crate) fn line(&mut self, line: &str) -> io::Result<()> {
        self.text.push_str(line)?;
        self.text.push('\n')?;
        Ok(())
    }

    /// A line of the data.
    pub(crate) fn data_line(&mut self, line: &str) -> io::Result<()> {
        self.data.push_str(line)?;
        self.data.push('\n')?;
        Ok(())
    }

    /// The value in `a0` is reported.
    pub(crate) fn report(&mut self) -> io::Result<()> {
        self.line("call report")
    }

    /// A system call by its name, with its arguments between commas.
    pub(crate) fn call(&mut self, name: &str, arguments: &str) -> io::Result<()> {
        let number = match call_number(name) {
            Some(number) => number,
            None => return Err(malformed()),
        };
        let mut register = 0u32;
        for argument in arguments.split(',') {
            let argument = argument.trim();
            if !argument.is_empty() {
                self.argument(register, argument)?;
            }
            register = register.saturating_add(1);
        }
        let line = format!(in self.alloc; "li a7, {number}")?;
        self.line(line.as_str())?;
        self.line("ecall")
    }

    /// An argument in its register: a text in quotes, a place in the buffer, a label after `&`, a register, or a number.
    pub(crate) fn argument(&mut self, register: u32, argument: &str) -> io::Result<()> {
        if argument.starts_with('"') {
            return self.text_argument(register, argument);
        }
        if let Some(label) = argument.strip_prefix("&") {
            let line = format!(in self.alloc; "la a{register}, {label}")?;
            return self.line(line.as_str());
        }
        if let Some(place) = argument.strip_prefix("buffer") {
            return self.place_argument(register, place);
        }
        let line = if is_register(argument) {
            format!(in self.alloc; "mv a{register}, {argument}")?
        } else {
            format!(in self.alloc; "li a{register}, {argument}")?
        };
        self.line(line.as_str())
    }

    /// A text in the data, with a NUL after it, and its address.
    fn text_argument(&mut self, register: u32, quoted: &str) -> io::Result<()> {
        let number = self.texts;
        self.texts = self.texts.saturating_add(1);
        let line = format!(in self.alloc; "text{number}: .ascii {quoted}")?;
        self.data_line(line.as_str())?;
        self.data_line(".byte 0")?;
        let line = format!(in self.alloc; "la a{register}, text{number}")?;
        self.line(line.as_str())
    }

    /// A place of the buffer: its start, or with a sum so many bytes on.
    fn place_argument(&mut self, register: u32, place: &str) -> io::Result<()> {
        let line = format!(in self.alloc; "la a{register}, buffer")?;
        self.line(line.as_str())?;
        if let Some(distance) = place.strip_prefix("+") {
            let line = format!(in self.alloc; "li t0, {distance}")?;
            self.line(line.as_str())?;
            let line = format!(in self.alloc; "add a{register}, a{register}, t0")?;
            self.line(line.as_str())?;
        }
        Ok(())
    }

    /// The whole source.
    pub(crate) fn source(mut self) -> io::Result<String> {
        self.text.push_str(REPORT)?;
        self.text.push_str(DATA)?;
        self.text.push_str(self.data.as_str())?;
        Ok(self.text)
    }
}

/// Whether an argument names a register: `sp`, or a letter of `a`, `s` and `t` before digits.
fn is_register(argument: &str) -> bool {
    match argument.split_at_checked(1) {
        Some(("a" | "s" | "t", number)) => number == "p" || number.parse::<u32>().is_ok(),
        _ => false,
    }
}
