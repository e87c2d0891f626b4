//! The first reading of a source: where its labels stand.

ghost use Rattle.std.specs.Prelude.{◌≡◌, ◌+◌, ◌*◌, ◌≤◌, ◌<◌, List, ℕ, Option, option_map, length, IfOk, OnOk};
ghost use Rattle.unix_model.specs.Texts.{lines_of};
ghost use Rattle.rv_asm.specs.Answers.{Gives, places_of, scan_view};
ghost use Rattle.rv_asm.specs.Layout.{place_of};
ghost use Rattle.rv_asm.specs.Programs as model;

use crate::fault::{AsmFault, AsmKind};
use crate::labels::Labels;
use crate::layout::Position;
use crate::letters::is_label;
use crate::lines::parts_of;
use crate::statement::statement_of;
use kn_text::split_line;
use std::alloc::Global;

/// The most lines that a source has.
const MOST_LINES: u32 = 100_000;

/// The most bytes that a line has, without its line feed.
pub const MOST_LINE_BYTES: usize = 1024;

/// What the lines so far have said.
#[derive(Drop)]
pub struct Scan<'a> {
    pub position: Position,
    pub labels: Labels<'a>,
}

impl<'a> Scan<'a> {
    /// Before the first line.
    pub fn start(alloc: Global) -> Scan<'a>
        ensures { scan_view result ≡ model.start_scan }
    {
        Scan {
            position: Position::start(),
            labels: Labels::new(alloc),
        }
    }

    /// A line's label, where it has one.
    fn label(&mut self, number: u32, name: Option<&'a [u8]>) -> Result<(), AsmFault>
        ensures labelled { Gives (λ u. places_of self.new.labels.places) result (model.at_line number (model.labelled (places_of self.old.labels.places) (place_of self.old.position) (option_map (λ name. name.now) name.entry))) }
        ensures position { self.new.position ≡ self.old.position }
    {
        let name = match name {
            Some(name) => name,
            None => return Ok(()),
        };
        if !is_label(name) {
            return Err(AsmFault::At {
                kind: AsmKind::Syntax,
                line: number,
            });
        }
        if self.labels.place(name).is_some() {
            return Err(AsmFault::At {
                kind: AsmKind::DoubleLabel,
                line: number,
            });
        }
        match self.labels.insert(name, self.position.place()) {
            Ok(()) => Ok(()),
            Err(_) => Err(AsmFault::NoMemory),
        }
    }

    /// One line: its length, its label, and its statement.
    #[tactic(auto, unfolding(crate::specs::Programs::scan_line))]
    fn line(&mut self, number: u32, line: &'a [u8]) -> Result<(), AsmFault>
        requires text_fits { self.old.position.text_bytes ≤ 2305843009213693952 }
        requires data_fits { self.old.position.data_bytes ≤ 2305843009213693952 }
        ensures scanned { Gives (λ u. scan_view self.new) result (model.at_line number (model.scan_line (scan_view self.old) line.now)) }
        ensures text_bound { self.new.position.text_bytes ≤ self.old.position.text_bytes + 4294967296 }
        ensures data_bound { self.new.position.data_bytes ≤ self.old.position.data_bytes + 4294967296 }
    {
        if MOST_LINE_BYTES < line.len() {
            return Err(AsmFault::At {
                kind: AsmKind::TooLong,
                line: number,
            });
        }
        let parts = parts_of(line);
        match self.label(number, parts.label) {
            Ok(()) => {}
            Err(fault) => return Err(fault),
        }
        match statement_of(self.position.part, parts.statement) {
            Some(statement) => {
                self.position = self.position.after(&statement);
                Ok(())
            }
            None => Err(AsmFault::At {
                kind: AsmKind::Syntax,
                line: number,
            }),
        }
    }
}

/// Where the labels of a source stand, and how many lines it has; or the first line that is refused by itself.
pub fn first_reading<'a>(alloc: Global, source: &'a [u8]) -> Result<(Scan<'a>, u32), AsmFault>
    ensures scanned { Gives (λ found. scan_view found.0) result (model.scan_lines 1 model.start_scan (lines_of source.now)) }
    ensures counted { IfOk result (λ found. found.1 ≡ length (lines_of source.now)) }
    ensures few { IfOk result (λ found. found.1 ≤ 100000) }
{
    let mut scan = Scan::start(alloc);
    let mut rest = source;
    let mut number = 1u32;
    while !rest.is_empty() {
        let (line, after) = split_line(rest);
        if MOST_LINES < number {
            return Err(AsmFault::At {
                kind: AsmKind::TooLong,
                line: number,
            });
        }
        match scan.line(number, line) {
            Ok(()) => {}
            Err(fault) => return Err(fault),
        }
        rest = after;
        number += 1;
    }
    Ok((scan, number - 1))
}
