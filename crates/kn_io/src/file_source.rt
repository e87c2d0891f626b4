//! A source over a file.
ghost use Rattle.std.specs.Prelude.{◌≡◌, ◌≤◌, None, OnOk, OnErr};
ghost use Rattle.kn_io.specs.Faults.{Rose};
ghost use Rattle.kn_io.specs.FileSource.{file_faults};
ghost use Rattle.kn_io.specs.Source.{Gives};

use crate::adapters::count_fault;
use crate::failures::Failed;
use crate::piece::Piece;
use crate::source::Source;
use std::fs::{File, Files};
use std::io;

// A file that is opened for reading when it is first asked for.
#[derive(Drop)]
struct LateFile<F: Files> {
    files: F,
    path: String,
    file: Option<F::File>,
}

impl<F: Files> LateFile<F> {
    // The open file.
    fn opened(&mut self) -> io::Result<&mut F::File> {
        if self.file.is_none() {
            let file = File::options()
                .read(true)
                .open(&self.files, self.path.as_str())?;
            self.file = Some(file);
        }
        match &mut self.file {
            Some(file) => Ok(file),
            None => unreachable!(),
        }
    }

    // Reads the next bytes of the file.
    fn read(&mut self, into: &mut Piece) -> io::Result<()> {
        into.fill(self.opened()?)
    }
}

/// A source over a file, which it opens at its first call. Of what the file holds nothing is told.
#[derive(Drop)]
pub struct FileSource<F: Files> {
    file: LateFile<F>,
    piece: Piece,
    faults: u64,
}

impl<F: Files> FileSource<F> {
    /// The source at a path, with no faults so far. The file isn't opened yet.
    pub fn at(files: F, path: String) -> FileSource<F>
        ensures { file_faults result ≡ 0 }
    {
        FileSource {
            file: LateFile {
                files,
                path,
                file: None,
            },
            piece: Piece::new(),
            faults: 0,
        }
    }
}

impl<F: Files + Drop> Source for FileSource<F> {
    ghost left = { λ _. None };

    ghost faults = { file_faults };

    /// The next byte, or `None` where the file gave none.
    ///
    /// # Errors
    ///
    /// `Failed` where the file can't be opened or read. The count of faults rose, up to 2^64 - 1.
    fn next(&mut self) -> Result<Option<u8>, Failed>
        ensures gives { Gives None result None }
        ensures same { OnOk result (file_faults self.new ≡ file_faults self.old) }
        ensures counted { file_faults self.old ≤ file_faults self.new }
        ensures failed { OnErr result (Rose (file_faults self.old) (file_faults self.new)) }
    {
        match self.piece.next() {
            Some(byte) => return Ok(Some(byte)),
            None => {}
        }
        match self.file.read(&mut self.piece) {
            Ok(()) => Ok(self.piece.next()),
            Err(_) => Err(count_fault(&mut self.faults)),
        }
    }
}
