//! A disk over a file.
ghost use Rattle.std.specs.Prelude.{◌≡◌, ◌≤◌, OnOk, OnErr, []};
ghost use Rattle.kn_io.specs.Faults.{Rose};
ghost use Rattle.kn_disk.specs.FileDisk.{file_faults};

use crate::disk::Disk;
use kn_io::Failed;
use std::fs::{File, Files, OpenFile};
use std::io;
use std::io::{Read, Seek, SeekFrom, Write};

// A file that is opened when it is first asked for.
#[derive(Drop)]
struct LateFile<F: Files> {
    files: F,
    path: String,
    file: Option<F::File>,
}

impl<F: Files> LateFile<F> {
    // The open file. It is made where it is absent, and what it holds stays.
    fn opened(&mut self) -> io::Result<&mut F::File> {
        if self.file.is_none() {
            let file = File::options()
                .read(true)
                .write(true)
                .create(true)
                .open(&self.files, self.path.as_str())?;
            self.file = Some(file);
        }
        match &mut self.file {
            Some(file) => Ok(file),
            None => unreachable!(),
        }
    }

    fn length(&mut self) -> io::Result<u64> {
        Ok(self.opened()?.metadata()?.len())
    }

    fn set_length(&mut self, length: u64) -> io::Result<()> {
        self.opened()?.set_len(length)
    }

    fn read_at(&mut self, at: u64, into: &mut [u8]) -> io::Result<()> {
        let file = self.opened()?;
        file.seek(SeekFrom::Start(at))?;
        file.read_exact(into)
    }

    fn write_at(&mut self, at: u64, from: &[u8]) -> io::Result<()> {
        let file = self.opened()?;
        file.seek(SeekFrom::Start(at))?;
        file.write_all(from)
    }

    // Data and length are on the disk after it.
    fn sync(&mut self) -> io::Result<()> {
        self.opened()?.sync_all()
    }
}

/// A disk over a file, which it opens at its first call and makes where it is absent. Of what a file
/// holds nothing is told.
#[derive(Drop)]
pub struct FileDisk<F: Files> {
    file: LateFile<F>,
    faults: u64,
}

impl<F: Files> FileDisk<F> {
    /// The disk at a path, with no faults so far. The file isn't opened yet.
    pub fn at(files: F, path: String) -> FileDisk<F>
        ensures { file_faults result ≡ 0 }
    {
        FileDisk {
            file: LateFile {
                files,
                path,
                file: None,
            },
            faults: 0,
        }
    }

    // Counts a call that failed.
    fn answer<T>(&mut self, answer: io::Result<T>) -> Result<T, Failed>
        ensures same { OnOk result (file_faults self.new ≡ file_faults self.old) }
        ensures counted { file_faults self.old ≤ file_faults self.new }
        ensures failed { OnErr result (Rose (file_faults self.old) (file_faults self.new)) }
    {
        match answer {
            Ok(value) => Ok(value),
            Err(_) => {
                self.faults = self.faults.saturating_add(1);
                Err(Failed)
            }
        }
    }
}

impl<F: Files + Drop> Disk for FileDisk<F> {
    ghost tells = { ⊥ };

    ghost contents = { λ _. [] };

    ghost image = { λ _ c. ⊥ };

    ghost moment = { λ _. 0 };

    ghost since = { λ _ t c. ⊥ };

    ghost faults = { file_faults };

    fn length(&mut self) -> Result<u64, Failed> {
        let answer = self.file.length();
        self.answer(answer)
    }

    fn set_length(&mut self, length: u64) -> Result<(), Failed> {
        let answer = self.file.set_length(length);
        self.answer(answer)
    }

    fn read_at(&mut self, at: u64, into: &mut [u8]) -> Result<(), Failed> {
        let answer = self.file.read_at(at, into);
        self.answer(answer)
    }

    fn write_at(&mut self, at: u64, from: &[u8]) -> Result<(), Failed> {
        let answer = self.file.write_at(at, from);
        self.answer(answer)
    }

    fn sync(&mut self) -> Result<(), Failed> {
        let answer = self.file.sync();
        self.answer(answer)
    }

    ghost contents_image = { λ d told. absurd told };

    ghost counts_now = { λ d t c le now. absurd now };

    ghost only_now = { λ d c left. absurd left };
}
