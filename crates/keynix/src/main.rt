//! The program: does one command over standard input and output, and ends with a status.
#![tactic(auto)]

mod asm;
mod boot;
mod ending;
mod fault;
mod finish;
mod given;
mod once;
mod run;
mod schedule;
#[cfg(test)]
mod tests;
mod top;
mod work;

use crate::finish::Status;
use crate::top::keynix;
use kn_io::{FileSource, ReadSource, WriteSink};
use std::alloc::{AllocError, Global};
use std::env;
use std::io::{self, BufReader};
use std::process::ExitCode;
use std::rt::Env;

/// The words after the program's name; none where they can't be read as text.
fn read_words(rt: &(impl Env + Alloc<A = Global>)) -> Result<Vec<String>, AllocError> {
    let mut words = Vec::new(rt.alloc());
    match env::args(rt) {
        Ok(args) => {
            for word in args.skip(1) {
                words.push(word)?;
            }
            Ok(words)
        }
        Err(error) => {
            if error.kind() == io::ErrorKind::OutOfMemory {
                Err(AllocError)
            } else {
                Ok(words)
            }
        }
    }
}

/// The path of the plan: the disk's word, which is empty where there is none, with `.plan` after it.
fn plan_path(alloc: Global, words: &[String]) -> Result<String, AllocError> {
    let disk = match words.first() {
        Some(disk) => disk.as_str(),
        None => "",
    };
    format!(in alloc; "{disk}.plan")
}

fn main(rt: HostRuntime) -> ExitCode {
    let words = match read_words(&rt) {
        Ok(words) => words,
        Err(_) => return ExitCode::from(6),
    };
    let path = match plan_path(rt.alloc(), &words) {
        Ok(path) => path,
        Err(_) => return ExitCode::from(6),
    };
    let files = match rt.clone() {
        Ok(files) => files,
        Err(_) => return ExitCode::from(6),
    };
    let reader = match BufReader::new(rt.alloc(), rt.reader()) {
        Ok(reader) => reader,
        Err(_) => return ExitCode::from(6),
    };
    let Status(status) = keynix(
        rt.alloc(),
        &words,
        &mut FileSource::at(files, path),
        &mut ReadSource::new(reader),
        &mut WriteSink::new(rt.stdout()),
        &mut WriteSink::new(rt.stderr()),
    );
    ExitCode::from(status)
}
