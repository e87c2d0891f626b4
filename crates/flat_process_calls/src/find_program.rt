//! The search for a program, and its loading.

ghost use Rattle.std.specs.Prelude.{◌≡◌, ◌≤◌, IfOk, length};
ghost use Rattle.elf_read.specs.Accepted.{IsSound};
ghost use Rattle.elf_read.specs.Shown.{shown_answer, shown_plan};
ghost use Rattle.unix_model.specs.Elf.{plan_of};
ghost use Rattle.unix_model.specs.Loading.{string_bytes};
ghost use Rattle.flat_files.specs.FilesView.{files_of};
ghost use Rattle.flat_memory.specs.StringsView.{strings_of};
ghost use Rattle.flat_process_calls.specs.Programs.{planned, program_at, IsLoading};

use crate::programs::{FoundProgram, LoadedProgram, Loading};
use elf_read::{ElfPlan, SliceBytes, read};
use flat_files::{Files, Inode};
use flat_memory::load_program;
use std::alloc::{AllocError, Global};
use unix_model::{ElfFault, Errno};

/// The plan of a file.
fn read_plan(file: &[u8]) -> Result<ElfPlan, ElfFault>
    requires { length file.now ≤ 4194304 }
    ensures plan { shown_answer result ≡ plan_of file.now }
    ensures sound { IfOk result (λ plan. IsSound (length file.now) (shown_plan plan)) }
{
    read(&SliceBytes(file))
}

/// The program at a path: a file that can be run.
#[tactic(auto, unfolding(crate::specs::Programs::program_at))]
fn find_program<'a>(files: &'a Files, path: &[u8]) -> Result<FoundProgram<'a>, Errno>
    ensures found { planned result ≡ program_at (files_of files.now) path.now }
    ensures sound { IfOk result (λ found. IsSound (length found.file.now) (shown_plan found.plan)) }
{
    let spot = match files.walk(path) {
        Ok(spot) => spot,
        Err(errno) => return Err(errno),
    };
    let inode = match spot.inode {
        Some(inode) => inode,
        None => return Err(Errno::Enoent),
    };
    let file = match files.inode(inode) {
        Some(Inode::File(contents)) => contents.bytes.as_slice(),
        _ => return Err(Errno::Eacces),
    };
    match read_plan(file) {
        Ok(plan) => Ok(FoundProgram { file, plan }),
        Err(_) => Err(Errno::Enoexec),
    }
}

/// Loads the program at a path with these argument strings, within so many pages.
pub fn load_at(
    files: &Files,
    alloc: Global,
    path: &[u8],
    strings: &[Vec<u8>],
    limit: u32,
) -> Result<Loading, AllocError>
    requires { length (string_bytes (strings_of strings.now)) ≤ 4096 }
    ensures loading { IfOk result (IsLoading (files_of files.now) path.now (strings_of strings.now) limit) }
{
    let found = match find_program(files, path) {
        Ok(found) => found,
        Err(errno) => return Ok(Loading::Refused(errno)),
    };
    let FoundProgram { file, plan } = found;
    let loads = plan.loads.as_slice();
    match load_program(alloc, file, plan.entry, loads, strings, limit) {
        Ok(Some(program)) => Ok(Loading::Loaded(LoadedProgram {
            program,
            break_start: plan.break_start,
        })),
        Ok(None) => Ok(Loading::Crowded),
        Err(fault) => Err(fault),
    }
}
