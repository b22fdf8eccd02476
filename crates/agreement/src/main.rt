//! Looks for differences between the runtime and the plain evaluator, which follows the definitions one position
//! after the other: on the scripts and Matrix Market files of folders, whole, cut off after each byte, and with bytes
//! changed.
//!
//! `agreement FOLDER ..` goes through the folders with all below them and tells each script and each file on which the
//! two differ. Its last line counts those that passed and those that failed.
//!
//! `agreement --plain FOLDER ..` compares nothing: it writes what the plain evaluator answers to those scripts whose
//! objects aren't too large for it.
#![tactic(auto)]

mod answers;
mod compared;
mod folders;
mod held;
mod jobs;
mod keeping;
mod readers;
mod scripts;
mod tally;

use answers::of_plain;
use folders::Folder;
use rayon::prelude::*;
use std::io::Print;
use std::process::ExitCode;
use std::rt::{Env, Files};
use std::thread::Threads;
use std::{env, io};

/// What asks for the answers of the plain evaluator alone.
const PLAIN: &str = "--plain";

fn main(rt: HostRuntime) -> ExitCode {
    match run(&rt) {
        Ok(true) => ExitCode::SUCCESS,
        Ok(false) => ExitCode::from(1),
        Err(error) => {
            let _ = eprintln!(rt; "agreement: {error}");
            ExitCode::from(2)
        }
    }
}

/// Does what the command line asks for: whether all agrees.
fn run<R: Env + Files + Print + Threads + AllocGlobal + Clone + Drop + Sync>(
    rt: &R,
) -> io::Result<bool> {
    let mut folders = Vec::new(rt.alloc());
    let mut is_plain = false;
    for path in env::args(rt)?.skip(1) {
        if path.as_str() == PLAIN {
            is_plain = true;
        } else {
            folders::read_below(rt, path, &mut folders)?;
        }
    }
    if is_plain {
        return tell_plain(rt, folders.as_slice());
    }
    compare_all(rt, folders.as_slice())
}

/// Compares all that lies in folders, and tells what came of it: whether all agrees.
fn compare_all<R: Print + Threads + AllocGlobal + Sync>(
    rt: &R,
    folders: &[Folder],
) -> io::Result<bool> {
    let alloc = rt.alloc();
    let jobs = jobs::of_folders(alloc, folders)?;
    let compared = jobs
        .par_iter()
        .with_min_len(1)
        .map(|job| job.compare(alloc))
        .collect::<Result<Vec<_>, _>>(rt, alloc)??;
    tally::tell(rt, jobs.as_slice(), compared.as_slice())
}

/// Writes what the plain evaluator answers to the scripts of folders.
fn tell_plain<R: Print + AllocGlobal>(rt: &R, folders: &[Folder]) -> io::Result<bool> {
    let alloc = rt.alloc();
    for folder in folders {
        let files = held::Files(folder.files.as_slice());
        for script in &folder.scripts {
            let script = script.bytes.as_slice();
            if scripts::is_small(alloc, script, files) {
                let answers = of_plain(alloc, script, files)?;
                print!(rt; "{}", String::from_utf8_lossy(alloc, answers.as_slice())?)?;
            }
        }
    }
    Ok(true)
}
