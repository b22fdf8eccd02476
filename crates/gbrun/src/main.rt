//! Runs a script of GraphBLAS calls: of the file that the command line names, or else of standard
//! input.
#![tactic(auto)]

mod delivery;
mod evaluation;
mod fault;
mod files;
mod loaded;
mod options;
mod order;
mod pages;
mod program;
mod running;
mod words;

use fault::Fault;
use files::Disk;
use std::process::ExitCode;

fn main(rt: HostRuntime) -> ExitCode {
    let alloc = rt.alloc();
    pages::keep_pages(alloc);
    let (mut input, mut out, mut err) = (rt.stdin(), rt.stdout(), rt.stderr());
    let status = match words::of_process(alloc, &rt) {
        Ok(words) => program::execute(
            rt,
            alloc,
            words.as_slice(),
            &mut input,
            &Disk::new(&rt),
            &mut out,
            &mut err,
        ),
        Err(_) => Fault::OutOfMemory.report(&mut err),
    };
    ExitCode::from(status)
}
