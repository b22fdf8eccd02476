//! The program, over any input, files and output.
ghost use Rattle.std.specs.Prelude.{◌≡◌, IfErr, IfOk, None, OnOk, Option, Result, is_some, map, true};
ghost use Rattle.std.specs.Option.{option_map_or};
ghost use Rattle.std.specs.Io.KnownBytes.{Appends};
ghost use Rattle.gbrun.specs.Known.{IsKnown};
ghost use Rattle.gbrun.specs.Outcomes.{Ends, Finishes, NamesScript, RunEnds, Tells, TextEnds, given_in};
ghost use Rattle.gbrun.specs.Outcomes.{status_after};
ghost use Rattle.gbrun.specs.Runs.{AnswersRun, Made};
ghost use Rattle.gbrun.specs.declared.fault.Fault.{Fault};

use crate::delivery::deliver;
use crate::evaluation::{Answers, Evaluation};
use crate::fault::Fault;
use crate::files::FileSource;
use crate::loaded::Loaded;
use crate::options;
use crate::options::{Options, Request};
use crate::running::run_as_chosen;
use model::NoMemory;
use std::alloc::Global;
use std::io::{Read, Write};
use std::sync::Wait;
use std::thread::Threads;

/// Runs the program on the words after its name, and gives its exit status. What stops it is told
/// in a line on `err`. Threads that work beside this one are started by `rt`.
///
/// The contract: there is an end, Ok or a fault, that these words, this script, a run of it and what `out`
/// holds admit (`Ends`); the status is that end's, and `err` gets its line, or a beginning of it, and
/// nothing else. Where the words name a script, `input` isn't read.
pub fn execute<H, R, F, W, E>(
    rt: H,
    alloc: Global,
    words: &[Vec<u8>],
    input: &mut R,
    files: &F,
    out: &mut W,
    err: &mut E,
) -> u8
where
    H: Wait + Threads + Clone + Drop + Send + 'static,
    R: Read,
    F: FileSource,
    W: Write,
    E: Write,
    ensures ends { (made : Option Made) × (end : Result (Unit {0}) Fault) × (result ≡ status_after end)
        × Ends AnswersRun (map (λ word. word.items) words.now)
        (given_in (F.content files.now) (F.readable files.now) (R.remaining input.old)
        (map (λ word. word.items) words.now))
        made (W.contents out.old) (W.contents out.new) end
        × Tells end (E.contents err.old) (E.contents err.new) }
    ensures unread { NamesScript (map (λ word. word.items) words.now) → input.new ≡ input.old }
{
    let mut run = Answers::new(alloc);
    execute_by(rt, alloc, words, input, files, &mut run, out, err)
}

/// The same by a run of any kind. What output gains is what the run appended that was made, and nothing where none
/// was.
pub fn execute_by<H, R, F, X, W, E>(
    rt: H,
    alloc: Global,
    words: &[Vec<u8>],
    input: &mut R,
    files: &F,
    run: &mut X,
    out: &mut W,
    err: &mut E,
) -> u8
where
    H: Wait + Threads + Clone + Drop + Send + 'static,
    R: Read,
    F: FileSource,
    X: Evaluation,
    W: Write,
    E: Write,
    requires { X.made run.old ≡ None }
    ensures ends { (end : Result (Unit {0}) Fault) × (result ≡ status_after end)
        × Ends X.admits (map (λ word. word.items) words.now)
        (given_in (F.content files.now) (F.readable files.now) (R.remaining input.old)
        (map (λ word. word.items) words.now))
        (X.made run.new) (W.contents out.old) (W.contents out.new) end
        × Tells end (E.contents err.old) (E.contents err.new) }
    ensures unread { NamesScript (map (λ word. word.items) words.now) → input.new ≡ input.old }
{
    match serve(&rt, alloc, words, input, files, run, out) {
        Ok(()) => 0,
        Err(fault) => fault.report(err),
    }
}

/// Does what the words after the program's name ask for.
pub fn serve<H, R, F, X, W>(
    rt: &H,
    alloc: Global,
    words: &[Vec<u8>],
    input: &mut R,
    files: &F,
    run: &mut X,
    out: &mut W,
) -> Result<(), Fault>
where
    H: Wait + Threads + Clone + Drop + Send + 'static,
    R: Read,
    F: FileSource,
    X: Evaluation,
    W: Write,
    requires { X.made run.old ≡ None }
    ensures ends { Ends X.admits (map (λ word. word.items) words.now)
        (given_in (F.content files.now) (F.readable files.now) (R.remaining input.old)
        (map (λ word. word.items) words.now))
        (X.made run.new) (W.contents out.old) (W.contents out.new) result }
    ensures unread { NamesScript (map (λ word. word.items) words.now) → input.new ≡ input.old }
{
    let texts = options::texts(alloc, words)?;
    match options::parse(alloc, texts.as_slice())? {
        Request::Print(text) => print(out, text.as_bytes()),
        Request::Run(options) => run_script(rt, alloc, options, input, files, run, out),
    }
}

fn print<W: Write>(out: &mut W, text: &[u8]) -> Result<(), Fault>
    ensures ends { TextEnds (W.contents out.old) (W.contents out.new) result }
    ensures whole { OnOk result (Appends (W.contents out.old) (W.contents out.new) text.now) }
{
    deliver(out, text).map_err(|_| Fault::UnwritableOutput)
}

fn run_script<H, R, F, X, W>(
    rt: &H,
    alloc: Global,
    options: Options<'_>,
    input: &mut R,
    files: &F,
    run: &mut X,
    out: &mut W,
) -> Result<(), Fault>
where
    H: Wait + Threads + Clone + Drop + Send + 'static,
    R: Read,
    F: FileSource,
    X: Evaluation,
    W: Write,
    requires { X.made run.old ≡ None }
    ensures ends { RunEnds X.admits (λ chosen. chosen ≡ options.entry) (record {
      content = F.content files.now;
      readable = F.readable files.now;
      script =
          option_map_or (λ name. F.content files.now name.now) options.entry.script (R.remaining input.old);
    })
        (X.made run.new) (W.contents out.old) (W.contents out.new) result }
    ensures unread { is_some options.entry.script ≡ true → input.new ≡ input.old }
{
    let script = read_script(rt, alloc, options, input, files)?;
    let loaded = Loaded::read(rt, alloc, script.as_slice(), files, options.workers)?;
    let ended = run_as_chosen(rt, alloc, script.as_slice(), &loaded, options, run)?;
    finish(out, run.answers(), ended)
}

// Delivers the answers that a run made. Where memory ran out they are those that were whole.
fn finish<W: Write>(out: &mut W, answers: &[u8], ended: Result<(), NoMemory>) -> Result<(), Fault>
    ensures { Finishes ended answers.now (W.contents out.old) (W.contents out.new) result }
{
    match (ended, deliver(out, answers)) {
        (Ok(()), Ok(())) => Ok(()),
        (Ok(()), Err(_)) => Err(Fault::UnwritableOutput),
        (Err(_), Ok(())) => Err(Fault::OutOfMemory),
        (Err(_), Err(_)) => Err(Fault::OutOfMemoryUndelivered),
    }
}

fn read_script<H: Threads, R: Read, F: FileSource>(
    rt: &H,
    alloc: Global,
    options: Options<'_>,
    input: &mut R,
    files: &F,
) -> Result<Vec<u8>, Fault>
    ensures known { IfOk result (λ script. IsKnown
        (option_map_or (λ name. F.content files.now name.now) options.entry.script (R.remaining input.old))
        script.items) }
    ensures unread { is_some options.entry.script ≡ true → input.new ≡ input.old }
    ensures err { IfErr result (λ fault. fault ≡ Fault.UnreadableScript) }
{
    let read = match options.script {
        Some(name) => files.read(rt, name, options.workers),
        None => {
            let mut bytes = Vec::new(alloc);
            input.read_to_end(&mut bytes).map(|_| bytes)
        }
    };
    read.map_err(|_| Fault::UnreadableScript)
}
