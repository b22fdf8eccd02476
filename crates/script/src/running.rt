//! Runs of scripts, line by line.
ghost use Rattle.std.specs.Prelude.{ℕ, ◌≡◌, ◌<◌, ◌≤◌, ◌+◌, ◌-◌, ◌^◌, ◌++◌, List, []};
ghost use Rattle.std.specs.Prelude.{MatchOption, OnErr, OnOk, false, length, take};
ghost use Rattle.mmio.specs.Written.{Grows};
ghost use Rattle.model.specs.declared.call.Act.TheVariants.{Print};
ghost use Rattle.model.specs.declared.call.Call.TheVariants.{On};
ghost use Rattle.model.specs.Grammar.{Called, reading_of};
ghost use Rattle.model.specs.Loads.{readings_in, with_file};
ghost use Rattle.model.specs.Renamed.{renamed};
ghost use Rattle.model.specs.Run.{out_of};
ghost use Rattle.model.specs.Poisoned.{Ran};
ghost use Rattle.model.specs.Runs.{TellsOfNoWant};
ghost use Rattle.script.specs.Named.{asks_text, state_in};
ghost use Rattle.script.specs.Turns.{Says, SaysBehind};
ghost use Rattle.session.specs.Performed.{made_in};

use crate::environment::Environment;
use crate::sources::Sources;
use crate::text;
use lines::{Line, LineFault, first_line, parse_line};
use mmio::{FileReader, FileWriter, OneThread};
use model::{Act, Call, NoMemory, Operation, Status};
use patch::EntrySummer;
use runner::Runner;
use session::WordFolder;
use std::alloc::{AllocError, Global};

/// Room for the longest answer of one line: a number of 20 digits and the name of a status.
const STATUS_LINE: usize = 64;

/// Runs a script and appends its answers, each whole.
///
/// Any bytes are a script. Each line that is blank or a comment has no answer; every other one answers
/// its number and a status, with the data lines of its call. What a call has to do is handed to the runner, and is
/// done when the runner likes, or when a later line asks for the value; which of it is done when can't be seen in the
/// answers. A call for which memory is refused answers OUT_OF_MEMORY and changes nothing; one that asks for a value of
/// which memory was refused to the work answers INVALID_OBJECT. `Err` comes only where a growth of `out`, or of the
/// room for one answer's text, was refused; `out` has then gained the answers to the first lines.
/// A line's work depends on that line, on the objects that it names, and on the file that it loads.
pub fn run<S: Sources, R: Runner>(
    alloc: Global,
    script: &[u8],
    sources: &S,
    runner: &mut R,
    out: &mut Vec<u8>,
) -> Result<(), NoMemory>
    ensures headline { OnOk result ((text : List ℕ) → out.new.items ≡ out.old.items ++ text → TellsOfNoWant text
        → text ≡ out_of (S.held sources.now) script.now) }
    ensures ok { OnOk result (Ran (readings_in (S.held sources.now) script.now) out.old.items out.new.items) }
    ensures err { OnErr result ((n : ℕ)
        × Ran (take n (readings_in (S.held sources.now) script.now)) out.old.items out.new.items) }
{
    run_by(&OneThread, alloc, script, sources, runner, out)
}

/// The same where `files` reads and writes files, and sums the values of an object.
pub fn run_by<F: FileReader + FileWriter + EntrySummer + WordFolder, S: Sources, R: Runner>(
    files: &F,
    alloc: Global,
    script: &[u8],
    sources: &S,
    runner: &mut R,
    out: &mut Vec<u8>,
) -> Result<(), NoMemory>
    ensures headline { OnOk result ((text : List ℕ) → out.new.items ≡ out.old.items ++ text → TellsOfNoWant text
        → text ≡ out_of (S.held sources.now) script.now) }
    ensures ok { OnOk result (Ran (readings_in (S.held sources.now) script.now) out.old.items out.new.items) }
    ensures err { OnErr result ((n : ℕ)
        × Ran (take n (readings_in (S.held sources.now) script.now)) out.old.items out.new.items) }
{
    answer_lines(files, alloc, script, sources, runner, out)
}

/// Appends the answers of a script's lines, over a runner that goes with the objects.
fn answer_lines<
    F: FileReader + FileWriter + EntrySummer + WordFolder,
    S: Sources,
    R: Runner + Drop,
>(
    files: &F,
    alloc: Global,
    script: &[u8],
    sources: &S,
    runner: R,
    out: &mut Vec<u8>,
) -> Result<(), NoMemory>
    ensures ok { OnOk result (Ran (readings_in (S.held sources.now) script.now) out.old.items out.new.items) }
    ensures err { OnErr result ((n : ℕ)
        × Ran (take n (readings_in (S.held sources.now) script.now)) out.old.items out.new.items) }
{
    let mut environment = Environment::new(alloc, runner);
    let mut text = Vec::with_capacity(alloc, STATUS_LINE)?;
    let mut rest = script;
    let mut number = 1;
    while !rest.is_empty() {
        let (line, others) = first_line(rest);
        append_answer(
            files,
            alloc,
            sources,
            &mut environment,
            number,
            line,
            &mut text,
            out,
        )?;
        rest = others;
        number += 1;
    }
    Ok(())
}

/// Appends the answer to one line, if it has one, whole, with `text` as room for it. An error appends nothing.
fn append_answer<
    F: FileReader + FileWriter + EntrySummer + WordFolder,
    S: Sources,
    R: Runner + Drop,
>(
    files: &F,
    alloc: Global,
    sources: &S,
    environment: &mut Environment<R>,
    number: u64,
    line: &[u8],
    text: &mut Vec<u8>,
    out: &mut Vec<u8>,
) -> Result<(), AllocError>
    requires { made_in environment.old.session < 2 ^ 64 - 1 }
    ensures says { OnOk result (SaysBehind number (state_in environment.old)
        (with_file (S.held sources.now) (reading_of line.now)) out.old.items out.new.items []
        (state_in environment.new)) }
    ensures err { OnErr result (out.new.items ≡ out.old.items) }
    ensures made { made_in environment.new.session ≤ made_in environment.old.session + 1 }
{
    let length = out.len();
    text.clear();
    if let Err(error) = answer_line(files, alloc, sources, environment, number, line, text, out) {
        out.truncate(length);
        return Err(error);
    }
    if let Err(error) = out.extend_from_slice(text) {
        out.truncate(length);
        return Err(error);
    }
    Ok(())
}

/// Writes the answer to one line, if it has one: what it prints of an object, which may be long, behind `out`, and the
/// rest as `text`, which follows that.
fn answer_line<F: FileReader + FileWriter + EntrySummer + WordFolder, S: Sources, R: Runner + Drop>(
    files: &F,
    alloc: Global,
    sources: &S,
    environment: &mut Environment<R>,
    number: u64,
    line: &[u8],
    text: &mut Vec<u8>,
    out: &mut Vec<u8>,
) -> Result<(), AllocError>
    requires empty { text.old.items ≡ [] }
    requires made { made_in environment.old.session < 2 ^ 64 - 1 }
    ensures says { OnOk result (SaysBehind number (state_in environment.old)
        (with_file (S.held sources.now) (reading_of line.now)) out.old.items out.new.items text.new.items
        (state_in environment.new)) }
    ensures grows { Grows out.old.items out.new.items }
    ensures made { made_in environment.new.session ≤ made_in environment.old.session + 1 }
{
    let read = parse_line(alloc, line);
    // Most lines that compute have two inputs. Where they are, what was read isn't moved, which would copy the fields
    // of calls of all kinds.
    if let Ok(
        Line::Call(
            Call::Operate {
                out,
                operation: Operation::OfTwo { computes, a, b },
            },
        ),
    ) = &read
    {
        return match environment.join(out, *computes, a, b) {
            Ok(()) => text::write_status(text, number, Status::Ok),
            Err(status) => text::write_status(text, number, status),
        };
    }
    match read {
        Ok(Line::Silent) => Ok(()),
        Ok(Line::Call(call)) => match printed(&call) {
            Some(object) => answer_print(files, environment, number, object, text, out),
            None => answer_call(files, environment, number, call, text),
        },
        Ok(Line::Load(load)) => match environment.load(files, sources, load) {
            Ok(()) => text::write_status(text, number, Status::Ok),
            Err(status) => text::write_status(text, number, status),
        },
        Err(LineFault::Syntax) => text::write_status(text, number, Status::Syntax),
        Err(LineFault::NoMemory) => text::write_status(text, number, Status::OutOfMemory),
    }
}

/// The object that a call prints, where it is a print.
fn printed<'a>(call: &Call<&'a str, &'a str>) -> Option<&'a str>
    ensures { MatchOption result (asks_text call.now ≡ false) (λ object. call.now ≡ On object Print) }
{
    match call {
        Call::On {
            object,
            act: Act::Print,
        } => Some(*object),
        _ => None,
    }
}

/// Writes the answer to a call that is no print.
fn answer_call<F: WordFolder, R: Runner + Drop>(
    folder: &F,
    environment: &mut Environment<R>,
    number: u64,
    call: Call<&str, &str>,
    text: &mut Vec<u8>,
) -> Result<(), AllocError>
    requires empty { text.old.items ≡ [] }
    requires textless { asks_text call ≡ false }
    requires made { made_in environment.old.session < 2 ^ 64 - 1 }
    ensures says { OnOk result (Says number (state_in environment.old)
        (Called (renamed (λ name. name.now) (λ name. name.now) call.entry)) text.new.items
        (state_in environment.new)) }
    ensures made { made_in environment.new.session ≤ made_in environment.old.session + 1 }
{
    text::write_status(text, number, Status::Ok)?;
    match environment.perform(folder, call, text) {
        Ok(()) => Ok(()),
        Err(status) => {
            text.clear();
            text::write_status(text, number, status)
        }
    }
}

/// Writes the answer to a print of the object of a name.
fn answer_print<W: FileWriter, R: Runner + Drop>(
    writer: &W,
    environment: &mut Environment<R>,
    number: u64,
    object: &str,
    text: &mut Vec<u8>,
    out: &mut Vec<u8>,
) -> Result<(), AllocError>
    requires empty { text.old.items ≡ [] }
    requires made { made_in environment.old.session < 2 ^ 64 - 1 }
    ensures says { OnOk result (SaysBehind number (state_in environment.old)
        (Called (On object.now Print)) out.old.items out.new.items text.new.items (state_in environment.new)) }
    ensures grows { Grows out.old.items out.new.items }
    ensures made { made_in environment.new.session ≤ made_in environment.old.session + 1 }
{
    let length = out.len();
    text::write_status(text, number, Status::Ok)?;
    out.extend_from_slice(text)?;
    text.clear();
    match environment.print(writer, object, out) {
        Ok(()) => Ok(()),
        Err(status) => {
            out.truncate(length);
            text::write_status(text, number, status)
        }
    }
}
