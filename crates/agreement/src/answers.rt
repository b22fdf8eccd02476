//! The answers to a script, by the runtime and by the plain evaluator.
ghost use Rattle.std.specs.Prelude.{◌≡◌};

use crate::held::Files;
use crate::keeping::Keeping;
use desk::Order;
use history::{History, Naming};
use inline::Inline;
use itoa::Buffer;
use lines::{Line, LineFault, first_line, parse_line};
use model::Status;
use plain::{PlainAnswer, PlainEnvironment};
use script::Sources;
use std::alloc::{AllocError, Global};
use std::marker::Brand;

/// What the runtime answers that does in this order the work that was put off.
pub fn of_runtime(
    alloc: Global,
    script: &[u8],
    files: Files<'_>,
    order: Order,
) -> Result<Vec<u8>, AllocError> {
    let mut out = Vec::new(alloc);
    deferral::run(alloc, script, &files, order, &mut out).map_err(|_| AllocError)?;
    Ok(out)
}

/// The same by a runner that is asked for the store of each recipe, and how many of these failed.
pub fn of_keeping(
    alloc: Global,
    script: &[u8],
    files: Files<'_>,
    order: Order,
) -> Result<(Vec<u8>, u64), AllocError> {
    keep_over::<Brand>(alloc, History::new(), script, files, order)
}

/// The same over a history that has a name.
fn keep_over<J: Naming>(
    alloc: Global,
    history: History,
    script: &[u8],
    files: Files<'_>,
    order: Order,
) -> Result<(Vec<u8>, u64), AllocError>
    requires { history ≡ J.book }
{
    let inline: Inline<J, Order> = Inline::new(alloc, history, order);
    let mut runner = Keeping::new(alloc, inline);
    let mut out = Vec::new(alloc);
    script::run(alloc, script, &files, &mut runner, &mut out).map_err(|_| AllocError)?;
    runner.settle();
    Ok((out, runner.failed))
}

/// What the plain evaluator answers to the lines, which the runtime's own reader of lines cuts and reads.
pub fn of_plain(alloc: Global, script: &[u8], files: Files<'_>) -> Result<Vec<u8>, AllocError> {
    let mut environment = PlainEnvironment::new(alloc);
    let mut out = Vec::new(alloc);
    let mut rest = script;
    let mut number = 0u64;
    while !rest.is_empty() {
        let (line, others) = first_line(rest);
        number = number.saturating_add(1);
        answer_line(alloc, files, &mut environment, number, line, &mut out)?;
        rest = others;
    }
    Ok(out)
}

fn answer_line(
    alloc: Global,
    files: Files<'_>,
    environment: &mut PlainEnvironment,
    number: u64,
    line: &[u8],
    out: &mut Vec<u8>,
) -> Result<(), AllocError> {
    match parse_line(alloc, line) {
        Ok(Line::Silent) => Ok(()),
        Ok(Line::Call(call)) => push(out, &environment.step(alloc, number, &call)?),
        Ok(Line::Load(load)) => {
            let bytes = files.bytes(load.file.as_bytes());
            let answer = environment.load(alloc, number, load.name, load.domain, bytes)?;
            push(out, &answer)
        }
        Err(LineFault::Syntax) => push_status(out, number, Status::Syntax),
        Err(LineFault::NoMemory) => Err(AllocError),
    }
}

/// Appends an answer.
fn push(out: &mut Vec<u8>, answer: &PlainAnswer) -> Result<(), AllocError> {
    push_status(out, answer.number, answer.status)?;
    for data in &answer.data_lines {
        out.extend_from_slice(data.as_slice())?;
        out.push(b'\n')?;
    }
    Ok(())
}

/// Appends an answer's first line.
fn push_status(out: &mut Vec<u8>, number: u64, status: Status) -> Result<(), AllocError> {
    let mut buffer = Buffer::new();
    out.extend_from_slice(buffer.format(number).as_bytes())?;
    out.push(b' ')?;
    out.extend_from_slice(status.name().as_bytes())?;
    out.push(b'\n')?;
    Ok(())
}
