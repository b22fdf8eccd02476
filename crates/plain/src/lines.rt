//! The lines of a file, and their words.
ghost use Rattle.std.specs.Prelude.{◌≡◌, ◌==◌, ◌∷◌, ◌++◌, [], IfOk, OnOk, filter, if◌then◌else◌, map};
ghost use Rattle.std.specs.List.{slice_split};
ghost use Rattle.std.specs.Str.Lines.{strip_carriage_return};
ghost use Rattle.model.specs.Grammar.{lines_of, without_empty_last, words_of};
ghost use Rattle.model.specs.MatrixMarket.{is_told, told_lines};
ghost use Rattle.plain.specs.Files.{lines_in, texts_in};

use std::alloc::{AllocError, Global};

/// The words of a line that says something, and how many lines of the file are left from it on.
#[derive(Drop)]
pub struct PlainLine<'a> {
    pub left: u64,
    pub words: Vec<&'a [u8]>,
}

/// The lines of a text, without their line ends.
#[tactic(auto, unfolding(model::specs::Grammar::lines_of))]
pub fn lines_of(alloc: Global, text: &[u8]) -> Result<Vec<&[u8]>, AllocError>
    ensures { IfOk result (λ lines. texts_in lines.items ≡ lines_of text.now) }
{
    let parts = parts_of(alloc, text)?;
    without_carriage_returns(alloc, without_empty_last(parts.as_slice()))
}

/// The parts of a text between line feeds.
fn parts_of(alloc: Global, text: &[u8]) -> Result<Vec<&[u8]>, AllocError>
    ensures { IfOk result (λ parts. texts_in parts.items ≡ slice_split (λ byte. byte == 10) text.now) }
{
    text.split(|byte| *byte == b'\n').collect(alloc)
}

/// Parts without the last one, if that is empty.
fn without_empty_last<'a, 'b>(parts: &'b [&'a [u8]]) -> &'b [&'a [u8]]
    ensures { texts_in result.now ≡ without_empty_last (texts_in parts.now) }
{
    let Some((last, front)) = parts.split_last() else {
        return parts;
    };
    if last.is_empty() {
        return front;
    }
    parts
}

/// Lines without one carriage return at their ends.
fn without_carriage_returns<'a>(
    alloc: Global,
    lines: &[&'a [u8]],
) -> Result<Vec<&'a [u8]>, AllocError>
    ensures { IfOk result (λ stripped. texts_in stripped.items ≡ map strip_carriage_return (texts_in lines.now)) }
{
    let mut stripped = Vec::new(alloc);
    for line in lines {
        stripped.push(without_carriage_return(line))?;
    }
    Ok(stripped)
}

/// A line without one carriage return at its end.
fn without_carriage_return(line: &[u8]) -> &[u8]
    ensures { result.now ≡ strip_carriage_return line.now }
{
    match line {
        [front @ .., b'\r'] => front,
        _ => line,
    }
}

/// The words of a line, parted by blanks.
pub fn words_of(alloc: Global, line: &[u8]) -> Result<Vec<&[u8]>, AllocError>
    ensures { IfOk result (λ words. texts_in words.items ≡ words_of line.now) }
{
    line.split(|byte| *byte == b' ' || *byte == b'\t')
        .filter(|word| !word.is_empty())
        .collect(alloc)
}

/// The last lines of a file that say something.
pub fn told<'a>(alloc: Global, lines: &[&'a [u8]]) -> Result<Vec<PlainLine<'a>>, AllocError>
    ensures { IfOk result (λ told. lines_in told.items ≡ told_lines (map words_of (texts_in lines.now))) }
{
    let mut told = Vec::new(alloc);
    let mut left = lines;
    while !left.is_empty() {
        let words = words_of(alloc, left[0])?;
        push_told(&mut told, left.len() as u64, words)?;
        left = &left[1..];
    }
    Ok(told)
}

/// Appends a line, if it says something.
fn push_told<'a>(
    told: &mut Vec<PlainLine<'a>>,
    left: u64,
    words: Vec<&'a [u8]>,
) -> Result<(), AllocError>
    ensures { let line = texts_in words.entry.items in
        OnOk result (lines_in told.new.items ≡ lines_in told.old.items
        ++ (if is_told line then record { left = left; words = line } ∷ [] else [])) }
{
    if is_told(words.as_slice()) {
        told.push(PlainLine { left, words })?;
    }
    Ok(())
}

/// Whether there is a word, and the first one doesn't begin with `%`.
fn is_told(words: &[&[u8]]) -> bool
    ensures { result ≡ is_told (texts_in words.now) }
{
    match words {
        [] => false,
        [word, ..] => word.is_empty() || word[0] != b'%',
    }
}
