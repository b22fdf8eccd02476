//! Lines, and what their words ask for.
ghost use Rattle.std.specs.Prelude.{◌≡◌, ◌<◌, ◌==◌, None, codes, drop, false, find, length, map, not, true};
ghost use Rattle.lines.specs.Joining.{joining_word, joins};
ghost use Rattle.lines.specs.Meaning.{IsRead, Reads, reading_in};
ghost use Rattle.model.specs.Grammar.{calls, command_of, is_blank, is_called, is_silent, nth_word, reading_of};
ghost use Rattle.model.specs.Grammar.{said_by, words_of};

use crate::calls::{build, first, others, unlisted};
use crate::loads::load;
use crate::operations::{Joining, join, joining_of, operate};
use crate::{Line, LineFault, words};
use smallvec::SmallVec;
use std::alloc::Global;

/// Reads one line of a script, without its line end.
///
/// Blank lines and comments are silent, of any bytes and length. Every other line is exactly a
/// command of the grammar or `Syntax`. Its names borrow from the line. Work and memory are linear in
/// the line's length.
#[tactic(auto, unfolding(model::specs::Grammar::reading_of))]
pub fn parse_line(alloc: Global, line: &[u8]) -> Result<Line<'_>, LineFault>
    ensures { Reads result (reading_of line.now) }
{
    if is_silent(line) {
        return Ok(Line::Silent);
    }
    let mut words = SmallVec::new(alloc);
    words::add_words(&mut words, line)?;
    let words = words.as_slice();
    if words.is_empty() {
        return Err(LineFault::Syntax);
    }
    // Each kind of command is read in a function that is not compiled into its caller: where a value of any
    // kind is built, the fields of all kinds are written.
    match joining_of(words[0]) {
        Some(joining) => joining_command(joining, words),
        None => other_command(alloc, words),
    }
}

/// An operation of two inputs.
#[inline(never)]
#[tactic(auto, unfolding(model::specs::Grammar::command_of))]
fn joining_command<'a>(joining: Joining, words: &[&'a [u8]]) -> Result<Line<'a>, LineFault>
    requires joins { joins (joining_word joining) ≡ true }
    requires word { nth_word (map (λ word. word.now) words.now) 0 ≡ joining_word joining }
    ensures { IsRead reading_in (command_of (map (λ word. word.now) words.now)) result }
{
    let Some(call) = join(joining, words) else {
        return Err(LineFault::Syntax);
    };
    Ok(Line::Call(call))
}

/// A load, or another call.
#[inline(never)]
fn other_command<'a>(alloc: Global, words: &[&'a [u8]]) -> Result<Line<'a>, LineFault>
    requires some { 0 < length words.now }
    requires called { joins (nth_word (map (λ word. word.now) words.now) 0) ≡ false }
    ensures { IsRead reading_in (command_of (map (λ word. word.now) words.now)) result }
{
    let called = first(words);
    if called == b"load".as_slice() {
        return load_command(words);
    }
    if called == b"build".as_slice() {
        return build_command(alloc, words);
    }
    // No call that is left but an operation has as many words.
    if words.len() > 5 {
        return operate_command(alloc, words);
    }
    match unlisted(called, others(words)) {
        Some(call) => Ok(Line::Call(call)),
        None => operate_command(alloc, words),
    }
}

/// A load.
#[inline(never)]
#[tactic(auto, unfolding(model::specs::Grammar::command_of))]
fn load_command<'a>(words: &[&'a [u8]]) -> Result<Line<'a>, LineFault>
    requires { is_called (map (λ word. word.now) words.now) (codes "load") ≡ true }
    ensures { IsRead reading_in (command_of (map (λ word. word.now) words.now)) result }
{
    match load(words) {
        Some(load) => Ok(Line::Load(load)),
        None => Err(LineFault::Syntax),
    }
}

/// A build.
#[inline(never)]
fn build_command<'a>(alloc: Global, words: &[&'a [u8]]) -> Result<Line<'a>, LineFault>
    requires some { 0 < length words.now }
    requires no_load { is_called (map (λ word. word.now) words.now) (codes "load") ≡ false }
    requires called { is_called (map (λ word. word.now) words.now) (codes "build") ≡ true }
    ensures { IsRead reading_in (command_of (map (λ word. word.now) words.now)) result }
{
    match build(alloc, others(words)) {
        Ok(call) => Ok(Line::Call(call)),
        Err(fault) => Err(fault),
    }
}

/// An operation that is not of two inputs.
#[inline(never)]
fn operate_command<'a>(alloc: Global, words: &[&'a [u8]]) -> Result<Line<'a>, LineFault>
    requires some { 0 < length words.now }
    requires no_load { is_called (map (λ word. word.now) words.now) (codes "load") ≡ false }
    requires no_call { None ≡ said_by calls (nth_word (map (λ word. word.now) words.now) 0)
        (drop 1 (map (λ word. word.now) words.now)) }
    requires called { joins (nth_word (map (λ word. word.now) words.now) 0) ≡ false }
    ensures { IsRead reading_in (command_of (map (λ word. word.now) words.now)) result }
{
    match operate(alloc, words) {
        Ok(call) => Ok(Line::Call(call)),
        Err(fault) => Err(fault),
    }
}

/// Whether a line has no word, or its first word begins with `#`.
fn is_silent(line: &[u8]) -> bool
    ensures { result ≡ is_silent (words_of line.now) }
{
    match first_byte(line) {
        Some(first) => first == b'#',
        None => true,
    }
}

/// The first byte of a line that is no blank.
pub(crate) fn first_byte(line: &[u8]) -> Option<u8>
    ensures { result ≡ find (λ byte. not (is_blank byte)) line.now }
{
    line.iter().copied().find(|byte| !words::is_blank(*byte))
}
