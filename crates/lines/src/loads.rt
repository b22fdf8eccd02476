//! Lines that load files.
ghost use Rattle.std.specs.Prelude.{◌≡◌, IfOk, codes, map, nat_le, true, ◌&&◌};
ghost use Rattle.std.specs.List.{list_all};
ghost use Rattle.std.specs.Option.{option_and_then, option_map};
ghost use Rattle.lines.specs.Meaning.{load_in};
ghost use Rattle.model.specs.Grammar.{command_of, file_name_of, is_called, is_file_name, load_of, reading_of, words_of};
ghost use Rattle.model.specs.Loads.{file_named};

use crate::parse::first_byte;
use crate::{LineFault, Load, words};
use model::{LONGEST_FILE_NAME, NoMemory};
use smallvec::SmallVec;
use std::alloc::Global;

/// `load NAME DOMAIN FILE`
#[tactic(auto, unfolding(model::specs::Grammar::load_of))]
pub fn load<'a>(words: &[&'a [u8]]) -> Option<Load<'a>>
    ensures { option_map load_in result ≡ load_of (map (λ word. word.now) words.now) }
{
    if words.len() != 4 {
        return None;
    }
    let name = words::name(words[1])?;
    let domain = words::domain(words[2])?;
    if !domain.is_built_in() {
        return None;
    }
    let file = file_name(words[3])?;
    Some(Load { name, domain, file })
}

/// A word that names a file: 1 to 255 printable bytes.
#[tactic(auto, unfolding(model::specs::Grammar::file_name_of))]
fn file_name(word: &[u8]) -> Option<&str>
    ensures { option_map (λ name. name.now) result ≡ file_name_of word.now }
{
    if !is_file_name(word) {
        return None;
    }
    Some(str::from_utf8(word).unwrap())
}

fn is_file_name(word: &[u8]) -> bool
    ensures { result ≡ is_file_name word.now }
{
    !word.is_empty() && word.len() <= LONGEST_FILE_NAME && are_graphic(word)
}

fn are_graphic(word: &[u8]) -> bool
    ensures { result ≡ list_all (λ byte. nat_le 33 byte && nat_le byte 126) word.now }
{
    word.iter().all(|byte| byte.is_ascii_graphic())
}

/// The file that a line loads, if it is a well-formed `load`. Other lines are told by their first bytes.
pub fn loaded_file(alloc: Global, line: &[u8]) -> Result<Option<&str>, NoMemory>
    ensures { IfOk result (λ file. option_map (λ name. name.now) file ≡ file_named (reading_of line.now)) }
{
    if !may_load(line) {
        return Ok(None);
    }
    let mut words = SmallVec::new(alloc);
    match words::add_words(&mut words, line) {
        Ok(()) => Ok(file_of(words.as_slice())),
        Err(LineFault::Syntax) => Ok(None),
        Err(LineFault::NoMemory) => Err(NoMemory),
    }
}

/// The file that the words of a line load.
fn file_of<'a>(words: &[&'a [u8]]) -> Option<&'a str>
    ensures { option_map (λ name. name.now) result ≡ option_and_then file_named
        (command_of (map (λ word. word.now) words.now)) }
{
    if !is_load(words) {
        return None;
    }
    match load(words) {
        Some(load) => Some(load.file),
        None => None,
    }
}

fn is_load(words: &[&[u8]]) -> bool
    ensures { result ≡ is_called (map (λ word. word.now) words.now) (codes "load") }
{
    if words.is_empty() {
        return false;
    }
    words[0] == b"load".as_slice()
}

/// Whether a line's first word can be `load`: no other command begins with its letter.
fn may_load(line: &[u8]) -> bool
    ensures { is_called (words_of line.now) (codes "load") ≡ true → result ≡ true }
{
    match first_byte(line) {
        Some(first) => first == b'l',
        None => false,
    }
}
