//! The entry lines of files: what each says, and what is wrong with them.
ghost use Rattle.std.specs.Prelude.{◌≡◌, ◌≤◌, ◌++◌, ◌∷◌, [], IfOk, OnOk, if◌then◌else◌, length, map, nat_lt};
ghost use Rattle.std.specs.Prelude.{take};
ghost use Rattle.std.specs.List.{cons_option, filter_map, flat_map};
ghost use Rattle.std.specs.Result.{result_ok};
ghost use Rattle.model.specs.Entries.{entry_at};
ghost use Rattle.model.specs.MatrixMarket.{entries_said, entry_said, faults_of, is_position, misread, value_said};
ghost use Rattle.model.specs.MatrixMarket.{with_mirror, words_for};
ghost use Rattle.plain.specs.Files.{fault_in, line_of, lines_in, texts_in, words_in};

use crate::lines::PlainLine;
use crate::numbers::{are_digits, digits_value, value};
use algebra::Domain;
use model::{Entry, Field, Heading, Misread, Mistake, Symmetry};
use std::alloc::{AllocError, Global};

/// What is wrong with the announced lines, from the top, and then with their number.
#[tactic(auto, unfolding(model::specs::MatrixMarket::faults_of))]
pub fn faults_of(
    alloc: Global,
    domain: Domain,
    heading: Heading,
    lines: &[PlainLine<'_>],
) -> Result<Vec<Misread>, AllocError>
    ensures { IfOk result (λ faults. faults.items ≡ faults_of domain heading (lines_in lines.now)) }
{
    let announced = (heading.entries as usize).min(lines.len());
    let (front, others) = lines.split_at(announced);
    let mut faults = faults_in(alloc, domain, heading, front)?;
    push_first(&mut faults, others)?;
    push_too_few(&mut faults, heading.entries, lines.len() as u64)?;
    Ok(faults)
}

/// Appends that there are fewer lines than announced, if there are.
fn push_too_few(faults: &mut Vec<Misread>, announced: u64, found: u64) -> Result<(), AllocError>
    ensures { OnOk result (faults.new.items ≡ faults.old.items
        ++ (if nat_lt found announced then record { left = 0; mistake = Mistake.TooFew } ∷ [] else [])) }
{
    if found < announced {
        let mistake = Mistake::TooFew;
        faults.push(Misread { left: 0, mistake })?;
    }
    Ok(())
}

/// Appends that the first line is too many, if there is one.
fn push_first(faults: &mut Vec<Misread>, lines: &[PlainLine<'_>]) -> Result<(), AllocError>
    ensures { OnOk result (faults.new.items ≡ faults.old.items
        ++ map (misread Mistake.TooMany) (take 1 (lines_in lines.now))) }
{
    if let Some(line) = lines.first() {
        faults.push(misread(Mistake::TooMany, line))?;
    }
    Ok(())
}

const fn misread(mistake: Mistake, line: &PlainLine<'_>) -> Misread
    ensures { result ≡ misread mistake (line_of line.now) }
{
    Misread {
        left: line.left,
        mistake,
    }
}

/// What is wrong with lines, from the top.
fn faults_in(
    alloc: Global,
    domain: Domain,
    heading: Heading,
    lines: &[PlainLine<'_>],
) -> Result<Vec<Misread>, AllocError>
    ensures { IfOk result (λ faults. faults.items ≡ filter_map (fault_in domain heading) (lines_in lines.now)) }
{
    lines
        .iter()
        .filter_map(|line| fault_in(domain, heading, line))
        .collect(alloc)
}

/// What is wrong with a line, if anything is.
fn fault_in(domain: Domain, heading: Heading, line: &PlainLine<'_>) -> Option<Misread>
    ensures { result ≡ fault_in domain heading (line_of line.now) }
{
    let mistake = entry_said(domain, heading, line.words.as_slice()).err()?;
    Some(misread(mistake, line))
}

/// All entries that lines say, in their order.
pub fn entries_said(
    alloc: Global,
    domain: Domain,
    heading: Heading,
    lines: &[PlainLine<'_>],
) -> Result<Vec<Entry>, AllocError>
    ensures { IfOk result (λ entries. entries.items ≡ entries_said domain heading (map words_in lines.now)) }
{
    let mut entries = Vec::new(alloc);
    for line in lines {
        let said = entry_said(domain, heading, line.words.as_slice());
        push_said(&mut entries, heading.symmetry, said)?;
    }
    Ok(entries)
}

/// Appends the entry that a line says, if it says one, and the one that the file leaves out.
fn push_said(
    entries: &mut Vec<Entry>,
    symmetry: Symmetry,
    said: Result<Entry, Mistake>,
) -> Result<(), AllocError>
    ensures { OnOk result (entries.new.items ≡ entries.old.items
        ++ flat_map (with_mirror symmetry) (cons_option (result_ok said) [])) }
{
    match said {
        Ok(entry) => push_with_mirror(entries, symmetry, entry),
        Err(_) => Ok(()),
    }
}

/// The entry that the words of a line say, or what is wrong with the line.
#[tactic(auto, unfolding(model::specs::MatrixMarket::entry_said))]
fn entry_said(domain: Domain, heading: Heading, words: &[&[u8]]) -> Result<Entry, Mistake>
    ensures { result ≡ entry_said domain heading (texts_in words.now) }
{
    if words.len() != words_for(heading.field) || !are_digits(words[0]) || !are_digits(words[1]) {
        return Err(Mistake::Entry);
    }
    let i = digits_value(words[0]);
    let j = digits_value(words[1]);
    if !is_position(heading, i, j) {
        return Err(Mistake::Index);
    }
    let Some(value) = value_said(heading.field, words) else {
        return Err(Mistake::Value);
    };
    Ok(Entry {
        row: (i - 1) as u64,
        col: (j - 1) as u64,
        word: domain.wrapped(value),
    })
}

/// How many words an entry line has.
const fn words_for(field: Field) -> usize
    ensures { result ≡ words_for field }
{
    match field {
        Field::Pattern => 2,
        Field::Integer => 3,
    }
}

/// Whether an entry may stand in a row and a column, which are counted from 1.
fn is_position(heading: Heading, i: u128, j: u128) -> bool
    ensures { result ≡ is_position heading i j }
{
    1 <= i
        && i <= u128::from(heading.rows)
        && 1 <= j
        && j <= u128::from(heading.cols)
        && (!matches!(heading.symmetry, Symmetry::SkewSymmetric) || i != j)
}

/// The value that the words of a line say.
fn value_said(field: Field, words: &[&[u8]]) -> Option<i128>
    requires { words_for field ≤ length words.now }
    ensures { result ≡ value_said field (texts_in words.now) }
{
    match field {
        Field::Pattern => Some(1),
        Field::Integer => value(words[2]),
    }
}

/// Appends an entry, and the one that the file leaves out.
fn push_with_mirror(
    entries: &mut Vec<Entry>,
    symmetry: Symmetry,
    entry: Entry,
) -> Result<(), AllocError>
    ensures { OnOk result (entries.new.items ≡ entries.old.items ++ with_mirror symmetry entry) }
{
    entries.push(entry)?;
    match symmetry {
        Symmetry::General => Ok(()),
        Symmetry::Symmetric => {
            if entry.row != entry.col {
                entries.push(mirrored(entry, entry.word))?;
            }
            Ok(())
        }
        Symmetry::SkewSymmetric => {
            let value = Domain::Int64.value_of(entry.word);
            entries.push(mirrored(entry, Domain::Int64.wrapped(-value)))?;
            Ok(())
        }
    }
}

/// A word at the transposed position of an entry.
const fn mirrored(entry: Entry, word: u64) -> Entry
    ensures { result ≡ entry_at entry.col entry.row word }
{
    Entry {
        row: entry.col,
        col: entry.row,
        word,
    }
}
