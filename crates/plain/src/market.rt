//! Matrices of Matrix Market files, straight from the definition.
ghost use Rattle.std.specs.Prelude.{◌≡◌, ◌<◌, ◌-◌, ◌^◌, Err, IfOk, map};
ghost use Rattle.model.specs.Grammar.{words_of};
ghost use Rattle.model.specs.MatrixMarket.{fault_at, matrix_behind, matrix_in, matrix_in_lines, matrix_listed};
ghost use Rattle.plain.specs.Files.{lines_in, matrix_of_plain, texts_in};

use crate::heads::{has_fitting_shape, heading_of, is_banner, kind_of};
use crate::lines::{PlainLine, lines_of, told, words_of};
use crate::listed::{entries_said, faults_of};
use algebra::Domain;
use model::{Entry, Field, Heading, Misread, Mistake, MmFault, Symmetry};
use std::alloc::{AllocError, Global};

/// A matrix as a file gives it: its dimensions, and entries in the order of the file.
#[derive(Drop)]
pub struct PlainMatrix {
    pub rows: u64,
    pub cols: u64,
    pub entries: Vec<Entry>,
}

/// What a Matrix Market text stands for, its values cast to a domain, or what is wrong with it. An error is
/// that memory was refused.
#[tactic(auto, unfolding(model::specs::MatrixMarket::matrix_in))]
pub fn read(
    alloc: Global,
    text: &[u8],
    domain: Domain,
) -> Result<Result<PlainMatrix, MmFault>, AllocError>
    ensures { IfOk result (λ read. matrix_of_plain read ≡ matrix_in domain text.now) }
{
    let lines = lines_of(alloc, text)?;
    match matrix_in_lines(alloc, domain, lines.as_slice())? {
        Ok(matrix) => Ok(Ok(matrix)),
        Err(wrong) => Ok(Err(fault_at(lines.len() as u64, wrong))),
    }
}

/// A mistake by its line, of so many.
fn fault_at(lines: u64, wrong: Misread) -> MmFault
    requires { lines < 2 ^ 64 - 1 }
    ensures { result ≡ fault_at lines wrong }
{
    MmFault::Malformed {
        line: (lines + 1).saturating_sub(wrong.left),
        mistake: wrong.mistake,
    }
}

/// A mistake, in the line from which so many are left.
const fn wrong(left: u64, mistake: Mistake) -> Result<PlainMatrix, Misread>
    ensures { result ≡ Err (record { left = left; mistake = mistake }) }
{
    Err(Misread { left, mistake })
}

/// The matrix of all lines.
#[tactic(auto, unfolding(model::specs::MatrixMarket::matrix_in_lines))]
fn matrix_in_lines(
    alloc: Global,
    domain: Domain,
    lines: &[&[u8]],
) -> Result<Result<PlainMatrix, Misread>, AllocError>
    ensures { IfOk result (λ read. matrix_of_plain read
        ≡ matrix_in_lines domain (map words_of (texts_in lines.now))) }
{
    let left = lines.len() as u64;
    let Some((banner, lines)) = lines.split_first() else {
        return Ok(wrong(0, Mistake::Banner));
    };
    let banner = words_of(alloc, banner)?;
    if !is_banner(banner.as_slice()) {
        return Ok(wrong(left, Mistake::Banner));
    }
    let Some(kind) = kind_of(domain, banner.as_slice()) else {
        return Ok(wrong(left, Mistake::Unsupported));
    };
    let told = told(alloc, lines)?;
    matrix_behind(alloc, domain, kind, told.as_slice())
}

/// The matrix of the lines behind a banner that say something.
#[tactic(auto, unfolding(model::specs::MatrixMarket::matrix_behind))]
fn matrix_behind(
    alloc: Global,
    domain: Domain,
    kind: (Field, Symmetry),
    lines: &[PlainLine<'_>],
) -> Result<Result<PlainMatrix, Misread>, AllocError>
    ensures { IfOk result (λ read. matrix_of_plain read ≡ matrix_behind domain kind (lines_in lines.now)) }
{
    let Some((size, lines)) = lines.split_first() else {
        return Ok(wrong(0, Mistake::SizeLine));
    };
    let Some(heading) = heading_of(kind, size.words.as_slice()) else {
        return Ok(wrong(size.left, Mistake::SizeLine));
    };
    if !has_fitting_shape(heading) {
        return Ok(wrong(size.left, Mistake::NotSquare));
    }
    matrix_listed(alloc, domain, heading, lines)
}

/// The matrix of a heading and entry lines, or the first thing that is wrong.
#[tactic(auto, using(crate::proofs::FileLaws::words_of_lines), unfolding(model::specs::MatrixMarket::matrix_listed))]
fn matrix_listed(
    alloc: Global,
    domain: Domain,
    heading: Heading,
    lines: &[PlainLine<'_>],
) -> Result<Result<PlainMatrix, Misread>, AllocError>
    ensures { IfOk result (λ read. matrix_of_plain read ≡ matrix_listed domain heading (lines_in lines.now)) }
{
    let faults = faults_of(alloc, domain, heading, lines)?;
    if let Some(fault) = faults.first() {
        return Ok(Err(*fault));
    }
    let entries = entries_said(alloc, domain, heading, lines)?;
    Ok(Ok(PlainMatrix {
        rows: heading.rows,
        cols: heading.cols,
        entries,
    }))
}
