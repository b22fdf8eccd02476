//! Objects as Matrix Market texts.
ghost use Rattle.std.specs.Prelude.{◌≡◌, ◌-◌, ◌<◌, ◌≤◌, ◌^◌, ◌++◌, List, IfOk, OnErr, OnOk, length, map};
ghost use Rattle.std.specs.List.{All, flat_map};
ghost use Rattle.model.specs.Entries.{entry_at};
ghost use Rattle.model.specs.Object.{cols_of, rows_of};
ghost use Rattle.model.specs.Text.{canonical_lines, ended, entry_line, size_line};
ghost use Rattle.mmio.specs.Written.{Grows, IsCountable, lines_between};
ghost use Rattle.store.specs.Fibers.{entries_along};
ghost use Rattle.store.specs.Stored.{content_of};

use crate::texts::{LONGEST, put_line};
use algebra::Domain;
use bitmap::{OneThread, SeveralThreads};
use model::{NoMemory, Shape};
use std::alloc::{AllocError, Global};
use std::ops::Range;
use std::thread::{Threads, join_mut};
use store::{Row, Rows, Sparse, Store};

/// The first line of a canonical text (NIST Matrix Market, coordinate format).
const BANNER: &[u8] = b"%%MatrixMarket matrix coordinate integer general\n";

/// How many lines a thread is started for: to start it takes about a fifth of the time of these.
const WORTH_A_THREAD: usize = 1 << 12;

/// Room is made for so many bytes of a line at first. A text that grows may be moved.
const USUAL_LINE: usize = 16;

/// Who writes the lines of files: the calling thread, or others beside it.
pub trait FileWriter {
    /// Appends a line for each entry of the first rows of a store, row by row, with indices from 1. After an error some
    /// of them are there. Its time follows the number of entries.
    fn write_entries(
        &self,
        store: &Sparse,
        past: u64,
        domain: Domain,
        out: &mut Vec<u8>,
    ) -> Result<(), AllocError>
        requires { IsCountable store.now }
        ensures ok { OnOk result (out.new.items ≡ out.old.items ++ lines_between domain store.now 0 past) }
        ensures grows { Grows out.old.items out.new.items };
}

impl FileWriter for OneThread {
    fn write_entries(
        &self,
        store: &Sparse,
        past: u64,
        domain: Domain,
        out: &mut Vec<u8>,
    ) -> Result<(), AllocError> {
        write_between(out, domain, store, 0..past)
    }
}

impl<R: Threads> FileWriter for SeveralThreads<'_, R> {
    fn write_entries(
        &self,
        store: &Sparse,
        past: u64,
        domain: Domain,
        out: &mut Vec<u8>,
    ) -> Result<(), AllocError> {
        let entries = store.nvals() as usize;
        let parts = (entries / WORTH_A_THREAD) as u64;
        let parts = parts.min(self.others().saturating_add(1)) as usize;
        if parts < 2 {
            return write_between(out, domain, store, 0..past);
        }
        let each = entries / parts + 1;
        make_room(out, entries);
        write_beside(self.starter(), domain, store, past, entries, each, out)
    }
}

/// Appends the canonical text of an object: a banner, its shape and number of entries, and a line for each
/// entry, row by row, with indices from 1. A vector is written as one column. An error leaves what is
/// appended to as it was. Its time follows the number of entries.
pub fn write(store: &Store, shape: Shape, domain: Domain, out: &mut Vec<u8>) -> Result<(), NoMemory>
    requires rows { store.now.rows ≡ rows_of shape }
    requires cols { store.now.cols ≡ cols_of shape }
    ensures ok { OnOk result (out.new.items ≡ out.old.items ++ flat_map ended (canonical_lines
        (record { domain = domain; shape = shape; content = content_of store.now }))) }
    ensures err { OnErr result (out.new.items ≡ out.old.items) }
{
    write_by(&OneThread, store, shape, domain, out)
}

/// The same where a writer writes the lines of the entries.
pub fn write_by<W: FileWriter>(
    writer: &W,
    store: &Store,
    shape: Shape,
    domain: Domain,
    out: &mut Vec<u8>,
) -> Result<(), NoMemory>
    requires rows { store.now.rows ≡ rows_of shape }
    requires cols { store.now.cols ≡ cols_of shape }
    ensures ok { OnOk result (out.new.items ≡ out.old.items ++ flat_map ended (canonical_lines
        (record { domain = domain; shape = shape; content = content_of store.now }))) }
    ensures err { OnErr result (out.new.items ≡ out.old.items) }
{
    let lists = store.as_sparse(*out.allocator())?;
    let length = out.len();
    if write_lines(writer, lists.get(), shape, domain, out).is_err() {
        out.truncate(length);
        return Err(NoMemory);
    }
    Ok(())
}

/// Appends the lines of a canonical text. After an error some of them are there.
fn write_lines<W: FileWriter>(
    writer: &W,
    store: &Sparse,
    shape: Shape,
    domain: Domain,
    out: &mut Vec<u8>,
) -> Result<(), AllocError>
    requires rows { store.now.rows ≡ rows_of shape }
    requires cols { store.now.cols ≡ cols_of shape }
    ensures ok { OnOk result (out.new.items ≡ out.old.items ++ flat_map ended (canonical_lines
        (record { domain = domain; shape = shape; content = content_of store.now }))) }
    ensures grows { Grows out.old.items out.new.items }
{
    out.extend_from_slice(BANNER)?;
    write_size(out, shape.rows(), shape.cols(), store.nvals())?;
    writer.write_entries(store, shape.rows(), domain, out)
}

/// Appends the lines of the first rows of a store, which have about so many entries. The calling thread writes those in
/// front, and another one each part behind them of about `each` entries.
fn write_beside<R: Threads>(
    rt: &R,
    domain: Domain,
    store: &Sparse,
    past: u64,
    entries: usize,
    each: usize,
    out: &mut Vec<u8>,
) -> Result<(), AllocError>
    requires { IsCountable store.now }
    ensures ok { OnOk result (out.new.items ≡ out.old.items ++ lines_between domain store.now 0 past) }
    ensures grows { Grows out.old.items out.new.items }
{
    if entries <= each || past == 0 {
        return write_between(out, domain, store, 0..past);
    }
    let left = entries - each;
    let middle = store.part_end(0..past, left);
    if middle == past {
        return write_between(out, domain, store, 0..past);
    }
    let alloc = *out.allocator();
    let front = &mut *out;
    let mut theirs = || -> Result<Vec<u8>, AllocError>
        requires { (IsCountable store.now) × (middle ≤ past) }
        ensures { IfOk result (λ text. lines_between domain store.entry.now 0 middle ++ text.items
            ≡ lines_between domain store.entry.now 0 past) }
    { text_of(alloc, domain, store, middle..past) };
    let mut ours = || -> Result<(), AllocError>
        requires { IsCountable store.now }
        ensures { (OnOk result (front.exit.now.items
            ≡ front.entry.now.items ++ lines_between domain store.entry.now 0 middle))
            × Grows front.entry.now.items front.exit.now.items }
    { write_beside(rt, domain, store, middle, left, each, front) };
    let (text, written) = join_mut(rt, &mut theirs, &mut ours);
    match (text, written) {
        (Ok(text), Ok(())) => out.extend_from_slice(&text),
        _ => Err(AllocError),
    }
}

/// The lines of some rows of a store, which follow those of the rows before.
fn text_of(
    alloc: Global,
    domain: Domain,
    store: &Sparse,
    rows: Range<u64>,
) -> Result<Vec<u8>, AllocError>
    requires countable { IsCountable store.now }
    requires order { rows.start ≤ rows.end }
    ensures { IfOk result (λ text. lines_between domain store.now 0 rows.start ++ text.items
        ≡ lines_between domain store.now 0 rows.end) }
{
    let mut text = Vec::new(alloc);
    write_between(&mut text, domain, store, rows)?;
    Ok(text)
}

/// Appends the lines of some rows of a store.
fn write_between(
    out: &mut Vec<u8>,
    domain: Domain,
    store: &Sparse,
    rows: Range<u64>,
) -> Result<(), AllocError>
    requires { IsCountable store.now }
    ensures ok { OnOk result (out.new.items ≡ out.old.items ++ lines_between domain store.now rows.start rows.end) }
    ensures grows { Grows out.old.items out.new.items }
{
    make_room(out, store.fibers_in(rows.start..rows.end).len());
    write_rows(out, domain, store.rows_in(rows))
}

/// Makes room for the lines of so many entries, as far as there is memory.
fn make_room(out: &mut Vec<u8>, entries: usize)
    ensures { out.new.items ≡ out.old.items }
{
    let _ = out.reserve(entries.saturating_mul(USUAL_LINE));
}

/// Appends the size line of a canonical text.
fn write_size(out: &mut Vec<u8>, rows: u64, cols: u64, nvals: u64) -> Result<(), AllocError>
    ensures ok { OnOk result (out.new.items ≡ out.old.items ++ ended (size_line rows cols nvals)) }
    ensures err { OnErr result (out.new.items ≡ out.old.items) }
{
    let mut bytes = [0; LONGEST];
    let start = put_line(&mut bytes, rows, cols, Domain::Uint64, nvals);
    out.extend_from_slice(&bytes[start..])
}

/// Appends a line for each entry of the rows.
fn write_rows(out: &mut Vec<u8>, domain: Domain, rows: Rows<'_>) -> Result<(), AllocError>
    requires { All (λ e. (e.row < 2 ^ 64 - 1) × (e.col < 2 ^ 64 - 1)) rows.entries }
    ensures ok { OnOk result (out.new.items
        ≡ out.old.items ++ flat_map ended (map (entry_line domain) rows.entry.entries)) }
    ensures grows { Grows out.old.items out.new.items }
{
    let mut rest = rows;
    while let Some((row, others)) = rest.split_first() {
        write_row(out, domain, row)?;
        rest = others;
    }
    Ok(())
}

/// Appends a line for each entry of a row.
fn write_row(out: &mut Vec<u8>, domain: Domain, row: Row<'_>) -> Result<(), AllocError>
    requires lengths { length row.words.now ≡ length row.cols.now }
    requires index { row.index < 2 ^ 64 - 1 }
    requires cols { All (λ col. col < 2 ^ 64 - 1) row.cols.now }
    ensures ok { OnOk result (out.new.items ≡ out.old.items ++ flat_map ended (map (entry_line domain)
        (entries_along row.entry.index row.entry.cols.now row.entry.words.now))) }
    ensures grows { Grows out.old.items out.new.items }
{
    for k in 0..row.cols.len() {
        write_entry(out, domain, row.index, row.cols[k], row.words[k])?;
    }
    Ok(())
}

#[inline(always)]
fn write_entry(
    out: &mut Vec<u8>,
    domain: Domain,
    row: u64,
    col: u64,
    word: u64,
) -> Result<(), AllocError>
    requires row { row < 2 ^ 64 - 1 }
    requires col { col < 2 ^ 64 - 1 }
    ensures ok { OnOk result (out.new.items ≡ out.old.items ++ ended (entry_line domain (entry_at row col word))) }
    ensures err { OnErr result (out.new.items ≡ out.old.items) }
{
    let mut bytes = [0; LONGEST];
    let start = put_line(&mut bytes, row + 1, col + 1, domain, word);
    out.extend_from_slice(&bytes[start..])
}
