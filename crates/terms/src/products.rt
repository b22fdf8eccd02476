//! The products of which a row of the result is summed.
ghost use Rattle.std.specs.Prelude.{◌≡◌, ◌++◌, ◌+◌, ◌^◌, ◌<◌, ◌≤◌, IfOk, IfSome, OnOk, length, take};
ghost use Rattle.std.specs.Vec.{vec_len};
ghost use Rattle.store.specs.Fibers.{entries_along};
ghost use Rattle.terms.specs.Marked.{keeps_marked, lets_marked};
ghost use Rattle.terms.specs.Terms.{AreFirstKept, kept_terms, times_row};
ghost use Rattle.terms.specs.declared.term.Term.{Term};

use crate::ahead::{AHEAD, look_ahead};
use crate::term::Term;
use algebra::{BinaryOp, Semiring, with_semiring};
use masks::MarkedMask;
use model::NoMemory;
use store::{Row, RowHints, Sparse};

/// What stands where no term was written yet.
const NO_TERM: Term = Term { col: 0, word: 0 };

/// Makes room for so many terms from a place on, where there is too little.
#[inline(always)]
fn make_room(terms: &mut Vec<Term>, end: usize, count: usize) -> Result<(), NoMemory>
    requires { end ≤ length terms.old.items }
    ensures before { OnOk result (take end terms.new.items ≡ take end terms.old.items) }
    ensures room { OnOk result (end + count ≤ length terms.new.items) }
{
    if terms.len() - end < count {
        terms.reserve(count)?;
        terms.resize(end + count, NO_TERM)?;
    }
    Ok(())
}

/// Writes a word times each entry of a row to places that follow one another, and answers the place behind them.
#[inline(always)]
fn write_all(
    terms: &mut [Term],
    start: usize,
    word: u64,
    cols: &[u64],
    words: &[u64],
    multiply: BinaryOp,
) -> usize
    requires lengths { length words.now ≡ length cols.now }
    requires room { start + length cols.now ≤ length terms.old }
    ensures length { length terms.new ≡ length terms.old }
    ensures end { result ≤ start + length cols.now }
    ensures terms { take result terms.new
        ≡ take start terms.old ++ times_row multiply word (entries_along 0 cols.now words.now) }
{
    for k in 0..cols.len() {
        terms[start + k] = Term {
            col: cols[k],
            word: multiply.eval(word, words[k]),
        };
    }
    start + cols.len()
}

/// The same of the products at columns that a mask lets through. Whether it does so can't be foreseen, so there is no
/// branch: what it keeps out is written over.
#[inline(always)]
fn write_kept(
    terms: &mut [Term],
    start: usize,
    word: u64,
    cols: &[u64],
    words: &[u64],
    mask: MarkedMask<'_>,
    multiply: BinaryOp,
) -> usize
    requires mask { mask.bitmap.now.cols ≡ 1 }
    requires lengths { length words.now ≡ length cols.now }
    requires room { start + length cols.now ≤ length terms.old }
    ensures length { length terms.new ≡ length terms.old }
    ensures end { result ≤ start + length cols.now }
    ensures terms { take result terms.new ≡ take start terms.old
        ++ kept_terms (keeps_marked mask.entry) (times_row multiply word (entries_along 0 cols.now words.now)) }
{
    let mut end = start;
    for k in 0..cols.len() {
        let col = cols[k];
        let is_kept = mask.lets_row(col);
        terms[end] = Term {
            col,
            word: multiply.eval(word, words[k]),
        };
        end += usize::from(is_kept);
    }
    end
}

/// Writes a word times each entry of a row, at the columns that the mask lets through, where there is one, behind the
/// first terms, and answers how many there are then.
#[inline(always)]
fn append_products(
    terms: &mut Vec<Term>,
    end: usize,
    word: u64,
    cols: &[u64],
    words: &[u64],
    mask: Option<MarkedMask<'_>>,
    multiply: BinaryOp,
) -> Result<usize, NoMemory>
    requires mask { IfSome mask (λ mask. mask.bitmap.now.cols ≡ 1) }
    requires lengths { length words.now ≡ length cols.now }
    requires end { end ≤ length terms.old.items }
    ensures end { IfOk result (λ end. end ≤ length terms.new.items) }
    ensures terms { IfOk result (λ past. take past terms.new.items ≡ take end terms.old.items
        ++ kept_terms (lets_marked mask.entry) (times_row multiply word (entries_along 0 cols.now words.now))) }
{
    make_room(terms, end, cols.len())?;
    Ok(match mask {
        Some(mask) => write_kept(terms, end, word, cols, words, mask, multiply),
        None => write_all(terms, end, word, cols, words, multiply),
    })
}

/// Makes `terms` the products of the first entries of a row of A with B, at the columns that the mask lets through,
/// where there is one, and answers how many entries they are of: of all, or of as many as give more than `most`
/// products, those that the mask keeps out with them, or of none where `most` is 0. Each entry is multiplied with the
/// row of B that its column names, in rising order of that column. Its time follows the number of products and of
/// entries, each entry with a search in B where there is no hint.
#[tactic(auto, using(crate::proofs::Arms::same_terms))]
pub fn expand(
    terms: &mut Vec<Term>,
    row: Row<'_>,
    b: &Sparse,
    hints: &RowHints,
    mask: Option<MarkedMask<'_>>,
    semiring: Semiring,
    most: usize,
) -> Result<usize, NoMemory>
    requires mask { IfSome mask (λ mask. mask.bitmap.now.cols ≡ 1) }
    requires lengths { length row.words.now ≡ length row.cols.now }
    ensures terms { IfOk result (AreFirstKept (lets_marked mask.entry) semiring.multiply
        (entries_along row.entry.index row.entry.cols.now row.entry.words.now) b.now terms.new.items) }
    ensures bound { IfOk result (λ done. done ≤ length row.entry.cols.now) }
    ensures stopped { IfOk result (λ done. done < length row.entry.cols.now → most + 1 < 2 ^ 64) }
{
    if most == 0 {
        terms.clear();
        return Ok(0);
    }
    // All that runs below the arms is inlined, so that its loops are compiled for each.
    with_semiring!(
        semiring,
        |own| expand_by(terms, row, b, hints, mask, own, most)
    )
}

/// How far the products of a row are listed.
#[derive(Clone, Copy)]
struct Listed {
    /// Of so many entries of the row.
    done: usize,
    /// A hint for the row of B that the next one names.
    hint: usize,
    /// So many products, with those at columns that the mask keeps out.
    products: usize,
}

/// What `expand` does, by one semiring of its arms.
#[inline(always)]
fn expand_by(
    terms: &mut Vec<Term>,
    row: Row<'_>,
    b: &Sparse,
    hints: &RowHints,
    mask: Option<MarkedMask<'_>>,
    semiring: Semiring,
    most: usize,
) -> Result<usize, NoMemory>
    requires mask { IfSome mask (λ mask. mask.bitmap.now.cols ≡ 1) }
    requires lengths { length row.words.now ≡ length row.cols.now }
    ensures terms { IfOk result (AreFirstKept (lets_marked mask.entry) semiring.multiply
        (entries_along row.entry.index row.entry.cols.now row.entry.words.now) b.now terms.new.items) }
    ensures bound { IfOk result (λ done. done ≤ length row.entry.cols.now) }
    ensures stopped { IfOk result (λ done. done < length row.entry.cols.now → most + 1 < 2 ^ 64) }
{
    terms.clear();
    let mut listed = Listed {
        done: 0,
        hint: 0,
        products: 0,
    };
    while listed.done < row.cols.len() && listed.products <= most {
        listed = append_rows(terms, listed, row, b, hints, mask, semiring, most)?;
    }
    Ok(listed.done)
}

/// Puts the products of the next entries of a row of A, at the columns that are let through, behind those of the
/// entries before them, until there are more than `most`.
#[inline(always)]
fn append_rows(
    terms: &mut Vec<Term>,
    listed: Listed,
    row: Row<'_>,
    b: &Sparse,
    hints: &RowHints,
    mask: Option<MarkedMask<'_>>,
    semiring: Semiring,
    most: usize,
) -> Result<Listed, NoMemory>
    requires mask { IfSome mask (λ mask. mask.bitmap.now.cols ≡ 1) }
    requires lengths { length row.words.now ≡ length row.cols.now }
    requires more { listed.done < length row.cols.now }
    requires few { listed.products ≤ most }
    requires terms { AreFirstKept (lets_marked mask) semiring.multiply
        (entries_along row.index row.cols.now row.words.now) b.now terms.old.items listed.done }
    ensures terms { IfOk result (λ r. AreFirstKept (lets_marked mask.entry) semiring.multiply
        (entries_along row.entry.index row.entry.cols.now row.entry.words.now) b.now terms.new.items r.done) }
    ensures bound { IfOk result (λ r. r.done ≤ length row.entry.cols.now) }
    ensures more { IfOk result (λ r. listed.done < r.done) }
{
    let past = row.cols.len().min(listed.done.saturating_add(AHEAD));
    let mut listed = listed;
    let mut end = terms.len();
    let products = look_ahead(row.cols, listed.done, b, hints, listed.hint);
    make_room(terms, end, products.min(most))?;
    while listed.done < past && listed.products <= most {
        let col = row.cols[listed.done];
        let word = row.words[listed.done];
        let (cols, words, hint) = b.row_near(col, hints.of(col, listed.hint));
        end = append_products(terms, end, word, cols, words, mask, semiring.multiply)?;
        listed = Listed {
            done: listed.done + 1,
            hint,
            products: listed.products.saturating_add(cols.len()),
        };
    }
    // What was written behind is no term.
    terms.truncate(end);
    Ok(listed)
}
