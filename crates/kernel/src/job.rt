//! What of a task decides where it is cut into pieces of rows.
use crate::bitmaps::makes_column;
use crate::reading::needs_joined;
use calls::{Accepted, OneInput, Operation, Recipe, Region, Role, Roles, TwoInputs};
use fitting::may_be_bitmap;
use model::Form as Factors;
use store::{Blocks, Form, Sparse, Store};

/// How much work there is for each of two pieces of a task that is cut, in entries: less takes about as long as to wake
/// a thread for it, and to join it. So much has each piece of which each goes along all of an input.
const LEAST_WORK: u64 = 131_072;

/// How much work other pieces have at least, in entries; of products, some may have less.
const LEAST_PIECE: u64 = 32_768;

/// Where there are more than two pieces, each has at least so many times the work that all of them do again.
const TIMES_AGAIN: u64 = 4;

/// How many pieces each thread gets, at the most, of a product of matrices of lists: its rows may take very different
/// times, and no thread is to work on a long piece while the others have nothing left.
pub(crate) const PRODUCT_PIECES: u64 = 32;

/// How many pieces each thread gets, at the most, of other operations, of which each entry, or each row, takes about
/// the same time.
const EVEN_PIECES: u64 = 8;

/// How many pieces each thread gets of a task of which each goes along all of an input: of a transpose, and of a
/// product whose first factor is a bitmap, of which it makes lists.
const LONG_PIECES: u64 = 1;

/// How many pieces there are at most: each takes a part of the time in which they are handed out and joined.
pub(crate) const MOST_PIECES: u64 = 256;

/// How much work it takes to look an index of a list up, or to put it in order, in entries.
const LISTED: u64 = 4;

/// What of a task decides where it is cut.
#[derive(Clone, Copy)]
pub(crate) struct Job<'a> {
    pub(crate) along: Along<'a>,
    // About how many entries, or products, the whole task goes along.
    work: u64,
    // ..and how many each piece does, beside its part of these.
    again: u64,
    // How much work each piece has at least.
    least: u64,
    pieces_a_thread: u64,
}

/// Along what the pieces of a task are even.
#[derive(Clone, Copy)]
pub(crate) enum Along<'a> {
    /// The entries in an input's rows, which are the output's.
    Rows(&'a Sparse),
    /// The blocks of an input with the output's rows, so that no piece needs parts of several.
    Blocks(&'a Blocks),
    /// The products of these entries with the rows of another store.
    Products(&'a Sparse, &'a Store),
    /// The entries in the columns of an input of lists, which are the output's rows.
    Columns(&'a Store),
    /// The output's rows, of which there are so many.
    Evenly(u64),
}

impl<'a> Job<'a> {
    /// How a recipe is cut; None where it isn't.
    pub(crate) fn of(recipe: &Recipe, stores: &Roles<&'a Store>) -> Option<Job<'a>> {
        let job = match recipe {
            Recipe::Transposed(_) => job_of_transpose(stores.first?)?,
            Recipe::Computed(computation) => job_of_operation(&computation.accepted, stores)?,
            _ => return None,
        };
        Some(Job {
            again: job.again.saturating_add(turned_entries(recipe, stores)),
            ..job
        })
    }

    /// How many pieces are about worth it for so many threads.
    pub(crate) fn count_pieces(&self, threads: u64) -> u64 {
        if threads < 2 || self.work / 2 < LEAST_WORK.max(self.again) {
            return 1;
        }
        // Where rows have many entries each, there are up to twice as many pieces.
        let most = threads
            .saturating_mul(self.pieces_a_thread)
            .min(MOST_PIECES / 2);
        let again = self.again.saturating_mul(TIMES_AGAIN);
        most.min(self.work / self.least.max(again).max(1)).max(2)
    }
}

/// How an operation is cut.
fn job_of_operation<'a>(accepted: &Accepted, stores: &Roles<&'a Store>) -> Option<Job<'a>> {
    match &accepted.operation {
        Operation::Fill { region, .. } => job_over(region, stores.old?),
        Operation::OfOne { computes, .. } => job_of_one(accepted, computes, stores),
        Operation::OfTwo { computes, .. } => {
            job_of_two(
                accepted,
                *computes,
                stores.first?,
                stores.second?,
                stores.old,
            )
        }
    }
}

/// How an operation on one input is cut.
fn job_of_one<'a>(
    accepted: &Accepted,
    computes: &OneInput,
    stores: &Roles<&'a Store>,
) -> Option<Job<'a>> {
    let a = stores.first?;
    match computes {
        OneInput::Apply(_) | OneInput::Select { .. } | OneInput::ReduceRows(_) => {
            job_along(a, a.nvals())
        }
        OneInput::Transpose => job_of_transpose(a),
        OneInput::Extract(region) => job_of_extract(region, a, accepted.out.c.shape.rows()),
        OneInput::Assign(region) => job_over(region, stores.old?),
    }
}

/// How an operation is cut that writes at a region over what was there: along the entries of this, most of which are
/// copied. That doesn't pay where the pieces are joined at once, which would copy them again.
fn job_over<'a>(region: &Region, old: &'a Store) -> Option<Job<'a>> {
    if old.cols() == 1 || may_be_bitmap(old.rows(), old.cols()) {
        return None;
    }
    Some(Job {
        again: work_for_lists(region),
        ..job_along(old, old.nvals())?
    })
}

/// How a transpose is cut: each piece takes some columns out of all rows. That pays where columns have an entry each,
/// or more.
fn job_of_transpose(a: &Store) -> Option<Job<'_>> {
    let nvals = a.parts()?.nvals();
    if a.cols() > nvals {
        return None;
    }
    Some(Job {
        along: Along::Columns(a),
        work: nvals,
        again: 0,
        least: LEAST_WORK,
        pieces_a_thread: LONG_PIECES,
    })
}

/// How an extraction to so many rows is cut: along the input's, or along those that are listed. Each piece puts the
/// columns that are listed in order.
fn job_of_extract<'a>(region: &Region, a: &'a Store, rows: u64) -> Option<Job<'a>> {
    let lists = lists_of(a)?;
    let (listed, _) = listed_in(region);
    if listed == 0 {
        return Some(Job {
            again: work_for_lists(region),
            ..job_along(a, a.nvals())?
        });
    }
    let entries_a_row = (lists.nvals() / lists.rows().max(1)).max(1);
    Some(Job {
        along: Along::Evenly(rows),
        work: listed.saturating_mul(entries_a_row),
        again: work_for_lists(region),
        least: LEAST_PIECE,
        pieces_a_thread: EVEN_PIECES,
    })
}

/// The work that the lists of a region make for each piece.
fn work_for_lists(region: &Region) -> u64 {
    let (rows, cols) = listed_in(region);
    rows.saturating_add(cols).saturating_mul(LISTED)
}

/// How many rows and columns a region lists; `:` lists none.
fn listed_in(region: &Region) -> (u64, u64) {
    match region {
        Region::One(rows) => (rows.count(0), 0),
        Region::Two(rows, cols) => (rows.count(0), cols.count(0)),
    }
}

/// How an operation on two inputs is cut.
fn job_of_two<'a>(
    accepted: &Accepted,
    computes: TwoInputs,
    a: &'a Store,
    b: &'a Store,
    old: Option<&Store>,
) -> Option<Job<'a>> {
    match computes {
        TwoInputs::Combine { .. } => {
            // Both have the output's rows. The pieces are even along the one that has more entries.
            let by = if a.nvals() < b.nvals() { b } else { a };
            job_along(by, a.nvals().saturating_add(b.nvals()))
        }
        TwoInputs::Multiply { form, .. } => match form {
            Factors::MatrixMatrix => Some(job_of_product(a, b)),
            Factors::MatrixVector if makes_column(&accepted.out, old, a, b) => None,
            Factors::MatrixVector => job_along(a, a.nvals()),
            // Each piece would go along all rows of the matrix.
            Factors::VectorMatrix => None,
        },
    }
}

/// How a product of two matrices is cut: for each entry of the first there are about as many products as entries in a
/// row of the second. The rows of a bitmap have about as many entries each.
fn job_of_product<'a>(a: &'a Store, b: &'a Store) -> Job<'a> {
    let products = (b.nvals() / b.rows().max(1)).max(1);
    let (along, least, pieces_a_thread) = match a.form() {
        Form::Sparse(lists) => (Along::Products(lists, b), LEAST_PIECE, PRODUCT_PIECES),
        Form::Blocks(blocks) => (Along::Blocks(blocks), LEAST_PIECE, PRODUCT_PIECES),
        Form::Bitmap(_) => (Along::Evenly(a.rows()), LEAST_WORK, LONG_PIECES),
    };
    Job {
        along,
        work: a.nvals().saturating_mul(products),
        again: 0,
        least,
        pieces_a_thread,
    }
}

/// How an operation is cut that takes about the same time for each entry. One that goes along bitmaps is done in one
/// piece.
fn job_along(by: &Store, work: u64) -> Option<Job<'_>> {
    let along = match by.form() {
        Form::Sparse(lists) => Along::Rows(lists),
        Form::Blocks(blocks) => Along::Blocks(blocks),
        Form::Bitmap(_) => return None,
    };
    Some(Job {
        along,
        work,
        again: 0,
        least: LEAST_PIECE,
        pieces_a_thread: EVEN_PIECES,
    })
}

/// The lists of a store that has them in one: of another form each piece would make them anew.
fn lists_of(store: &Store) -> Option<&Sparse> {
    match store.form() {
        Form::Sparse(lists) => Some(lists),
        Form::Bitmap(_) | Form::Blocks(_) => None,
    }
}

/// How many entries each piece turns into lists, before it begins: those of the bitmaps among the stores, and of the
/// blocks that it doesn't go along by its rows.
fn turned_entries(recipe: &Recipe, stores: &Roles<&Store>) -> u64 {
    turned_in(recipe, Role::Old, stores.old)
        .saturating_add(turned_in(recipe, Role::Mask, stores.mask))
        .saturating_add(turned_in(recipe, Role::First, stores.first))
        .saturating_add(turned_in(recipe, Role::Second, stores.second))
}

/// The entries of a store in a role that each piece turns into lists.
fn turned_in(recipe: &Recipe, role: Role, store: Option<&Store>) -> u64 {
    let Some(store) = store else { return 0 };
    match store.form() {
        Form::Sparse(_) => 0,
        Form::Blocks(_) if !needs_joined(recipe, role) => 0,
        Form::Bitmap(_) | Form::Blocks(_) => store.nvals(),
    }
}
