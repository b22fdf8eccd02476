//! Functions and tests of each entry of a bitmap, place by place.
ghost use Rattle.std.specs.Prelude.{◌≡◌, ℕ, IfOk};
ghost use Rattle.std.specs.Option.{option_map};
ghost use Rattle.algebra.specs.Functions.{function_named};
ghost use Rattle.elementwise.specs.Mapped.{answer_by};
ghost use Rattle.elementwise.specs.Tests.{passes_by};
ghost use Rattle.lanes.specs.Functions.{word_made};
ghost use Rattle.model.specs.ElementWise.{applied, kept_where};
ghost use Rattle.model.specs.Entries.{word_at};

use algebra::{Function, IndexOp};
use bitmap::{Bitmap, WordMaker, Words};
use lanes::WordFunction;
use model::NoMemory;
use std::alloc::Global;

/// What a function gives for each entry of a bitmap (`GrB_apply`). It takes time and memory for all positions.
pub fn apply_bitmap<M: WordMaker>(
    maker: &M,
    alloc: Global,
    a: &Bitmap,
    function: Function,
) -> Result<Bitmap, NoMemory>
    ensures rows { IfOk result (λ b. b.rows ≡ a.now.rows) }
    ensures cols { IfOk result (λ b. b.cols ≡ a.now.cols) }
    ensures content { IfOk result (λ b. (i j : ℕ) → word_at b.entries i j
        ≡ applied (function_named function) (word_at a.now.entries) i j) }
{
    match function {
        Function::Unary(op) => map_bitmap(maker, alloc, a, WordFunction::Unary(op)),
        Function::First { op, value } => {
            let value = op.domain.wrapped(value);
            map_bitmap(maker, alloc, a, WordFunction::First { op, value })
        }
        Function::Second { op, value } => {
            let value = op.domain.wrapped(value);
            map_bitmap(maker, alloc, a, WordFunction::Second { op, value })
        }
        Function::Index { op, scalar } => {
            let s = op.scalar().wrapped(scalar);
            index_bitmap(maker, alloc, a, op, s)
        }
    }
}

/// What a function of words alone gives for each entry.
fn map_bitmap<M: WordMaker>(
    maker: &M,
    alloc: Global,
    a: &Bitmap,
    function: WordFunction,
) -> Result<Bitmap, NoMemory>
    ensures rows { IfOk result (λ b. b.rows ≡ a.now.rows) }
    ensures cols { IfOk result (λ b. b.cols ≡ a.now.cols) }
    ensures content { IfOk result (λ b. (i j : ℕ) → word_at b.entries i j
        ≡ option_map (word_made function) (word_at a.now.entries i j)) }
{
    // It is said there that a bitmap has no entry outside its shape.
    let _rows = a.rows();
    let words = maker.make(
        alloc,
        Words::Mapped {
            function,
            a: a.words(),
        },
    )?;
    a.with_words(words)
}

/// What an index operator gives for each entry, with the word `s` as its scalar.
fn index_bitmap<M: WordMaker>(
    maker: &M,
    alloc: Global,
    a: &Bitmap,
    op: IndexOp,
    s: u64,
) -> Result<Bitmap, NoMemory>
    ensures rows { IfOk result (λ b. b.rows ≡ a.now.rows) }
    ensures cols { IfOk result (λ b. b.cols ≡ a.now.cols) }
    ensures content { IfOk result (λ b. (i j : ℕ) → word_at b.entries i j
        ≡ option_map (answer_by op s i j) (word_at a.now.entries i j)) }
{
    // It is said there that a bitmap has no entry outside its shape.
    let _rows = a.rows();
    let (cols, words) = (a.cols(), a.words());
    let answers = maker.make(
        alloc,
        Words::Answers {
            op,
            s,
            cols,
            a: words,
        },
    )?;
    a.with_words(answers)
}

/// The entries of a bitmap for which an index operator's answer, with the word `s` as its scalar, is true when it is
/// cast to BOOL (`GrB_select`). It takes time and memory for all positions.
pub fn select_bitmap<M: WordMaker>(
    maker: &M,
    alloc: Global,
    a: &Bitmap,
    op: IndexOp,
    s: u64,
) -> Result<Bitmap, NoMemory>
    ensures rows { IfOk result (λ b. b.rows ≡ a.now.rows) }
    ensures cols { IfOk result (λ b. b.cols ≡ a.now.cols) }
    ensures content { IfOk result (λ b. (i j : ℕ) → word_at b.entries i j
        ≡ kept_where (passes_by op s) (word_at a.now.entries) i j) }
{
    // It is said there that a bitmap has no entry outside its shape.
    let _rows = a.rows();
    let (cols, words) = (a.cols(), a.words());
    let passing = maker.make(
        alloc,
        Words::Passing {
            op,
            s,
            cols,
            a: words,
        },
    )?;
    a.keep(maker, alloc, &passing)
}
