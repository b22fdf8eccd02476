//! Sums of the terms at each column.
ghost use Rattle.std.specs.Prelude.{◌≡◌, ◌+◌, ◌<◌, ◌++◌, ◌∷◌, [], Some, OnOk};
ghost use Rattle.std.specs.Option.{option_map_or};
ghost use Rattle.terms.specs.Terms.{apply};
ghost use Rattle.std.specs.List.Sorted.{IsNonDecreasingBy};
ghost use Rattle.std.specs.Vec.{vec_capacity, vec_len};
ghost use Rattle.terms.specs.Terms.{HasSums};

use crate::term::Term;
use algebra::{BinaryOp, Semiring, with_semiring};
use model::NoMemory;
use std::mem;
use store::FiberLists;

/// Puts an entry for each column of `terms`, which come in order of their columns, behind the inner
/// indices and words: the sum of the words there, from the first to the last. A sum that is 0 is one
/// like any other.
#[tactic(auto, using(crate::proofs::Arms::same_runs))]
pub fn sum_runs(lists: &mut FiberLists, terms: &[Term], semiring: Semiring) -> Result<(), NoMemory>
    requires { IsNonDecreasingBy (λ t. t.col) terms.now }
    ensures { OnOk result (HasSums semiring.add.op terms.now lists.old lists.new) }
{
    // All that runs below the arms is inlined, so that its loops are compiled for each.
    with_semiring!(semiring, |own| sum_runs_by(lists, terms, own))
}

/// What `sum_runs` does, by one semiring of its arms. It works on lists of its own: a compiler keeps in registers where
/// these end, but not where lists end that were lent.
#[inline(always)]
fn sum_runs_by(lists: &mut FiberLists, terms: &[Term], semiring: Semiring) -> Result<(), NoMemory>
    requires { IsNonDecreasingBy (λ t. t.col) terms.now }
    ensures { OnOk result (HasSums semiring.add.op terms.now lists.old lists.new) }
{
    let none = FiberLists::new(*lists.inner.allocator());
    let mut own = mem::replace(lists, none);
    push_sums(&mut own, terms, semiring)?;
    *lists = own;
    Ok(())
}

/// What `sum_runs_by` does, in lists of any owner.
#[inline(always)]
fn push_sums(lists: &mut FiberLists, terms: &[Term], semiring: Semiring) -> Result<(), NoMemory>
    requires { IsNonDecreasingBy (λ t. t.col) terms.now }
    ensures { OnOk result (HasSums semiring.add.op terms.now lists.old lists.new) }
{
    let Some((first, rest)) = terms.split_first() else {
        return Ok(());
    };
    // Room for the most that there can be, a sum for each term.
    lists.inner.reserve(terms.len())?;
    lists.words.reserve(terms.len())?;
    let mut sum = *first;
    for term in rest {
        if term.col == sum.col {
            sum.word = semiring.add.op.eval(sum.word, term.word);
        } else {
            push_sum(lists, sum);
            sum = *term;
        }
    }
    push_sum(lists, sum);
    Ok(())
}

/// A sum with a word more; without one the word is the sum.
#[inline(always)]
pub fn sum_with(sum: Option<u64>, word: u64, add: BinaryOp) -> Option<u64>
    ensures { result ≡ Some (option_map_or (λ before. apply add before word) sum word) }
{
    Some(match sum {
        None => word,
        Some(before) => add.eval(before, word),
    })
}

/// Puts an entry behind the inner indices and words, where there is room.
#[inline(always)]
pub fn push_sum(lists: &mut FiberLists, sum: Term)
    requires inner_room { vec_len lists.old.inner < vec_capacity lists.old.inner }
    requires words_room { vec_len lists.old.words < vec_capacity lists.old.words }
    ensures ends { lists.new.ends ≡ lists.old.ends }
    ensures inner { lists.new.inner.items ≡ lists.old.inner.items ++ sum.col ∷ [] }
    ensures words { lists.new.words.items ≡ lists.old.words.items ++ sum.word ∷ [] }
    ensures inner_length { vec_len lists.new.inner ≡ vec_len lists.old.inner + 1 }
    ensures words_length { vec_len lists.new.words ≡ vec_len lists.old.words + 1 }
    ensures inner_capacity { vec_capacity lists.new.inner ≡ vec_capacity lists.old.inner }
    ensures words_capacity { vec_capacity lists.new.words ≡ vec_capacity lists.old.words }
{
    lists.inner.push_reserved(sum.col);
    lists.words.push_reserved(sum.word);
}
