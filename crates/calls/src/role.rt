//! The roles that an operation's objects have in it.
ghost use Rattle.std.specs.Prelude.{◌≡◌, ◌||◌, Some, is_some};
ghost use Rattle.calls.specs.Roles.{lent_roles, no_roles, roles_of};
ghost use Rattle.model.specs.declared.call.Operation.TheVariants.{OfTwo};
ghost use Rattle.model.specs.declared.call.TwoInputs.{TwoInputs};
ghost use Rattle.model.specs.WriteBack.{reads_old};

use model::{Operation, Out};

/// Which of an operation's objects one is.
#[derive(Clone, Copy)]
pub enum Role {
    /// The output, with what it has before the call.
    Old,
    Mask,
    First,
    Second,
}

/// What takes each role; None where nothing does.
#[derive(Clone, Copy)]
pub struct Roles<T> {
    pub old: Option<T>,
    pub mask: Option<T>,
    pub first: Option<T>,
    pub second: Option<T>,
}

impl<T> Roles<T> {
    /// Nothing takes a role.
    pub fn none() -> Roles<T>
        ensures { result ≡ no_roles }
    {
        Roles {
            old: None,
            mask: None,
            first: None,
            second: None,
        }
    }

    /// What takes the role of the old content, and no other.
    pub fn of_old(old: T) -> Roles<T>
        ensures { result ≡ record no_roles { old = Some old } }
    {
        Roles {
            old: Some(old),
            mask: None,
            first: None,
            second: None,
        }
    }
}

/// The objects of an operation that are read, by their roles: the output is one where what it has is read.
pub fn by_role<K: Copy>(out: &Out<K>, operation: &Operation<K>) -> Roles<K>
    ensures { result ≡ roles_of out.now operation.now }
{
    let lent = lent_by_role(out, operation);
    Roles {
        old: lent.old.copied(),
        mask: lent.mask.copied(),
        first: lent.first.copied(),
        second: lent.second.copied(),
    }
}

/// The same, lent. It is inlined, since most who ask for the roles look at one after the other.
#[inline(always)]
pub fn lent_by_role<'a, K: Copy>(out: &'a Out<K>, operation: &'a Operation<K>) -> Roles<&'a K>
    ensures { lent_roles result ≡ roles_of out.now operation.now }
{
    let (first, second) = match operation {
        Operation::Fill { .. } => (None, None),
        Operation::OfOne { a, .. } => (Some(a), None),
        Operation::OfTwo { a, b, .. } => (Some(a), Some(b)),
    };
    let old = if reads_old(out, operation) {
        Some(&out.c)
    } else {
        None
    };
    Roles {
        old,
        mask: out.mask.as_ref(),
        first,
        second,
    }
}

/// The same of an operation of two inputs.
pub fn by_role_of_two<K: Copy>(out: &Out<K>, a: K, b: K) -> Roles<K>
    ensures { (computes : TwoInputs) → result ≡ roles_of out.now (OfTwo computes a b) }
{
    let old = if combines_with_old(out) {
        Some(out.c)
    } else {
        None
    };
    Roles {
        old,
        mask: out.mask,
        first: Some(a),
        second: Some(b),
    }
}

/// Whether an operation reads what its output has before it.
fn reads_old<K: Copy>(out: &Out<K>, operation: &Operation<K>) -> bool
    ensures { result ≡ reads_old out.now operation.now }
{
    combines_with_old(out) || operation.as_lent().region_written().is_some()
}

/// Whether it does for what says where its values go: a mask, whose complement may be meant, or an accumulator.
fn combines_with_old<K: Copy>(out: &Out<K>) -> bool
    ensures { result ≡ (is_some out.now.mask || out.now.desc.complement || is_some out.now.accum) }
{
    out.mask.is_some() || out.desc.complement || out.accum.is_some()
}
