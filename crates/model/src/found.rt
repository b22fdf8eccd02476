//! Calls on what their names stand for.
ghost use Rattle.std.specs.Prelude.{◌≡◌, Option};
ghost use Rattle.std.specs.Option.{option_map};
ghost use Rattle.model.specs.Renamed.{found, found_operation, found_out, renamed, renamed_operation, renamed_out};
ghost use Rattle.model.specs.Lent.{operation_lent};

use crate::call::{Call, OneInput, Operation, Out, Region, TwoInputs};

/// What names of a kind stand for.
pub trait Lookup<K> {
    type Found: Drop;

    // What each name stands for, if it stands for something.
    ghost found: { Self → K → Option Self.Found };

    /// What a name stands for; None where it stands for nothing.
    fn find(&self, name: K) -> Option<Self::Found>
        ensures { result ≡ found self.now name };
}

/// An operation on other inputs than its own, as what is known of these. Its lists are lent.
#[derive(Clone, Copy)]
pub enum Lent<'a, K> {
    Fill { value: i128, region: &'a Region },
    OfOne { computes: &'a OneInput, a: K },
    OfTwo { computes: TwoInputs, a: K, b: K },
}

impl<K: Copy, N: Drop> Call<K, N> {
    /// The call on what its names stand for; None where one stands for nothing.
    pub fn found<L: Lookup<K>>(self, names: &L) -> Option<Call<L::Found, N>>
        ensures { result ≡ found (renamed (L.found names.now) (λ name. name) self) }
    {
        let found = match self {
            Call::Create {
                name,
                domain,
                shape,
            } => Call::Create {
                name,
                domain,
                shape,
            },
            Call::Dup { name, object } => Call::Dup {
                name,
                object: names.find(object)?,
            },
            Call::On { object, act } => Call::On {
                object: names.find(object)?,
                act,
            },
            Call::Operate { out, operation } => Call::Operate {
                out: out.found(names)?,
                operation: operation.found(names)?,
            },
        };
        Some(found)
    }
}

impl<K: Copy> Out<K> {
    /// The output on what its names stand for; None where one stands for nothing.
    pub fn found<L: Lookup<K>>(&self, names: &L) -> Option<Out<L::Found>>
        ensures { result ≡ found_out (renamed_out (L.found names.now) self.now) }
    {
        let c = names.find(self.c)?;
        let mask = match self.mask {
            Some(mask) => Some(names.find(mask)?),
            None => None,
        };
        Some(Out {
            c,
            mask,
            accum: self.accum,
            desc: self.desc,
        })
    }
}

impl<K: Copy> Operation<K> {
    /// The operation on what its names stand for; None where one stands for nothing.
    pub fn found<L: Lookup<K>>(self, names: &L) -> Option<Operation<L::Found>>
        ensures { result ≡ found_operation (renamed_operation (L.found names.now) self) }
    {
        match self {
            Operation::Fill { value, region } => Some(Operation::Fill { value, region }),
            Operation::OfOne { computes, a } => {
                let a = names.find(a)?;
                Some(Operation::OfOne { computes, a })
            }
            Operation::OfTwo { computes, a, b } => {
                let a = names.find(a)?;
                let b = names.find(b)?;
                Some(Operation::OfTwo { computes, a, b })
            }
        }
    }

    /// Itself, with the lists lent.
    pub fn as_lent(&self) -> Lent<'_, K>
        ensures { operation_lent result ≡ self.now }
    {
        match self {
            Operation::Fill { value, region } => Lent::Fill {
                value: *value,
                region,
            },
            Operation::OfOne { computes, a } => Lent::OfOne { computes, a: *a },
            Operation::OfTwo { computes, a, b } => Lent::OfTwo {
                computes: *computes,
                a: *a,
                b: *b,
            },
        }
    }

    /// The operation on what its names stand for, with the lists lent; None where one stands for nothing.
    pub fn lent<L: Lookup<K>>(&self, names: &L) -> Option<Lent<'_, L::Found>>
        ensures { option_map operation_lent result ≡ found_operation (renamed_operation (L.found names.now) self.now) }
    {
        match self {
            Operation::Fill { value, region } => Some(Lent::Fill {
                value: *value,
                region,
            }),
            Operation::OfOne { computes, a } => {
                let a = names.find(*a)?;
                Some(Lent::OfOne { computes, a })
            }
            Operation::OfTwo { computes, a, b } => {
                let a = names.find(*a)?;
                let b = names.find(*b)?;
                Some(Lent::OfTwo {
                    computes: *computes,
                    a,
                    b,
                })
            }
        }
    }
}
