//! The faults of calls, by the order of the checks.
ghost use Rattle.std.specs.Prelude.{◌≡◌, IfOk, None, is_none, not};
ghost use Rattle.model.specs.Fault.{call_fails, early_fault, fault_by_values, is_implemented, operation_fails};
ghost use Rattle.model.specs.Fault.{takes_name, test_fails};
ghost use Rattle.model.specs.Object.{signature_of};
ghost use Rattle.model.specs.Renamed.{found, renamed_operation, renamed_out};
ghost use Rattle.model.specs.Run.{seen};
ghost use Rattle.plain.specs.Environments.{environment_of, fault_in, found_in, known_at, known_in, named};
ghost use Rattle.plain.specs.Environments.{operation_in, out_in};

use crate::acts::{act_fails, late_fault};
use crate::environment::PlainEnvironment;
use algebra::compatible;
use model::{Call, Lookup, MOST_FILLED, MOST_OBJECTS, Operation, Out, Signature, Status};
use std::alloc::{AllocError, Global};

/// The order of the checks.
const ORDER: [Status; 11] = [
    Status::NameTaken,
    Status::UninitializedObject,
    Status::WrongKind,
    Status::NoFile,
    Status::BadFile,
    Status::NotImplemented,
    Status::DomainMismatch,
    Status::DimensionMismatch,
    Status::InvalidIndex,
    Status::IndexOutOfBounds,
    Status::InvalidValue,
];

/// What is known of what names stand for.
#[derive(Clone, Copy)]
struct Signatures<'a>(&'a PlainEnvironment);

impl<'a> Lookup<&'a str> for Signatures<'_> {
    type Found = Signature;

    ghost found = { λ signatures name. known_at signatures.0.now name.now };

    fn find(&self, name: &'a str) -> Option<Signature> {
        let object = self.0.find(name)?;
        Some(Signature {
            domain: object.domain,
            shape: object.shape,
        })
    }
}

impl PlainEnvironment {
    /// The fault of a call, if it has one.
    pub(crate) fn fault(
        &self,
        alloc: Global,
        call: &Call<&str, &str>,
    ) -> Result<Option<Status>, AllocError>
        ensures { IfOk result (λ fault. fault ≡ fault_in self.now (named call.now)) }
    {
        match self.early_fault(call) {
            Some(status) => Ok(Some(status)),
            None => self.late_fault(alloc, call),
        }
    }

    /// The first of the order whose test fails.
    #[tactic(auto, unfolding(model::specs::Fault::early_fault))]
    fn early_fault(&self, call: &Call<&str, &str>) -> Option<Status>
        ensures { result ≡ early_fault self.now.live (found_in self.now (named call.now)) }
    {
        ORDER
            .iter()
            .copied()
            .find(|status| self.fails(call, *status))
    }

    /// Whether a call fails a test. Those on objects are made where all are there.
    fn fails(&self, call: &Call<&str, &str>, status: Status) -> bool
        ensures { result ≡ call_fails self.now.live (found_in self.now (named call.now)) status }
    {
        match status {
            Status::NameTaken => self.takes_name(call),
            Status::UninitializedObject => !self.are_there(call),
            _ => self.are_there(call) && self.fails_on_objects(call, status),
        }
    }

    /// Whether a call makes an object under a name that is taken.
    fn takes_name(&self, call: &Call<&str, &str>) -> bool
        ensures { result ≡ takes_name (found_in self.now (named call.now)) }
    {
        match call {
            Call::Create { name, .. } | Call::Dup { name, .. } => self.find(name).is_some(),
            Call::On { .. } | Call::Operate { .. } => false,
        }
    }

    /// Whether each object that a call names is there.
    fn are_there(&self, call: &Call<&str, &str>) -> bool
        ensures { not result ≡ is_none (found (found_in self.now (named call.now))) }
    {
        match call {
            Call::Create { .. } => true,
            Call::Dup { object, .. } | Call::On { object, .. } => self.find(object).is_some(),
            Call::Operate { out, operation } => {
                out.found(&Signatures(self)).is_some()
                    && operation.lent(&Signatures(self)).is_some()
            }
        }
    }

    /// Whether a call fails a test on the objects that its names stand for.
    fn fails_on_objects(&self, call: &Call<&str, &str>, status: Status) -> bool
        ensures { result ≡ test_fails self.now.live (known_in self.now (named call.now)) status }
    {
        match (call, status) {
            (Call::Create { .. } | Call::Dup { .. }, Status::NotImplemented) => {
                self.live >= MOST_OBJECTS
            }
            (Call::Create { shape, .. }, Status::InvalidValue) => !shape.is_allowed(),
            (Call::On { object, act }, _) => act_fails(self.signature(object), act, status),
            (Call::Operate { out, operation }, _) => self.operation_fails(out, operation, status),
            _ => false,
        }
    }

    /// Whether an operation fails a test.
    fn operation_fails(&self, out: &Out<&str>, operation: &Operation<&str>, status: Status) -> bool
        ensures { result ≡ operation_fails (renamed_out signature_of (out_in self.now out.now))
            (renamed_operation signature_of (operation_in self.now operation.now)) status }
    {
        let out = self.known(out);
        let plan = self.plan(out.c, out.desc, operation);
        match status {
            Status::NotImplemented => !self.is_implemented(&out, operation),
            Status::WrongKind => {
                !plan.kinds || !plan.shape.is_like(out.c.shape) || !out.mask_is_of_kind()
            }
            Status::DomainMismatch => {
                !out.mask_serves() || !plan.compatible || !compatible(plan.domain, out.c.domain)
            }
            Status::DimensionMismatch => {
                !out.mask_fits() || !plan.shape.is_same(out.c.shape) || !plan.fits
            }
            Status::IndexOutOfBounds => !plan.inside,
            Status::InvalidValue => !plan.values,
            _ => false,
        }
    }

    /// What is known of the objects of an output.
    fn known(&self, out: &Out<&str>) -> Out<Signature>
        ensures { result ≡ renamed_out signature_of (out_in self.now out.now) }
    {
        let mask = match out.mask {
            Some(mask) => Some(self.signature(mask)),
            None => None,
        };
        Out {
            c: self.signature(out.c),
            mask,
            accum: out.accum,
            desc: out.desc,
        }
    }

    /// Whether all operators are there, and no more positions are filled than may be.
    fn is_implemented(&self, out: &Out<Signature>, operation: &Operation<&str>) -> bool
        ensures { result
            ≡ is_implemented out.now (renamed_operation signature_of (operation_in self.now operation.now)) }
    {
        let is_offered = match operation {
            Operation::Fill { region, .. } => {
                region.positions_in(out.c.shape) <= MOST_FILLED as u128
            }
            Operation::OfOne { computes, .. } => computes.is_offered(),
            Operation::OfTwo { computes, .. } => computes.is_offered(),
        };
        is_offered && out.accumulator_serves()
    }

    /// The fault that depends on values, of a call whose objects are there.
    fn late_fault(
        &self,
        alloc: Global,
        call: &Call<&str, &str>,
    ) -> Result<Option<Status>, AllocError>
        requires { early_fault self.now.live (found_in self.now (named call.now)) ≡ None }
        ensures { IfOk result (λ fault.
            fault ≡ fault_by_values (seen (environment_of self.now) (named call.now))) }
    {
        match call {
            Call::On { object, act } => late_fault(alloc, act, self.object(object)),
            _ => Ok(None),
        }
    }
}
