//! Operations on the objects of a session.
ghost use Rattle.std.specs.Prelude.{◌≡◌, IfOk, IfSome, None, Some, false, is_some, not, true};
ghost use Rattle.std.specs.Option.{option_map};
ghost use Rattle.calls.specs.declared.obj.Obj.{Obj as AnyObj};
ghost use Rattle.calls.specs.declared.role.Role.{Role as AnyRole};
ghost use Rattle.calls.specs.Recipes.{IsAcceptedOf, known_by_role, meaning};
ghost use Rattle.calls.specs.Roles.{role_of, roles_of};
ghost use Rattle.calls.specs.Stores.{object_with};
ghost use Rattle.model.specs.declared.call.Call.TheVariants.{Operate};
ghost use Rattle.model.specs.declared.call.Out.{Out as AnyOut};
ghost use Rattle.model.specs.Marks.{told};
ghost use Rattle.model.specs.Run.{object_at};
ghost use Rattle.objects.specs.Tables.{state_in};
ghost use Rattle.runner.specs.Tickets.{lent_in};
ghost use Rattle.session.specs.Deferred.{AreReadyAt, AreThere, IsPutOff, any_told, is_role_told, maps_at};

use crate::sessions::Session;
use algebra::{FunctionName, IndexName, MonoidName, OpName, SemiringName};
use calls::{
    Accepted, Form, Obj, OneInput, Operation, Out, Positions, Region, Roles, TwoInputs, by_role,
    by_role_of_two, check_operate, check_two,
};
use model::{NoMemory, Status};
use objects::{Table, Value, ready_ticket};
use runner::{Runner, submit_accepted};

impl<R: Runner + Drop> Session<R> {
    ghost use Rattle.session.specs.Performed.{AreReady, IsPerformed, early_in, environment_of, is_ready_in, known_in};
    ghost use Rattle.session.specs.Performed.{made_in, state_of};

    /// Multiplies two matrices over a semiring into a third (`GrB_mxm`).
    pub fn mxm(
        &mut self,
        out: &Out<Obj>,
        semiring: SemiringName,
        a: Obj,
        b: Obj,
    ) -> Result<(), Status>
        ensures { IsPerformed self.old self.new (Operate out.now
            (Operation.OfTwo (TwoInputs.Multiply Form.MatrixMatrix semiring) a b)) result }
    {
        let form = Form::MatrixMatrix;
        self.of_two(out, TwoInputs::Multiply { form, semiring }, a, b)
    }

    /// Multiplies a matrix and a vector over a semiring into a vector (`GrB_mxv`).
    pub fn mxv(
        &mut self,
        out: &Out<Obj>,
        semiring: SemiringName,
        a: Obj,
        u: Obj,
    ) -> Result<(), Status>
        ensures { IsPerformed self.old self.new (Operate out.now
            (Operation.OfTwo (TwoInputs.Multiply Form.MatrixVector semiring) a u)) result }
    {
        let form = Form::MatrixVector;
        self.of_two(out, TwoInputs::Multiply { form, semiring }, a, u)
    }

    /// Multiplies a vector and a matrix over a semiring into a vector (`GrB_vxm`).
    pub fn vxm(
        &mut self,
        out: &Out<Obj>,
        semiring: SemiringName,
        u: Obj,
        a: Obj,
    ) -> Result<(), Status>
        ensures { IsPerformed self.old self.new (Operate out.now
            (Operation.OfTwo (TwoInputs.Multiply Form.VectorMatrix semiring) u a)) result }
    {
        let form = Form::VectorMatrix;
        self.of_two(out, TwoInputs::Multiply { form, semiring }, u, a)
    }

    /// An operator's answers where either of two inputs has a value, of one alone its own value
    /// (`GrB_eWiseAdd`).
    pub fn ewise_add(&mut self, out: &Out<Obj>, op: OpName, a: Obj, b: Obj) -> Result<(), Status>
        ensures { IsPerformed self.old self.new (Operate out.now
            (Operation.OfTwo (TwoInputs.Combine Positions.Union op) a b)) result }
    {
        let positions = Positions::Union;
        self.of_two(out, TwoInputs::Combine { positions, op }, a, b)
    }

    /// An operator's answers where two inputs have a value (`GrB_eWiseMult`).
    pub fn ewise_mult(&mut self, out: &Out<Obj>, op: OpName, a: Obj, b: Obj) -> Result<(), Status>
        ensures { IsPerformed self.old self.new (Operate out.now
            (Operation.OfTwo (TwoInputs.Combine Positions.Intersection op) a b)) result }
    {
        let positions = Positions::Intersection;
        self.of_two(out, TwoInputs::Combine { positions, op }, a, b)
    }

    /// A function of each value (`GrB_apply`).
    pub fn apply(&mut self, out: &Out<Obj>, function: FunctionName, a: Obj) -> Result<(), Status>
        ensures { IsPerformed self.old self.new
            (Operate out.now (Operation.OfOne (OneInput.Apply function) a)) result }
    {
        self.of_one(out, OneInput::Apply(function), a)
    }

    /// A binary operator of a plain value and each value (`GrB_apply`, bound first).
    pub fn apply_first(
        &mut self,
        out: &Out<Obj>,
        op: OpName,
        value: i128,
        a: Obj,
    ) -> Result<(), Status>
        ensures { IsPerformed self.old self.new
            (Operate out.now (Operation.OfOne (OneInput.Apply (FunctionName.First op value)) a)) result }
    {
        self.apply(out, FunctionName::First { op, value }, a)
    }

    /// A binary operator of each value and a plain value (`GrB_apply`, bound second).
    pub fn apply_second(
        &mut self,
        out: &Out<Obj>,
        op: OpName,
        a: Obj,
        value: i128,
    ) -> Result<(), Status>
        ensures { IsPerformed self.old self.new
            (Operate out.now (Operation.OfOne (OneInput.Apply (FunctionName.Second op value)) a)) result }
    {
        self.apply(out, FunctionName::Second { op, value }, a)
    }

    /// An index operator of each value, its position and a plain value (`GrB_apply` with
    /// `GrB_IndexUnaryOp`).
    pub fn apply_index(
        &mut self,
        out: &Out<Obj>,
        op: IndexName,
        a: Obj,
        scalar: i128,
    ) -> Result<(), Status>
        ensures { IsPerformed self.old self.new
            (Operate out.now (Operation.OfOne (OneInput.Apply (FunctionName.Index op scalar)) a)) result }
    {
        self.apply(out, FunctionName::Index { op, scalar }, a)
    }

    /// The entries for which an index operator's answer is true (`GrB_select`).
    pub fn select(
        &mut self,
        out: &Out<Obj>,
        op: IndexName,
        a: Obj,
        scalar: i128,
    ) -> Result<(), Status>
        ensures { IsPerformed self.old self.new
            (Operate out.now (Operation.OfOne (OneInput.Select op scalar) a)) result }
    {
        self.of_one(out, OneInput::Select { op, scalar }, a)
    }

    /// The sum of each row of a matrix, into a vector (`GrB_reduce`).
    pub fn reduce_rows(&mut self, out: &Out<Obj>, monoid: MonoidName, a: Obj) -> Result<(), Status>
        ensures { IsPerformed self.old self.new
            (Operate out.now (Operation.OfOne (OneInput.ReduceRows monoid) a)) result }
    {
        self.of_one(out, OneInput::ReduceRows(monoid), a)
    }

    /// Transposes a matrix (`GrB_transpose`).
    pub fn transpose(&mut self, out: &Out<Obj>, a: Obj) -> Result<(), Status>
        ensures { IsPerformed self.old self.new
            (Operate out.now (Operation.OfOne OneInput.Transpose a)) result }
    {
        self.of_one(out, OneInput::Transpose, a)
    }

    /// The entries at lists of rows and columns, in the order of the lists (`GrB_extract`).
    pub fn extract(&mut self, out: &Out<Obj>, a: Obj, region: Region) -> Result<(), Status>
        ensures { IsPerformed self.old self.new
            (Operate out.now (Operation.OfOne (OneInput.Extract region) a)) result }
    {
        self.of_one(out, OneInput::Extract(region), a)
    }

    /// Puts entries at lists of rows and columns of the output (`GrB_assign`).
    pub fn assign(&mut self, out: &Out<Obj>, a: Obj, region: Region) -> Result<(), Status>
        ensures { IsPerformed self.old self.new
            (Operate out.now (Operation.OfOne (OneInput.Assign region) a)) result }
    {
        self.of_one(out, OneInput::Assign(region), a)
    }

    /// Puts a value at each position of lists of rows and columns of the output (`GrB_assign` of a
    /// constant).
    pub fn fill(&mut self, out: &Out<Obj>, value: i128, region: Region) -> Result<(), Status>
        ensures { IsPerformed self.old self.new
            (Operate out.now (Operation.Fill value region)) result }
    {
        self.operate(out, Operation::Fill { value, region })
    }

    /// Computes an operation on one input.
    fn of_one(&mut self, out: &Out<Obj>, computes: OneInput, a: Obj) -> Result<(), Status>
        ensures { IsPerformed self.old self.new (Operate out.now (Operation.OfOne computes a)) result }
    {
        self.operate(out, Operation::OfOne { computes, a })
    }

    /// Computes an operation on two inputs.
    #[inline(never)]
    pub fn of_two(
        &mut self,
        out: &Out<Obj>,
        computes: TwoInputs,
        a: Obj,
        b: Obj,
    ) -> Result<(), Status>
        ensures { IsPerformed self.old self.new (Operate out.now (Operation.OfTwo computes a b)) result }
    {
        let objects = by_role_of_two(out, a, b);
        let accepted = check_two(self, out, computes, a, b)?;
        let accepted = Box::new(self.alloc, accepted)?;
        self.write(out.c, accepted, &objects)
    }

    /// Computes an operation, and writes it into its output. The same object may be output, mask and
    /// input: all inputs are as they were before the call.
    pub fn operate(&mut self, out: &Out<Obj>, operation: Operation<Obj>) -> Result<(), Status>
        ensures { IsPerformed self.old self.new (Operate out.now operation) result }
    {
        let objects = by_role(out, &operation);
        let accepted = check_operate(self, out, operation)?;
        let accepted = Box::new(self.alloc, accepted)?;
        self.write(out.c, accepted, &objects)
    }

    /// Writes into an object what an accepted operation leaves of the objects that have its roles.
    fn write(&mut self, c: Obj, accepted: Box<Accepted>, objects: &Roles<Obj>) -> Result<(), Status>
        requires known { (role : AnyRole)
            → option_map Some (known_by_role accepted.value.out accepted.value.operation role)
            ≡ option_map (known_in self.old) (role_of objects.now role) }
        requires there { is_some ((environment_of self.old).find_object c) ≡ true }
        ensures { (out : AnyOut AnyObj) (operation : Operation AnyObj) → out.c ≡ c
            → objects.now ≡ roles_of out operation → early_in self.old (Operate out operation) ≡ None
            → IsAcceptedOf (known_in self.old) out operation accepted.value
            → IsPerformed self.old self.new (Operate out operation) result }
    {
        let of = accepted.out.c;
        self.begin()?;
        let value = self.computed(accepted, objects)?;
        self.put(c, of, value);
        Ok(())
    }

    /// The value of what an accepted operation leaves of the objects that have its roles.
    fn computed(
        &mut self,
        accepted: Box<Accepted>,
        objects: &Roles<Obj>,
    ) -> Result<Value<R::Ticket>, NoMemory>
        requires known { (role : AnyRole)
            → option_map Some (known_by_role accepted.value.out accepted.value.operation role)
            ≡ option_map (known_in self.old) (role_of objects.now role) }
        ensures value { IfOk result (IsPutOff R.object_of (any_told (state_of self.old) objects.now)
            (object_with accepted.value.out.c
            (meaning accepted.value.out accepted.value.operation (maps_at (environment_of self.old) objects.now)))) }
        ensures state { state_of self.new ≡ state_of self.old }
        ensures made { made_in self.new ≡ made_in self.old }
    {
        let Some(tickets) = tickets_of(&self.table, objects) else {
            return self.computed_of_given(accepted, objects);
        };
        let computed = submit_accepted(self.alloc, &mut self.runner, accepted, tickets)?;
        Ok(Value::Open(computed))
    }

    /// The same, where tickets may have to be given first.
    fn computed_of_given(
        &mut self,
        accepted: Box<Accepted>,
        objects: &Roles<Obj>,
    ) -> Result<Value<R::Ticket>, NoMemory>
        requires known { (role : AnyRole)
            → option_map Some (known_by_role accepted.value.out accepted.value.operation role)
            ≡ option_map (known_in self.old) (role_of objects.now role) }
        ensures value { IfOk result (IsPutOff R.object_of (any_told (state_of self.old) objects.now)
            (object_with accepted.value.out.c
            (meaning accepted.value.out accepted.value.operation (maps_at (environment_of self.old) objects.now)))) }
        ensures state { state_of self.new ≡ state_of self.old }
        ensures made { made_in self.new ≡ made_in self.old }
    {
        if !self.give_all(objects)? {
            return Ok(Value::Failed);
        }
        let Some(tickets) = tickets_of(&self.table, objects) else {
            unreachable!()
        };
        let computed = submit_accepted(self.alloc, &mut self.runner, accepted, tickets)?;
        Ok(Value::Open(computed))
    }

    /// Has tickets stand for the objects that have roles, and says whether they do: they don't where one was told to
    /// have failed.
    fn give_all(&mut self, objects: &Roles<Obj>) -> Result<bool, NoMemory>
        requires there { (role : AnyRole) → AreThere (environment_of self.old) (role_of objects.now role) }
        ensures state { state_of self.new ≡ state_of self.old }
        ensures made { made_in self.new ≡ made_in self.old }
        ensures given { IfOk result (λ given. given ≡ not (any_told (state_of self.old) objects.now)) }
        ensures ready { IfOk result (λ given. given ≡ true
            → (role : AnyRole) → AreReady self.new (role_of objects.now role)) }
    {
        let old = self.give_if(objects.old)?;
        let mask = self.give_if(objects.mask)?;
        let first = self.give_if(objects.first)?;
        let second = self.give_if(objects.second)?;
        Ok(old & mask & first & second)
    }

    /// Has a ticket stand for an object, where there is one in a role.
    fn give_if(&mut self, object: Option<Obj>) -> Result<bool, NoMemory>
        requires there { AreThere (environment_of self.old) object }
        ensures state { state_of self.new ≡ state_of self.old }
        ensures made { made_in self.new ≡ made_in self.old }
        ensures given { IfOk result (λ given. given ≡ not (is_role_told (state_of self.old) object)) }
        ensures ready { IfOk result (λ given. given ≡ true → AreReady self.new object) }
        ensures still { (other : AnyObj) → is_ready_in self.old other ≡ true → is_ready_in self.new other ≡ true }
    {
        match object {
            Some(object) => self.give(object),
            None => Ok(true),
        }
    }
}

/// The tickets that stand for the objects that have roles; None where none stands for one of them.
fn tickets_of<'a, R: Runner>(
    table: &'a Table<R>,
    objects: &Roles<Obj>,
) -> Option<Roles<&'a R::Ticket>>
    ensures tickets { IfSome result (λ tickets. (role : AnyRole) → option_map R.object_of (lent_in tickets role)
        ≡ option_map (object_at (state_in table.now).environment) (role_of objects.now role)) }
    ensures untold { is_some result ≡ true → any_told (state_in table.now) objects.now ≡ false }
    ensures ready { ((role : AnyRole) → AreReadyAt table.now (role_of objects.now role)) → is_some result ≡ true }
{
    Some(Roles {
        old: ticket_if(table, objects.old)?,
        mask: ticket_if(table, objects.mask)?,
        first: ticket_if(table, objects.first)?,
        second: ticket_if(table, objects.second)?,
    })
}

/// The ticket that stands for an object, where there is one in a role; None where none does.
fn ticket_if<R: Runner>(table: &Table<R>, object: Option<Obj>) -> Option<Option<&R::Ticket>>
    ensures ticket { IfSome result (λ ticket. option_map (λ t. R.object_of t.now) ticket
        ≡ option_map (object_at (state_in table.now).environment) object) }
    ensures untold { is_some result ≡ true → is_role_told (state_in table.now) object ≡ false }
    ensures ready { AreReadyAt table.now object → is_some result ≡ true }
{
    match object {
        Some(object) => Some(Some(ready_ticket(table, object)?)),
        None => Some(None),
    }
}
