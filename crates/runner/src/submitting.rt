//! Accepted operations, which are submitted by their recipes.
ghost use Rattle.std.specs.Prelude.{◌≡◌, IfOk, false, true};
ghost use Rattle.std.specs.Option.{IfSome, option_map};
ghost use Rattle.calls.specs.Recipes.{known_by, known_by_role as known_of_role, known_of, meaning, meaning_of};
ghost use Rattle.calls.specs.Roles.{role_of};
ghost use Rattle.calls.specs.Stores.{object_with};
ghost use Rattle.calls.specs.declared.role.Role.{Role as AnyRole};
ghost use Rattle.calls.specs.declared.role.Role.TheVariants.{Second};
ghost use Rattle.calls.specs.declared.turns.Turns.TheVariants.{Transposed};
ghost use Rattle.calls.specs.Turned.{AreMatrices, turned};
ghost use Rattle.model.specs.Object.{IsObject, is_matrix, transposed_content, transposed_signature};
ghost use Rattle.runner.specs.Tickets.{AreInputs, IsTurned, known_by_role, known_by_ticket, lent};
ghost use Rattle.runner.specs.Tickets.{maps_by};

use crate::runner::Runner;
use calls::{Accepted, Recipe, Roles, Signature, Transpose, Turns, by_role, straight};
use model::NoMemory;
use std::alloc::Global;

/// Takes an accepted operation on, on the objects that tickets stand for. Its inputs are transposed first where a
/// product with a vector doesn't do without. Of a refused operation nothing is asked for any more.
pub fn submit_accepted<R: Runner>(
    alloc: Global,
    runner: &mut R,
    accepted: Box<Accepted>,
    inputs: Roles<&R::Ticket>,
) -> Result<R::Ticket, NoMemory>
    requires inputs { AreInputs R.object_of (known_of_role accepted.value.out accepted.value.operation) inputs }
    ensures object { IfOk result (λ t. R.object_of t ≡ object_with accepted.value.out.c
        (meaning accepted.value.out accepted.value.operation (maps_by R.object_of inputs.entry))) }
    ensures is_object { IfOk result (λ t. IsObject (R.object_of t)) }
{
    if accepted.is_straight() {
        return runner.submit(straight(accepted), inputs);
    }
    submit_turned(alloc, runner, accepted, inputs)
}

/// Submits an accepted operation that may transpose inputs.
fn submit_turned<R: Runner>(
    alloc: Global,
    runner: &mut R,
    accepted: Box<Accepted>,
    inputs: Roles<&R::Ticket>,
) -> Result<R::Ticket, NoMemory>
    requires inputs { AreInputs R.object_of (known_of_role accepted.value.out accepted.value.operation) inputs }
    ensures object { IfOk result (λ t. R.object_of t ≡ object_with accepted.value.out.c
        (meaning accepted.value.out accepted.value.operation (maps_by R.object_of inputs.entry))) }
    ensures is_object { IfOk result (λ t. IsObject (R.object_of t)) }
{
    let known = by_role(&accepted.out, &accepted.operation);
    let (recipe, turns) = Box::into_inner(accepted).into_recipe(alloc)?;
    match turns {
        Turns::Exchanged => runner.submit(recipe, exchanged(inputs)),
        Turns::Transposed { first, second } => {
            submit_transposed(alloc, runner, recipe, known, inputs, first, second)
        }
    }
}

/// The tickets, the two inputs in each other's roles.
fn exchanged<'a, T>(inputs: Roles<&'a T>) -> Roles<&'a T>
    ensures { result ≡ record inputs.entry { first = inputs.entry.second; second = inputs.entry.first } }
{
    Roles {
        first: inputs.second,
        second: inputs.first,
        ..inputs
    }
}

/// Submits a recipe on inputs that are transposed as two flags say.
fn submit_transposed<R: Runner>(
    alloc: Global,
    runner: &mut R,
    recipe: Recipe,
    known: Roles<Signature>,
    inputs: Roles<&R::Ticket>,
    first: bool,
    second: bool,
) -> Result<R::Ticket, NoMemory>
    requires known { AreInputs R.object_of (role_of known) inputs }
    requires matrices { AreMatrices (Transposed first second) (role_of known) }
    requires inputs { (role : AnyRole) → turned (option_map transposed_signature) (Transposed first second)
        (known_by_role R.object_of inputs) role ≡ known_by recipe role }
    ensures object { IfOk result (λ t. R.object_of t ≡ object_with (known_of recipe)
        (meaning_of recipe (turned transposed_content (Transposed first second) (maps_by R.object_of inputs.entry)))) }
    ensures is_object { IfOk result (λ t. IsObject (R.object_of t)) }
{
    let made = transposed_if(alloc, runner, known.first, inputs.first, first)?;
    let turned = Roles {
        first: lent(&made, inputs.first),
        ..inputs
    };
    let submitted = submit_second_transposed(alloc, runner, recipe, known.second, turned, second);
    let_go(runner, made);
    submitted
}

/// Submits a recipe on inputs of which the second is transposed where a flag says so.
fn submit_second_transposed<R: Runner>(
    alloc: Global,
    runner: &mut R,
    recipe: Recipe,
    known: Option<Signature>,
    inputs: Roles<&R::Ticket>,
    second: bool,
) -> Result<R::Ticket, NoMemory>
    requires known { known_by_role R.object_of inputs Second ≡ known }
    requires matrix { second ≡ true → IfSome known (λ of. is_matrix of.shape ≡ true) }
    requires inputs { (role : AnyRole) → turned (option_map transposed_signature) (Transposed false second)
        (known_by_role R.object_of inputs) role ≡ known_by recipe role }
    ensures object { IfOk result (λ t. R.object_of t ≡ object_with (known_of recipe)
        (meaning_of recipe (turned transposed_content (Transposed false second) (maps_by R.object_of inputs.entry)))) }
    ensures is_object { IfOk result (λ t. IsObject (R.object_of t)) }
{
    let made = transposed_if(alloc, runner, known, inputs.second, second)?;
    let turned = Roles {
        second: lent(&made, inputs.second),
        ..inputs
    };
    let submitted = runner.submit(recipe, turned);
    let_go(runner, made);
    submitted
}

/// A ticket for the transpose of a ticket's matrix, where there is one and a flag asks for it.
fn transposed_if<R: Runner>(
    alloc: Global,
    runner: &mut R,
    known: Option<Signature>,
    input: Option<&R::Ticket>,
    flag: bool,
) -> Result<Option<R::Ticket>, NoMemory>
    requires known { known_by_ticket R.object_of (option_map (λ t. t.now) input) ≡ known }
    requires matrix { flag ≡ true → IfSome known (λ of. is_matrix of.shape ≡ true) }
    ensures turned { IfOk result (λ made. IsTurned R.object_of flag (option_map (λ t. t.now) input.entry)
        (lent made (option_map (λ t. t.now) input.entry))) }
{
    match (known, input) {
        (Some(of), Some(input)) if flag => {
            let inputs = Roles {
                first: Some(input),
                ..Roles::none()
            };
            let transpose = Box::new(alloc, Transpose { of })?;
            Ok(Some(runner.submit(Recipe::Transposed(transpose), inputs)?))
        }
        _ => Ok(None),
    }
}

/// A ticket that was made, or, where none was, the one that was there.
fn lent<'a, T>(made: &'a Option<T>, input: Option<&'a T>) -> Option<&'a T>
    ensures { option_map (λ t. t.now) result ≡ lent made.now (option_map (λ t. t.now) input.entry) }
{
    match made {
        Some(made) => Some(made),
        None => input,
    }
}

/// Takes a ticket back, where there is one.
fn let_go<R: Runner>(runner: &mut R, ticket: Option<R::Ticket>) {
    if let Some(ticket) = ticket {
        runner.let_go(ticket);
    }
}
