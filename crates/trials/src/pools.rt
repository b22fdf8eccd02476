//! Pools whose pieces of work are held at a gate, and whose workers are woken for any work.
ghost use Rattle.std.specs.Prelude.{◌≡◌, ◌≢◌, IfOk, None, Some};
ghost use Rattle.algebra.specs.declared.domain.Domain.TheVariants.{Int64};
ghost use Rattle.calls.specs.Recipes.{known_by, known_of};
ghost use Rattle.calls.specs.Stores.{IsStoreOf};
ghost use Rattle.calls.specs.declared.role.Role.{Role as AnyRole};
ghost use Rattle.calls.specs.declared.role.Role.TheVariants.{First, Old};
ghost use Rattle.model.specs.Object.{signature_of};
ghost use Rattle.model.specs.declared.shape.Shape.TheVariants.{Two};

use crate::gates::{Holding, Sign, Signs};
use algebra::{Domain, FunctionName, UnaryKind, UnaryName};
use calls::{
    Accepted, Desc, Given, OneInput, Operation, Out, Recipe, Resize, Roles, Shape, Signature,
    straight,
};
use desk::Order;
use journal::{Log, Naming};
use pool::Pool;
use runner::Runner;
use std::alloc::{AllocError, Global};
use std::marker::Brand;
use std::sync::atomic::Ordering::SeqCst;
use std::sync::{Arc, Wait};
use std::thread;
use std::thread::Threads;
use std::time::{Clock, Duration};
use store::{Form, Store};

/// How often a piece that is held looks again, and then gives up.
const TURNS: u64 = 10_000;

/// How many tasks there are.
const TASKS: u64 = 200;

/// How many workers there are.
const WORKERS: u64 = 2;

/// How many rows the large matrix has, each with one entry: enough for its task to be cut.
const ROWS: u64 = 402_000;

/// How many columns it has: so many that its store is no bitmap.
const COLS: u64 = 1_000;

/// How many pieces its task is cut into, however many threads there are: each has as many rows at least.
const PIECES: u64 = 3;

// A recipe that makes a vector without entries.
fn recipe(alloc: Global) -> Result<Recipe, AllocError>
    ensures { IfOk result (λ recipe. (role : AnyRole) → known_by recipe role ≡ None) }
{
    let of = Signature {
        domain: Domain::Int64,
        shape: Shape::One(4),
    };
    Ok(Recipe::New(Box::new(alloc, of)?))
}

// The large matrix.
fn large(alloc: Global) -> Result<Box<Given>, AllocError>
    ensures domain { IfOk result (λ given. given.value.of.domain ≡ Int64) }
    ensures shape { IfOk result (λ given. given.value.of.shape ≡ Two ROWS COLS) }
{
    let store = Arc::new(alloc, filled(alloc)?)?;
    Ok(Box::new(
        alloc,
        Given {
            of: large_signature(),
            store,
        },
    )?)
}

// Its store.
#[tactic(auto, using(crate::proofs::PoolLaws::new_is, crate::proofs::PoolLaws::set_is))]
fn filled(alloc: Global) -> Result<Store, AllocError>
    ensures { IfOk result (IsStoreOf (record { domain = Int64; shape = Two ROWS COLS })) }
{
    let mut store = Store::new(alloc, ROWS, COLS);
    for row in 0..ROWS {
        store.set(row, 0, 1).map_err(|_| AllocError)?;
    }
    Ok(store)
}

// What is known of it.
fn large_signature() -> Signature
    ensures { result ≡ record { domain = Int64; shape = Two ROWS COLS } }
{
    Signature {
        domain: Domain::Int64,
        shape: Shape::Two(ROWS, COLS),
    }
}

// A recipe that takes its entries as they are.
fn taken_over(alloc: Global) -> Result<Recipe, AllocError>
    ensures of { IfOk result (λ recipe. known_of recipe ≡ record { domain = Int64; shape = Two ROWS COLS }) }
    ensures first { IfOk result (λ recipe. known_by recipe First
        ≡ Some (record { domain = Int64; shape = Two ROWS COLS })) }
    ensures others { IfOk result (λ recipe. (role : AnyRole) → role ≢ First → known_by recipe role ≡ None) }
{
    let of = large_signature();
    let out = Out {
        c: of,
        mask: None,
        accum: None,
        desc: Desc {
            replace: false,
            structure: false,
            complement: false,
            transpose_first: false,
            transpose_second: false,
        },
    };
    let identity = UnaryName {
        kind: UnaryKind::Identity,
        domain: Domain::Int64,
    };
    let operation = Operation::OfOne {
        computes: OneInput::Apply(FunctionName::Unary(identity)),
        a: of,
    };
    let accepted = Box::new(alloc, Accepted { out, operation })?;
    Ok(straight(accepted))
}

// A recipe that gives it the shape that it has, for which all of it is read.
fn resized(alloc: Global) -> Result<Recipe, AllocError>
    ensures old { IfOk result (λ recipe. known_by recipe Old
        ≡ Some (record { domain = Int64; shape = Two ROWS COLS })) }
    ensures others { IfOk result (λ recipe. (role : AnyRole) → role ≢ Old → known_by recipe role ≡ None) }
{
    let of = large_signature();
    let shape = of.shape;
    Ok(Recipe::Resized(Box::new(alloc, Resize { of, shape })?))
}

// A ticket of a copy of the large matrix, whose task is cut.
fn large_ticket<R: Runner>(alloc: Global, runner: &mut R) -> Result<R::Ticket, AllocError>
    ensures { IfOk result (λ ticket. signature_of (R.object_of ticket)
        ≡ record { domain = Int64; shape = Two ROWS COLS }) }
{
    let given = Recipe::Given(large(alloc)?);
    let first = runner.submit(given, Roles::none()).map_err(|_| AllocError)?;
    let inputs = Roles {
        first: Some(&first),
        ..Roles::none()
    };
    let ticket = runner
        .submit(taken_over(alloc)?, inputs)
        .map_err(|_| AllocError)?;
    runner.let_go(first);
    Ok(ticket)
}

// Whether the copy has all entries.
fn is_copied<R: Runner>(alloc: Global, runner: &mut R) -> Result<bool, AllocError> {
    let ticket = large_ticket(alloc, runner)?;
    match runner.fetch(&ticket) {
        Ok(store) => Ok(store.nvals() == ROWS),
        Err(_) => Ok(false),
    }
}

// Whether the lists of the copy's pieces stay apart where a task reads it row by row, until one is to read all of it.
fn is_united<R: Runner>(alloc: Global, runner: &mut R) -> Result<bool, AllocError> {
    let ticket = large_ticket(alloc, runner)?;
    let by_rows = Roles {
        first: Some(&ticket),
        ..Roles::none()
    };
    let copy = runner
        .submit(taken_over(alloc)?, by_rows)
        .map_err(|_| AllocError)?;
    let copied = runner.fetch(&copy).is_ok_and(|store| is_apart(&store));
    let apart = runner.fetch(&ticket).is_ok_and(|store| is_apart(&store));
    let reader = runner
        .submit(resized(alloc)?, Roles::of_old(&ticket))
        .map_err(|_| AllocError)?;
    let Ok(lists) = runner.fetch(&ticket) else {
        return Ok(false);
    };
    let whole = runner
        .fetch(&reader)
        .is_ok_and(|store| store.nvals() == ROWS);
    let together = matches!(lists.form(), Form::Sparse(_));
    Ok(copied && apart && together && whole && lists.nvals() == ROWS)
}

// Whether a store has the entries of the large matrix, in several lists.
fn is_apart(store: &Store) -> bool {
    matches!(store.form(), Form::Blocks(_)) && store.nvals() == ROWS
}

// Tickets of vectors without entries, each of which is counted once its submission has returned.
fn tickets<R: Runner>(
    alloc: Global,
    runner: &mut R,
    signs: &Signs,
) -> Result<Vec<R::Ticket>, AllocError> {
    let mut tickets = Vec::new(alloc);
    for _ in 0..TASKS {
        let ticket = runner
            .submit(recipe(alloc)?, Roles::none())
            .map_err(|_| AllocError)?;
        tickets.push(ticket)?;
        signs.submitted.fetch_add(1, SeqCst);
    }
    Ok(tickets)
}

// How many of them have a store.
fn count_fetched<R: Runner>(runner: &mut R, tickets: &[R::Ticket]) -> u64 {
    let mut count = 0u64;
    for ticket in tickets {
        if runner.fetch(ticket).is_ok() {
            count = count.saturating_add(1);
        }
    }
    count
}

// Whether all stores are there.
fn is_fetched<R: Runner>(alloc: Global, runner: &mut R, signs: &Signs) -> Result<bool, AllocError> {
    let tickets = tickets(alloc, runner, signs)?;
    Ok(count_fetched(runner, tickets.as_slice()) == TASKS)
}

// Waits until a piece has come to the gate.
fn await_piece<R: Clock>(rt: &R, signs: &Signs) {
    for _ in 0..TURNS {
        if signs.entered.load(SeqCst) > 0 {
            return;
        }
        thread::sleep(rt, Duration::from_millis(1));
    }
}

// Whether what was submitted before an epoch ended, while a piece was held, has no store, and what came later has one.
fn is_renewed<R: Runner, C: Clock>(
    rt: &C,
    alloc: Global,
    runner: &mut R,
    signs: &Signs,
) -> Result<bool, AllocError> {
    let old = tickets(alloc, runner, signs)?;
    await_piece(rt, signs);
    runner.renew().map_err(|_| AllocError)?;
    signs.released.store(1, SeqCst);
    let new = tickets(alloc, runner, signs)?;
    let found = count_fetched(runner, new.as_slice());
    Ok(found == TASKS && count_fetched(runner, old.as_slice()) == 0)
}

/// What is done while pieces are held.
#[derive(Clone, Copy)]
enum Trial {
    /// All stores are asked for.
    Fetch,
    /// The store of a task that is cut is asked for.
    Copy,
    /// Another task is to read it.
    Unite,
    /// An epoch ends.
    Renew,
    /// An epoch ends while a task that is cut isn't done.
    RenewCopy,
    /// The pool is closed.
    Close,
}

// Whether a pool does what it should, over a log that has a name, and whether no more pieces gave up than may.
fn over_log<J, R>(
    rt: R,
    alloc: Global,
    log: Log,
    signs: &Signs,
    gate: Holding<R>,
    trial: Trial,
) -> Result<bool, AllocError>
where
    J: Naming + Send + Sync + 'static,
    R: Wait + Threads + Clock + Clone + Drop + Send + Sync + 'static,
    requires { log ≡ J.log }
{
    let mut pool = Pool::<J, R, Holding<R>, Order>::with_share(
        rt.clone()?,
        alloc,
        log,
        WORKERS,
        ROWS / PIECES,
        gate,
        Order::First,
        1,
    )
    .map_err(|_| AllocError)?;
    let passed = match trial {
        Trial::Fetch => is_fetched(alloc, &mut pool, signs)?,
        Trial::Copy => is_copied(alloc, &mut pool)?,
        Trial::Unite => is_united(alloc, &mut pool)?,
        Trial::Renew => is_renewed(&rt, alloc, &mut pool, signs)?,
        Trial::RenewCopy => {
            let old = large_ticket(alloc, &mut pool)?;
            is_renewed(&rt, alloc, &mut pool, signs)? && pool.fetch(&old).is_err()
        }
        Trial::Close => {
            let tickets = tickets(alloc, &mut pool, signs)?;
            await_piece(&rt, signs);
            tickets.len() as u64 == TASKS
        }
    };
    pool.close();
    Ok(passed)
}

// The same over a new log, with pieces of so many slots held until a sign has come so far, for so many turns at most.
fn passes<R>(
    rt: &R,
    signs: &Arc<Signs>,
    held: (u64, Sign, u64, u64),
    trial: Trial,
) -> Result<bool, AllocError>
where
    R: Wait + Threads + Clock + Clone + Drop + Send + Sync + AllocGlobal + 'static,
{
    let alloc = rt.alloc();
    let (slots, sign, least, turns) = held;
    let gate = Holding {
        rt: rt.clone()?,
        signs: Arc::try_clone(signs)?,
        slots,
        sign,
        least,
        turns,
    };
    let log = Log::new(alloc).map_err(|_| AllocError)?;
    over_log::<Brand, R>(rt.clone()?, alloc, log, signs, gate, trial)
}

// Whether a task may be cut: none is for one processor.
fn may_cut(rt: &impl Threads) -> bool {
    !matches!(thread::available_parallelism(rt), Ok(count) if count.get() == 1)
}

#[test]
fn three_submits_return_while_every_piece_is_held(rt: HostRuntime) -> Result<(), AllocError> {
    let signs = Arc::new(rt.alloc(), Signs::new())?;
    let held = (TASKS, Sign::Submitted, 3, TURNS);
    assert!(rt; passes(&rt, &signs, held, Trial::Fetch)?);
    assert!(rt; signs.lost.load(SeqCst) == 0);
    Ok(())
}

#[test]
fn second_task_enters_while_first_is_held(rt: HostRuntime) -> Result<(), AllocError> {
    let signs = Arc::new(rt.alloc(), Signs::new())?;
    assert!(rt; passes(&rt, &signs, (1, Sign::Entered, 2, TURNS), Trial::Fetch)?);
    assert!(rt; signs.lost.load(SeqCst) == 0);
    Ok(())
}

#[test]
fn lowest_piece_is_given_last(rt: HostRuntime) -> Result<(), AllocError> {
    let signs = Arc::new(rt.alloc(), Signs::new())?;
    assert!(rt; passes(&rt, &signs, (1, Sign::Entered, TASKS, TURNS), Trial::Fetch)?);
    assert!(rt; signs.lost.load(SeqCst) == 0);
    Ok(())
}

#[test]
fn renew_while_a_piece_is_held(rt: HostRuntime) -> Result<(), AllocError> {
    let signs = Arc::new(rt.alloc(), Signs::new())?;
    let held = (TASKS, Sign::Released, 1, TURNS);
    assert!(rt; passes(&rt, &signs, held, Trial::Renew)?);
    assert!(rt; signs.lost.load(SeqCst) == 0);
    Ok(())
}

#[test]
fn second_piece_enters_while_first_is_held(rt: HostRuntime) -> Result<(), AllocError> {
    if !may_cut(&rt) {
        return Ok(());
    }
    let signs = Arc::new(rt.alloc(), Signs::new())?;
    assert!(rt; passes(&rt, &signs, (2, Sign::Entered, 2, TURNS), Trial::Copy)?);
    assert!(rt; signs.lost.load(SeqCst) == 0);
    assert!(rt; signs.entered.load(SeqCst) == PIECES);
    Ok(())
}

#[test]
fn first_piece_of_a_task_is_given_last(rt: HostRuntime) -> Result<(), AllocError> {
    if !may_cut(&rt) {
        return Ok(());
    }
    let signs = Arc::new(rt.alloc(), Signs::new())?;
    assert!(rt; passes(&rt, &signs, (2, Sign::Entered, PIECES, TURNS), Trial::Copy)?);
    assert!(rt; signs.lost.load(SeqCst) == 0);
    Ok(())
}

#[test]
fn lists_of_pieces_are_put_together_for_a_reader(rt: HostRuntime) -> Result<(), AllocError> {
    if !may_cut(&rt) {
        return Ok(());
    }
    let signs = Arc::new(rt.alloc(), Signs::new())?;
    assert!(rt; passes(&rt, &signs, (0, Sign::Entered, 0, TURNS), Trial::Unite)?);
    assert!(rt; signs.lost.load(SeqCst) == 0);
    Ok(())
}

#[test]
fn renew_while_a_piece_of_a_task_is_held(rt: HostRuntime) -> Result<(), AllocError> {
    let signs = Arc::new(rt.alloc(), Signs::new())?;
    let held = (2, Sign::Released, 1, TURNS);
    assert!(rt; passes(&rt, &signs, held, Trial::RenewCopy)?);
    assert!(rt; signs.lost.load(SeqCst) == 0);
    Ok(())
}

// Each worker has at most the piece that is held while the pool is closed.
#[test]
fn no_piece_is_taken_once_a_pool_is_closed(rt: HostRuntime) -> Result<(), AllocError> {
    let signs = Arc::new(rt.alloc(), Signs::new())?;
    let held = (TASKS, Sign::Released, 1, 200);
    assert!(rt; passes(&rt, &signs, held, Trial::Close)?);
    assert!(rt; signs.entered.load(SeqCst) <= WORKERS);
    assert!(rt; signs.lost.load(SeqCst) == signs.entered.load(SeqCst));
    Ok(())
}
