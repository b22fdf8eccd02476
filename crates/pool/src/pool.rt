//! The pool.
ghost use Rattle.std.specs.Prelude.{◌≡◌, IfOk};
ghost use Rattle.board.specs.Boards.{view_of};
ghost use Rattle.board.specs.Events.{empty_view};
ghost use Rattle.desk.specs.Desks.{object_in, told};
ghost use Rattle.history.specs.Histories.{object_of};
ghost use Rattle.runner.specs.Tickets.{made_by};

use crate::fetching::{fetch_alone, fetch_beside, hand_over};
use crate::gate::Gate;
use crate::named::Named;
use crate::serving::leave;
use crate::shared::Shared;
use crate::spares::SharedSpares;
use crate::starting::start_first;
use crate::uniting::{unite_own, unite_shared};
use board::Board;
use calls::{Recipe, Role, Roles};
use desk::{Picker, Ticket, notes_of, work_of};
use history::Noted;
use journal::{Log, Naming, Note};
use kernel::is_factor;
use model::NoMemory;
use runner::{Failed, Runner};
use std::alloc::Global;
use std::sync::atomic::AtomicBool;
use std::sync::atomic::Ordering::SeqCst;
use std::sync::{Arc, Condvar, Mutex, Wait};
use std::thread;
use std::thread::{JoinHandle, Threads};
use store::Store;
use tasks::{Crew, Cutting, SHARE, Tasks};

/// Workers over one board. All of them, and the calling thread while it waits, do tasks in the order in which a picker
/// picks them, each once what it rests on is done.
#[derive(Drop)]
pub struct Pool<J: Naming, R: Wait + Drop, G: Gate + Drop, P: Picker + Drop> {
    rt: R,
    alloc: Global,
    pub epoch: u64,
    named: Arc<Named<J>>,
    shared: Arc<Shared<J, G, P>>,
    /// The first worker, which starts and joins the others; none where it couldn't be started.
    first: Option<JoinHandle<()>>,
    /// How much work a worker is woken for; 0 where there is none.
    share: u64,
    /// The tasks, while the calling thread has them, since no worker is awake. Else they lie under the lock.
    own: Tasks<J, P>,
    /// The board of the next epoch, whose lists have the room of one before.
    spare: Board<Note<J>>,
    ghost empty: { view_of spare ≡ empty_view },
}

impl<J, R, G, P> Pool<J, R, G, P>
where
    J: Naming + Send + Sync + 'static,
    R: Wait + Threads + Clone + Drop + Send + 'static,
    G: Gate + Drop + Send + Sync + 'static,
    P: Picker + Drop + Send + 'static,
{
    /// A pool of so many workers over a log that has the name of its type. A worker that can't be started is left out.
    /// All but the first are started once there is work for them. A large task is cut into pieces of so many rows or
    /// more, the last one perhaps of fewer, which the workers and the calling thread do apart; none is cut where no
    /// worker can be started.
    pub fn new(
        rt: R,
        alloc: Global,
        log: Log,
        workers: u64,
        rows: u64,
        gate: G,
        picker: P,
    ) -> Result<Pool<J, R, G, P>, NoMemory>
        requires { log ≡ J.log }
        ensures { IfOk result (λ pool. pool.epoch ≡ 0) }
    {
        Pool::with_share(rt, alloc, log, workers, rows, gate, picker, SHARE)
    }

    /// The same, with a worker woken for so much work, in entries that are read.
    pub fn with_share(
        rt: R,
        alloc: Global,
        log: Log,
        workers: u64,
        rows: u64,
        gate: G,
        picker: P,
        share: u64,
    ) -> Result<Pool<J, R, G, P>, NoMemory>
        requires { log ≡ J.log }
        ensures { IfOk result (λ pool. pool.epoch ≡ 0) }
    {
        let named = Arc::new(alloc, Named::new(log))?;
        let processors = processors(&rt);
        let threads = workers.saturating_add(1).min(processors);
        let cutting = Cutting { rows, threads };
        let crew = Crew::new(workers.saturating_sub(1), share, processors, cutting);
        let shared = Shared {
            locked: Mutex::new(Tasks::new(alloc, None, crew)),
            gate,
            spares: SharedSpares::new(alloc),
            more: Condvar::new(),
            come: Condvar::new(),
            has_blocks: AtomicBool::new(false),
        };
        let shared = Arc::new(alloc, shared)?;
        let first = if workers == 0 {
            None
        } else {
            start_first(&rt, alloc, &named, &shared).ok()
        };
        let (share, cutting) = if first.is_some() {
            (share, cutting)
        } else {
            (0, Cutting::none())
        };
        Ok(Pool {
            rt,
            alloc,
            epoch: 0,
            named,
            shared,
            first,
            share,
            own: Tasks::new(alloc, Some(picker), Crew::nobody(cutting)),
            spare: Board::new(alloc),
        })
    }

    /// Ends the workers. Tasks that are out are done before; no other is.
    pub fn close(self) {
        let Pool {
            rt,
            shared,
            first,
            ..
        } = self;
        shared.locked.lock(&rt).crew.closing = true;
        shared.more.notify_all();
        if let Some(first) = first {
            first.join(&rt);
        }
    }
}

impl<J: Naming, R: Wait + Threads + Drop, G: Gate + Drop, P: Picker + Drop> Pool<J, R, G, P> {
    /// Whether a store may have to be given another form before a recipe reads it.
    fn may_unite(&self, recipe: &Recipe) -> bool {
        self.shared.has_blocks.load(SeqCst) || is_factor(recipe, Role::First)
    }

    /// A slot for what was noted, where the calling thread has the tasks; these are handed over where there is enough
    /// to do for workers.
    fn submit_own(
        &mut self,
        note: Note<J>,
        recipe: Recipe,
        inputs: &Roles<&Ticket<Note<J>>>,
    ) -> Result<u64, NoMemory>
        requires { object_of note ≡ made_by (object_in told) recipe inputs.now }
        ensures { self.new.epoch ≡ self.old.epoch }
    {
        if self.may_unite(&recipe) {
            unite_own(
                &self.rt,
                self.alloc,
                &self.named,
                &self.shared.spares,
                &mut self.own,
                &recipe,
                inputs,
            );
        }
        let work = work_of(&recipe);
        let slot = self.own.submit(&self.named.log, note, recipe, inputs)?;
        let demand = self.own.demand_after(slot, work);
        if demand.threads(self.share) > 0 {
            hand_over(&self.rt, &self.shared, &mut self.own, demand, false);
        }
        Ok(slot)
    }

    /// The same where the tasks lie under the lock. Workers are woken where there is enough to do for them.
    fn submit_shared(
        &mut self,
        note: Note<J>,
        recipe: Recipe,
        inputs: &Roles<&Ticket<Note<J>>>,
    ) -> Result<u64, NoMemory>
        requires { object_of note ≡ made_by (object_in told) recipe inputs.now }
        ensures { self.new.epoch ≡ self.old.epoch }
    {
        if self.may_unite(&recipe) {
            unite_shared(
                &self.rt,
                self.alloc,
                &self.named,
                &self.shared,
                &recipe,
                inputs,
            );
        }
        let mut guard = self.shared.locked.lock(&self.rt);
        let work = work_of(&recipe);
        let slot = guard.submit(&self.named.log, note, recipe, inputs)?;
        let called = guard.call_after(slot, work);
        leave(&self.rt, &self.shared, guard, None, called);
        Ok(slot)
    }
}

/// How many threads can be at work at one time; all where that isn't known.
fn processors(rt: &impl Threads) -> u64 {
    match thread::available_parallelism(rt) {
        Ok(count) => count.get() as u64,
        Err(_) => u64::MAX,
    }
}

impl<J: Naming, R: Wait + Threads + Drop, G: Gate + Drop, P: Picker + Drop> Runner
    for Pool<J, R, G, P> {
    type Ticket = Ticket<Note<J>>;

    ghost object_of = { object_in told };

    ghost epoch = { λ r. r.epoch };

    ghost born = { λ t. t.epoch };

    fn submit(
        &mut self,
        recipe: Recipe,
        inputs: Roles<&Ticket<Note<J>>>,
    ) -> Result<Ticket<Note<J>>, NoMemory> {
        let note = self.named.log.note(&self.rt, &recipe, notes_of(&inputs))?;
        let slot = if self.own.are_here() {
            self.submit_own(note.again(), recipe, &inputs)?
        } else {
            self.submit_shared(note.again(), recipe, &inputs)?
        };
        Ok(Ticket {
            epoch: self.epoch,
            slot,
            note,
        })
    }

    fn fetch(&mut self, ticket: &Ticket<Note<J>>) -> Result<Arc<Store>, Failed> {
        if ticket.epoch != self.epoch {
            return Err(Failed);
        }
        let mut first = None;
        if self.own.are_here() {
            match fetch_alone(
                &self.rt,
                self.alloc,
                &self.named,
                &self.shared,
                &mut self.own,
                self.share,
                ticket,
            ) {
                Ok(found) => return found,
                Err(finished) => first = Some(finished),
            }
        }
        fetch_beside(
            &self.rt,
            self.alloc,
            &self.named,
            &self.shared,
            &mut self.own,
            first,
            ticket,
        )
    }

    fn hold(&mut self, ticket: &Ticket<Note<J>>) -> Result<Ticket<Note<J>>, NoMemory> {
        if self.own.are_here() {
            self.own.hold(&self.named.log, ticket)?;
        } else {
            let mut guard = self.shared.locked.lock(&self.rt);
            guard.hold(&self.named.log, ticket)?;
        }
        Ok(Ticket {
            epoch: ticket.epoch,
            slot: ticket.slot,
            note: ticket.note.again(),
        })
    }

    fn let_go(&mut self, ticket: Ticket<Note<J>>) {
        if self.own.are_here() {
            let share = self.own.let_go(&self.named.log, &ticket);
            self.shared.spares.drop_share(&self.rt, share);
            return;
        }
        let mut guard = self.shared.locked.lock(&self.rt);
        let share = guard.let_go(&self.named.log, &ticket);
        drop(guard);
        self.shared.spares.drop_share(&self.rt, share);
    }

    fn renew(&mut self) -> Result<(), NoMemory> {
        let epoch = self.epoch.checked_add(1).ok_or(NoMemory)?;
        if self.own.are_here() {
            self.own.renew(&mut self.spare)?;
        } else {
            let mut guard = self.shared.locked.lock(&self.rt);
            guard.renew(&mut self.spare)?;
        }
        self.spare.clear();
        self.epoch = epoch;
        Ok(())
    }
}
