//! Which threads sleep, and how many are woken.
ghost use Rattle.std.specs.Prelude.{◌≡◌, ◌<◌, ◌↔◌, IsTrue, false, None};
ghost use Rattle.tasks.specs.Crews.{Calls, Rises, Sleeps};

use crate::cutting::Cutting;
use crate::demand::Demand;

/// How much work a worker is woken for, in entries that are read: about what a thread does while another wakes.
pub const SHARE: u64 = 16_384;

/// Who of the threads of a pool sleeps.
#[derive(Clone, Copy, Debug)]
pub struct Crew {
    /// No task is taken any more.
    pub closing: bool,
    /// Workers that sleep and weren't called.
    pub sleeping: u64,
    /// Workers that were called and haven't risen yet.
    pub called: u64,
    /// Workers that don't sleep, or were called.
    pub awake: u64,
    /// The slot for which the calling thread sleeps.
    pub awaited: Option<u64>,
    /// The calling thread does a piece.
    pub busy: bool,
    /// Workers that the first one is to start once there is work for it.
    pub others: u64,
    /// How much work a worker is woken for.
    share: u64,
    /// How many threads can be at work at one time.
    pub processors: u64,
    /// How tasks are cut for the threads.
    pub cutting: Cutting,
}

impl Crew {
    /// Nobody has come yet. The first worker is to start so many others; a worker is woken for so much work, so many
    /// threads can be at work at one time, and tasks are cut so.
    pub fn new(others: u64, share: u64, processors: u64, cutting: Cutting) -> Crew
        ensures sleeping { result.sleeping ≡ 0 }
        ensures called { result.called ≡ 0 }
        ensures closing { result.closing ≡ false }
        ensures awaited { result.awaited ≡ None }
        ensures cutting { result.cutting ≡ cutting }
    {
        Crew {
            closing: false,
            sleeping: 0,
            called: 0,
            awake: 0,
            awaited: None,
            busy: false,
            others,
            share,
            processors,
            cutting,
        }
    }

    /// Nobody works beside the calling thread, and nobody comes. Tasks are cut so.
    pub fn nobody(cutting: Cutting) -> Crew
        ensures sleeping { result.sleeping ≡ 0 }
        ensures called { result.called ≡ 0 }
        ensures cutting { result.cutting ≡ cutting }
    {
        Crew::new(0, 0, 0, cutting)
    }

    /// A worker begins.
    pub fn begin(&mut self)
        ensures sleeping { self.new.sleeping ≡ self.old.sleeping }
        ensures called { self.new.called ≡ self.old.called }
        ensures closing { self.new.closing ≡ self.old.closing }
        ensures awaited { self.new.awaited ≡ self.old.awaited }
    {
        self.awake = self.awake.saturating_add(1);
    }

    /// A worker goes to sleep.
    pub fn sleep(&mut self)
        ensures { Sleeps self.old self.new }
    {
        self.awake = self.awake.saturating_sub(1);
        self.sleeping = self.sleeping.saturating_add(1);
    }

    /// A worker rises: one that was called, where there is one; else by itself.
    pub fn rise(&mut self)
        ensures { Rises self.old self.new }
    {
        if self.called > 0 {
            self.called -= 1;
        } else {
            self.sleeping = self.sleeping.saturating_sub(1);
            self.awake = self.awake.saturating_add(1);
        }
    }

    /// Whether the calling thread can be at work beside the workers that are awake.
    pub fn has_room(&self) -> bool
        ensures { IsTrue result ↔ self.now.awake < self.now.processors }
    {
        self.awake < self.processors
    }

    /// How many workers have nothing to do, as far as is known: those that sleep, and those that are about to rise.
    pub fn idle(&self) -> u64 {
        self.sleeping.saturating_add(self.called)
    }

    /// How many threads could help with a task, as far as is known: so many as the workers that are awake leave.
    pub fn helpers(&self) -> u64 {
        self.cutting.threads.saturating_sub(self.awake.max(1))
    }

    /// How many workers may be awake: beside the calling thread, while it does a piece, as many as processors are left,
    /// since of a thread more a piece would wait for one.
    fn most_awake(&self) -> u64 {
        if self.busy {
            self.processors.saturating_sub(1).max(1)
        } else {
            u64::MAX
        }
    }

    /// Calls workers that sleep for what there is to do, where that is more than for those that are awake. Says how
    /// many are to be woken.
    pub fn call(&mut self, demand: Demand) -> u64
        ensures { Calls self.old self.new result }
    {
        let wanted = demand.threads(self.share).min(self.most_awake());
        let count = wanted.saturating_sub(self.awake).min(self.sleeping);
        self.sleeping -= count;
        self.called = self.called.saturating_add(count);
        self.awake = self.awake.saturating_add(count);
        count
    }
}
