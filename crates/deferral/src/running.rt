//! Runs of scripts whose work is done when a value is asked for.
ghost use Rattle.std.specs.Prelude.{ℕ, ◌≡◌, ◌++◌, List, OnOk, OnErr, take};
ghost use Rattle.model.specs.Loads.{readings_in};
ghost use Rattle.model.specs.Poisoned.{Ran};
ghost use Rattle.model.specs.Run.{out_of};
ghost use Rattle.model.specs.Runs.{TellsOfNoWant};

use desk::{Order, Picker};
use history::{History, Naming};
use inline::Inline;
use model::NoMemory;
use script::Sources;
use std::alloc::Global;
use std::marker::Brand;

/// Runs a script as `script::run` does. Work is put off until a line asks for a value, and what has to be done by then
/// is done on the calling thread, in this order.
pub fn run<S: Sources>(
    alloc: Global,
    script: &[u8],
    sources: &S,
    order: Order,
    out: &mut Vec<u8>,
) -> Result<(), NoMemory>
    ensures headline { OnOk result ((text : List ℕ) → out.new.items ≡ out.old.items ++ text → TellsOfNoWant text
        → text ≡ out_of (S.held sources.now) script.now) }
    ensures ok { OnOk result (Ran (readings_in (S.held sources.now) script.now) out.old.items out.new.items) }
    ensures err { OnErr result ((n : ℕ)
        × Ran (take n (readings_in (S.held sources.now) script.now)) out.old.items out.new.items) }
{
    run_over::<Brand, S, Order>(alloc, History::new(), script, sources, order, out)
}

/// The same over a history that has a name, whoever picks what is done next.
pub fn run_over<J: Naming, S: Sources, P: Picker + Drop>(
    alloc: Global,
    history: History,
    script: &[u8],
    sources: &S,
    picker: P,
    out: &mut Vec<u8>,
) -> Result<(), NoMemory>
    requires { history ≡ J.book }
    ensures headline { OnOk result ((text : List ℕ) → out.new.items ≡ out.old.items ++ text → TellsOfNoWant text
        → text ≡ out_of (S.held sources.now) script.now) }
    ensures ok { OnOk result (Ran (readings_in (S.held sources.now) script.now) out.old.items out.new.items) }
    ensures err { OnErr result ((n : ℕ)
        × Ran (take n (readings_in (S.held sources.now) script.now)) out.old.items out.new.items) }
{
    let mut runner: Inline<J, P> = Inline::new(alloc, history, picker);
    script::run(alloc, script, sources, &mut runner, out)
}
