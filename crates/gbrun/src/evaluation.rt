//! The run of a script.
ghost use Rattle.std.specs.Prelude.{◌≡◌, ℕ, List, None, Option, IfSome};
ghost use Rattle.std.specs.Option.{option_map};
ghost use Rattle.gbrun.specs.Runs.{AnswersRun, IsMade, Made};
ghost use Rattle.gbrun.specs.declared.options.Options.{Options as Chosen};

use crate::options::Options;
use model::NoMemory;
use runner::Runner;
use script::{EntrySummer, FileReader, FileWriter, Sources, WordFolder};
use std::alloc::Global;

/// What makes the run of a script. A program that is given one of any kind can't make up what the run appends or how
/// it ends, so what its contract says holds of the run that was made.
pub trait Evaluation {
    // The run that was made, if one was.
    ghost made: { Self → Option Made };
    // Whether a run of a script with these files and options may be this one.
    ghost admits: { (List ℕ → Option (List ℕ)) → List ℕ → Chosen → Made → Type 0 };

    /// Runs a script with these sources of files, where `files` reads and writes these and sums the values of an
    /// object, over a runner that was chosen by the options, and appends its answers to none.
    fn run<F: FileReader + FileWriter + EntrySummer + WordFolder, S: Sources, R: Runner>(
        &mut self,
        files: &F,
        alloc: Global,
        script: &[u8],
        sources: &S,
        options: Options<'_>,
        runner: &mut R,
    ) -> Result<(), NoMemory>
        requires { made self.old ≡ None }
        ensures { IsMade (admits (S.held sources.now) script.now options.entry) result (made self.new) };

    /// The answers of the run that was made.
    fn answers(&self) -> &[u8]
        ensures { IfSome (made self.now) (λ run. result.now ≡ run.appended) };
}

/// The run that `script::run_by` makes. Where memory ran out, its contract and that of `script::run_by` say no more of
/// the text than that it answers some first lines. The answers show neither the options nor the runner.
#[derive(Drop)]
pub struct Answers {
    pub text: Vec<u8>,
    pub ended: Option<Result<(), NoMemory>>,
}

impl Answers {
    /// No run yet.
    pub fn new(alloc: Global) -> Answers
        ensures { result.ended ≡ None }
    {
        Answers {
            text: Vec::new(alloc),
            ended: None,
        }
    }
}

impl Evaluation for Answers {
    ghost made = { λ answers. option_map (λ ended. record { appended = answers.text.items; ended = ended })
        answers.ended };

    ghost admits = { AnswersRun };

    fn run<F: FileReader + FileWriter + EntrySummer + WordFolder, S: Sources, R: Runner>(
        &mut self,
        files: &F,
        alloc: Global,
        script: &[u8],
        sources: &S,
        _options: Options<'_>,
        runner: &mut R,
    ) -> Result<(), NoMemory> {
        self.text.clear();
        let ended = script::run_by(files, alloc, script, sources, runner, &mut self.text);
        self.ended = Some(ended);
        ended
    }

    fn answers(&self) -> &[u8] {
        self.text.as_slice()
    }
}
