//! What is told in the end.

use crate::compared::Compared;
use crate::jobs::Job;
use std::io;
use std::io::Print;

/// Counts of what was compared.
#[derive(Clone, Copy)]
struct Tally {
    passed: u64,
    failed: u64,
    texts: u64,
    too_large: u64,
}

impl Tally {
    const fn new() -> Tally {
        Tally {
            passed: 0,
            failed: 0,
            texts: 0,
            too_large: 0,
        }
    }

    fn count(&mut self, compared: &Compared) {
        self.texts = self.texts.saturating_add(compared.texts);
        let count = if compared.difference.is_some() {
            &mut self.failed
        } else if compared.is_whole {
            &mut self.passed
        } else {
            &mut self.too_large
        };
        *count = count.saturating_add(1);
    }
}

/// Tells each difference and the counts; whether there was none.
pub fn tell<R: Print>(rt: &R, jobs: &[Job<'_>], compared: &[Compared]) -> io::Result<bool> {
    let mut tally = Tally::new();
    for (job, compared) in jobs.iter().zip(compared) {
        tally.count(compared);
        if let Some(difference) = &compared.difference {
            println!(rt; "{}: {difference}", job.path())?;
        }
    }
    println!(rt; "{} texts of scripts and files compared", tally.texts)?;
    println!(rt;
        "{} scripts not compared whole: an object of theirs has too many positions",
        tally.too_large
    )?;
    println!(rt; "{} passed, {} failed", tally.passed, tally.failed)?;
    Ok(tally.failed == 0)
}
