//! What is compared, one by one, by as many threads as there are processors.

use crate::compared::Compared;
use crate::folders::Folder;
use crate::held::{Files, Held};
use crate::{readers, scripts};
use std::alloc::{AllocError, Global};

/// A script with the files that it may load, or a Matrix Market file.
#[derive(Clone, Copy)]
pub enum Job<'a> {
    Script { script: &'a Held, files: Files<'a> },
    File(&'a Held),
}

impl Job<'_> {
    /// Does it.
    pub fn compare(&self, alloc: Global) -> Result<Compared, AllocError> {
        match self {
            Job::Script { script, files } => {
                scripts::compare(alloc, script.bytes.as_slice(), *files)
            }
            Job::File(file) => readers::compare(alloc, file.bytes.as_slice()),
        }
    }

    /// The path of its script or file.
    pub fn path(&self) -> &str {
        match self {
            Job::Script { script, .. } => script.path.as_str(),
            Job::File(file) => file.path.as_str(),
        }
    }
}

/// All that there is to compare in folders.
pub fn of_folders(alloc: Global, folders: &[Folder]) -> Result<Vec<Job<'_>>, AllocError> {
    let mut jobs = Vec::new(alloc);
    for folder in folders {
        push_jobs(folder, &mut jobs)?;
    }
    Ok(jobs)
}

fn push_jobs<'a>(folder: &'a Folder, jobs: &mut Vec<Job<'a>>) -> Result<(), AllocError> {
    let files = Files(folder.files.as_slice());
    for script in &folder.scripts {
        jobs.push(Job::Script { script, files })?;
    }
    for file in &folder.files {
        jobs.push(Job::File(file))?;
    }
    Ok(())
}
