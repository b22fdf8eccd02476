//! The scripts and the files below a folder.

use crate::held::Held;
use std::alloc::Global;
use std::fs::Files;
use std::{fs, io};

/// What lies in a folder.
#[derive(Drop)]
pub struct Folder {
    pub scripts: Vec<Held>,
    /// Matrix Market files.
    pub files: Vec<Held>,
}

impl Folder {
    fn new(alloc: Global) -> Folder {
        Folder {
            scripts: Vec::new(alloc),
            files: Vec::new(alloc),
        }
    }
}

/// Reads a folder and all below it.
pub fn read_below<R: Files + AllocGlobal + Clone + Drop>(
    rt: &R,
    path: String,
    folders: &mut Vec<Folder>,
) -> io::Result<()> {
    let mut waiting = Vec::new(rt.alloc());
    waiting.push(path)?;
    // The walk ends when no folder waits.
    for _ in 0..usize::MAX {
        let Some(path) = waiting.pop() else {
            break;
        };
        let folder = read(rt, path.as_str(), &mut waiting)?;
        folders.push(folder)?;
    }
    Ok(())
}

/// Reads a folder; those in it have to wait.
fn read<R: Files + AllocGlobal + Clone + Drop>(
    rt: &R,
    path: &str,
    waiting: &mut Vec<String>,
) -> io::Result<Folder> {
    let alloc = rt.alloc();
    let mut folder = Folder::new(alloc);
    for entry in fs::read_dir(rt, path)? {
        let entry = entry?;
        let path = String::from_str(alloc, entry.path().to_string_lossy())?;
        if entry.file_type()?.is_dir() {
            waiting.push(path)?;
        } else if path.as_str().ends_with(".gb") {
            folder.scripts.push(held(rt, path, entry.file_name())?)?;
        } else if path.as_str().ends_with(".mtx") {
            folder.files.push(held(rt, path, entry.file_name())?)?;
        }
    }
    Ok(folder)
}

/// Reads a file.
fn held<R: Files + AllocGlobal>(rt: &R, path: String, name: &str) -> io::Result<Held> {
    let bytes = fs::read(rt, path.as_str())?;
    let name = String::from_str(rt.alloc(), name)?;
    Ok(Held { path, name, bytes })
}
