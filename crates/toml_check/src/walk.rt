//! The files that the names on the command line lead to.

use std::rt::Files;
use std::{fs, io};

/// The files that some names lead to.
#[derive(Drop)]
pub struct FileList {
    /// Their names, in order.
    pub files: Vec<String>,
    /// Whether every folder could be listed.
    pub is_whole: bool,
}

/// The files that some names lead to, in order: a name that is no folder leads to itself; a folder to each file in it,
/// and in the folders below it, whose name ends with `.toml`, in the order of their names. Links to folders are not
/// followed. What cannot be listed is named on standard error.
pub fn files_under<R: Files + AllocGlobal + Eprint + Clone + Drop>(
    rt: &R,
    names: Vec<String>,
) -> io::Result<FileList> {
    let mut files = Vec::new(rt.alloc());
    let mut is_whole = true;
    for name in names {
        if is_folder(rt, name.as_str()) {
            is_whole &= add_folder(rt, name, &mut files)?;
        } else {
            files.push(name)?;
        }
    }
    Ok(FileList { files, is_whole })
}

fn is_folder(files: &impl Files, name: &str) -> bool {
    match fs::metadata(files, name) {
        Ok(metadata) => metadata.is_dir() && name != "-",
        Err(_) => false,
    }
}

// Adds the files of a folder; whether all of it could be listed.
fn add_folder<R: Files + AllocGlobal + Eprint + Clone + Drop>(
    rt: &R,
    folder: String,
    files: &mut Vec<String>,
) -> io::Result<bool> {
    let mut found = Vec::new(rt.alloc());
    let mut folders = Vec::new(rt.alloc());
    let mut is_whole = true;
    folders.push(folder)?;
    for _ in 0..u64::MAX {
        let Some(folder) = folders.pop() else {
            break;
        };
        match list(rt, folder.as_str(), &mut folders, &mut found) {
            Ok(()) => {}
            Err(e) => {
                eprintln!(rt; "{folder}: {e}")?;
                is_whole = false;
            }
        }
    }
    found.sort()?;
    for file in found {
        files.push(file)?;
    }
    Ok(is_whole)
}

// Adds the folders right in a folder, and its files whose names end with `.toml`.
fn list<R: Files + AllocGlobal + Clone + Drop>(
    rt: &R,
    folder: &str,
    folders: &mut Vec<String>,
    files: &mut Vec<String>,
) -> io::Result<()> {
    for entry in fs::read_dir(rt, folder)? {
        let entry = entry?;
        let path = String::from_str(rt.alloc(), entry.path().as_str())?;
        if entry.file_type()?.is_dir() {
            folders.push(path)?;
        } else if entry.file_name().ends_with(".toml") {
            files.push(path)?;
        }
    }
    Ok(())
}
