//! The case files of a folder.

use std::rt::Files;
use std::{fs, io};

/// The paths of the files of a folder whose names end with `.cases`, in the order of texts.
pub fn case_files<R: Files + AllocGlobal + Clone + Drop>(
    rt: &R,
    folder: &str,
) -> io::Result<Vec<String>> {
    let mut paths = Vec::new(rt.alloc());
    for entry in fs::read_dir(rt, folder)? {
        let entry = entry?;
        let path = entry.path().as_str();
        if path.ends_with(".cases") {
            paths.push(String::from_str(rt.alloc(), path)?)?;
        }
    }
    paths.sort()?;
    Ok(paths)
}
