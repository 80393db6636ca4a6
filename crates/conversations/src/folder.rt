//! The names of the conversations of a folder.

use std::alloc::Global;
use std::fs;

/// The ends of the names of a conversation's files.
const ENDS: [&str; 6] = [".program", ".dcdt", ".dcds", ".words", ".status", ".txt"];

/// The name of the conversation that a file is of, if it is of one.
fn stem(file: &str) -> Option<&str> {
    ENDS.iter().find_map(|end| file.strip_suffix(*end))
}

/// The name of each conversation that a file of the folder is of, once and in alphabetical order.
pub(crate) fn names_in(rt: &HostRuntime, folder: &str) -> Result<Vec<String>, anyhow::Error> {
    let alloc: Global = rt.alloc();
    let mut names = Vec::new(alloc);
    for entry in fs::read_dir(rt, folder)? {
        if let Some(name) = stem(entry?.file_name()) {
            names.push(String::from_str(alloc, name)?)?;
        }
    }
    names.sort()?;
    names.dedup();
    Ok(names)
}
