//! A conversation: what a run is given, and what it has to print.

use crate::program::Program;
use std::alloc::Global;
use std::io::ErrorKind;
use std::{fs, io};

/// What a run is given, and what it has to print.
#[derive(Debug, Drop)]
pub(crate) struct Conversation {
    /// The program that is run.
    pub(crate) program: Program,
    /// The bytes that the source gives.
    pub(crate) script: Vec<u8>,
    /// The readable form of these bytes, where they are a script that has one.
    pub(crate) readable: Option<Vec<u8>>,
    /// The words of the command line of each run, without the program's name.
    pub(crate) runs: Vec<Vec<String>>,
    /// The exit status.
    pub(crate) status: u8,
    /// All that is printed.
    pub(crate) text: Vec<u8>,
}

impl Conversation {
    /// Reads the files of the conversation of this name in a folder.
    pub(crate) fn read(
        rt: &HostRuntime,
        folder: &str,
        name: &str,
    ) -> Result<Conversation, anyhow::Error> {
        let program = program_of(rt, folder, name)?;
        let status = status_of(rt, folder, name)?;
        let (script, readable) = sources_of(rt, folder, name)?;
        let (runs, text) = if is_readable_alone(rt, folder, name, readable.is_some())? {
            (Vec::new(rt.alloc()), Vec::new(rt.alloc()))
        } else {
            (runs_of(rt, folder, name)?, text_of(rt, folder, name)?)
        };
        Ok(Conversation {
            program,
            script,
            readable,
            runs,
            status,
            text,
        })
    }
}

/// The bytes of the conversation's file with this ending, if there is one.
fn file_of(
    rt: &HostRuntime,
    folder: &str,
    name: &str,
    ending: &str,
) -> io::Result<Option<Vec<u8>>> {
    let alloc: Global = rt.alloc();
    let file = format!(in alloc; "{folder}/{name}.{ending}")?;
    match fs::read(rt, file.as_str()) {
        Ok(bytes) => Ok(Some(bytes)),
        Err(error) if error.kind() == ErrorKind::NotFound => Ok(None),
        Err(error) => Err(error),
    }
}

/// The same, none where there is no such file.
fn bytes_of(rt: &HostRuntime, folder: &str, name: &str, ending: &str) -> io::Result<Vec<u8>> {
    match file_of(rt, folder, name, ending)? {
        Some(bytes) => Ok(bytes),
        None => Ok(Vec::new(rt.alloc())),
    }
}

/// What the source gives, and the readable form of it. Where there are no bytes, the source gives the readable form.
fn sources_of(
    rt: &HostRuntime,
    folder: &str,
    name: &str,
) -> io::Result<(Vec<u8>, Option<Vec<u8>>)> {
    let readable = file_of(rt, folder, name, "dcdt")?;
    match (file_of(rt, folder, name, "dcds")?, readable) {
        (Some(bytes), readable) => Ok((bytes, readable)),
        (None, Some(text)) => Ok((text, None)),
        (None, None) => Ok((Vec::new(rt.alloc()), None)),
    }
}

/// Whether it is a readable form and its bytes, and no run.
fn is_readable_alone(
    rt: &HostRuntime,
    folder: &str,
    name: &str,
    readable: bool,
) -> io::Result<bool> {
    Ok(readable && file_of(rt, folder, name, "txt")?.is_none())
}

/// The bytes of the file that each conversation with a run has.
fn text_of(rt: &HostRuntime, folder: &str, name: &str) -> io::Result<Vec<u8>> {
    let alloc: Global = rt.alloc();
    let file = format!(in alloc; "{folder}/{name}.txt")?;
    fs::read(rt, file.as_str())
}

/// The program.
fn program_of(rt: &HostRuntime, folder: &str, name: &str) -> Result<Program, anyhow::Error> {
    let program = bytes_of(rt, folder, name, "program")?;
    Ok(Program::named(str::from_utf8(program.as_slice())?)?)
}

/// The words of each run.
fn runs_of(rt: &HostRuntime, folder: &str, name: &str) -> Result<Vec<Vec<String>>, anyhow::Error> {
    let words = bytes_of(rt, folder, name, "words")?;
    Ok(parts_of(rt.alloc(), str::from_utf8(words.as_slice())?)?)
}

/// The exit status.
fn status_of(rt: &HostRuntime, folder: &str, name: &str) -> Result<u8, anyhow::Error> {
    let status = bytes_of(rt, folder, name, "status")?;
    number_of(str::from_utf8(status.as_slice())?)
}

/// The lines of a text, without their ends, in the parts that empty lines make.
fn parts_of(alloc: Global, text: &str) -> io::Result<Vec<Vec<String>>> {
    let mut parts = Vec::new(alloc);
    let mut part = Vec::new(alloc);
    for line in text.lines() {
        if line.is_empty() {
            parts.push(part)?;
            part = Vec::new(alloc);
        } else {
            part.push(String::from_str(alloc, line)?)?;
        }
    }
    parts.push(part)?;
    Ok(parts)
}

/// The number that decimal digits write, 0 where there are none.
fn number_of(digits: &str) -> Result<u8, anyhow::Error> {
    match digits.trim() {
        "" => Ok(0),
        digits => Ok(digits.parse::<u8>()?),
    }
}
