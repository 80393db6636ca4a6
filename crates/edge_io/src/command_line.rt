//! The words of the command line.

use std::{env, io};

/// The words of the command line without the program's name. A word that is not UTF-8 is no word that is accepted,
/// and stands as an empty one.
pub fn words(rt: &HostRuntime) -> io::Result<Vec<String>> {
    let mut words = Vec::new(rt.alloc());
    match env::args(rt) {
        Ok(args) => {
            for word in args.skip(1) {
                words.push(word)?;
            }
        }
        Err(error) if error.kind() == io::ErrorKind::InvalidData => words.push(String::new(
            rt.alloc(),
        ))?,
        Err(error) => return Err(error),
    }
    Ok(words)
}
