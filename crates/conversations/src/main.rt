//! Runs each conversation of a folder over ends in memory, and says which ones come out otherwise than they are written.
//!
//! A conversation NAME is a few files: the name of the program `NAME.program`, the script `NAME.dcds`, its readable form
//! `NAME.dcdt`, the words of the command line `NAME.words`, one a line, the exit status `NAME.status` in decimal digits, and
//! the text `NAME.txt` that the run has to print. An empty line among the words parts the words of one run from those of the
//! next, and all runs have to come out alike. Without the first the program is `dcdsim`. A readable form beside a script has to
//! say that script, and the text that is printed for the script has to say it too; without the script it is what the source
//! gives, and without both the source is empty. Without words there is one run that has none, and without a status it is 0.
//! Without a text there are no runs, if there are a readable form and a script. Other files are left alone.
#![tactic(auto)]

mod conversation;
mod folder;
mod outcome;
mod program;
mod readable;
mod trials;

use conversation::Conversation;
use folder::names_in;
use outcome::Difference;
use readable::first_other;
use std::alloc::AllocGlobal;
use std::process::ExitCode;
use std::sync::Wait;
use std::thread::Threads;
use std::{env, io};
use trials::{Wrong, first_wrong};

/// Goes over the folder that the first word names, or over the one that it runs in. Prints a line for each conversation
/// that is wrong, and whether all are right. Ends with status 1 where one is wrong or there is none.
fn main(rt: HostRuntime) -> Result<ExitCode, anyhow::Error> {
    let folder = match env::args(&rt)?.nth(1) {
        Some(folder) => folder,
        None => String::from_str(rt.alloc(), ".")?,
    };
    let names = names_in(&rt, folder.as_str())?;
    let mut right = 0usize;
    for name in &names {
        let conversation = Conversation::read(&rt, folder.as_str(), name.as_str())?;
        if is_right(&rt, name.as_str(), &conversation)? {
            right = right.saturating_add(1);
        }
    }
    let is_all = right != 0 && right == names.len();
    if is_all {
        println!(rt; "all conversations are right")?;
    } else {
        println!(rt; "{right} of {} conversations are right", names.len())?;
    }
    Ok(ExitCode::from(u8::from(!is_all)))
}

/// Whether each run of the conversation of this name is right. Prints what is wrong of those that are not.
fn is_right<R: Threads + Wait + Sync + AllocGlobal + Print>(
    rt: &R,
    name: &str,
    conversation: &Conversation,
) -> Result<bool, anyhow::Error> {
    let mut is_right = true;
    if let Some(other) = first_other(rt.alloc(), conversation)? {
        println!(rt; "{name}: {other}")?;
        is_right = false;
    }
    let mut run = 0usize;
    for words in &conversation.runs {
        run = run.saturating_add(1);
        if let Some(wrong) = first_wrong(rt, rt.alloc(), conversation, words.as_slice())? {
            tell(rt, name, run, wrong)?;
            is_right = false;
        }
    }
    Ok(is_right)
}

/// Prints what is wrong with a run of the conversation of this name, the first of which has the number 1.
fn tell<R: Print>(rt: &R, name: &str, run: usize, wrong: Wrong) -> io::Result<()> {
    match wrong {
        Wrong::Whole(difference) => tell_difference(rt, name, run, "", difference),
        Wrong::Small(difference) => {
            tell_difference(rt, name, run, "in small pieces, ", difference)
        }
        Wrong::Read(call) => println!(rt;
            "{name}, run {run}: read {call} fails, and the run ends wrong"
        ),
        Wrong::Write(call) => println!(rt;
            "{name}, run {run}: write {call} fails, and the run ends wrong"
        ),
    }
}

/// Prints where a run is otherwise than it has to be.
fn tell_difference<R: Print>(
    rt: &R,
    name: &str,
    run: usize,
    how: &str,
    difference: Difference,
) -> io::Result<()> {
    match difference {
        Difference::Status(status) => println!(rt;
            "{name}, run {run}: {how}its status is {status}"
        ),
        Difference::Line(number) => println!(rt;
            "{name}, run {run}: {how}line {number} of its text is another"
        ),
    }
}
