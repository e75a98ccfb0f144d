use crate::blocks::Blocks;
use crate::command::Command;
use crate::judge::tried;
use crate::plan::Plan;
use crate::unread::Unread;
use std::alloc::{AllocError, Global};
use std::{fs, io};

/// How many calls were tried, and how many of them did not come out as stated or could not be read.
#[derive(Clone, Copy)]
struct Tally {
    tried: u64,
    wrong: u64,
}

/// Whether no call of the file may come out as stated: such a file shows that a wrong row is told.
fn is_wrong(name: &str) -> bool {
    name.ends_with(".wrong")
}

/// Lists a file where it has rows.
fn list(alloc: Global, file: &str, names: &mut Vec<String>) -> io::Result<()> {
    if file.ends_with(".rows") || is_wrong(file) {
        names.push(String::from_str(alloc, file)?)?;
    }
    Ok(())
}

fn list_folder(
    rt: &HostRuntime,
    alloc: Global,
    folder: &str,
    names: &mut Vec<String>,
) -> io::Result<()> {
    for entry in fs::read_dir(rt, folder)? {
        list(alloc, entry?.file_name(), names)?;
    }
    Ok(())
}

/// The files with rows, in the order of their names.
fn names(rt: &HostRuntime, alloc: Global, folder: &str) -> io::Result<Vec<String>> {
    let mut names = Vec::new(alloc);
    list_folder(rt, alloc, folder, &mut names)?;
    names.sort()?;
    Ok(names)
}

/// Tries each case of the block that was read, and begins the next.
fn run_block<C: Command>(
    rt: &HostRuntime,
    alloc: Global,
    command: &C,
    name: &str,
    blocks: &mut Blocks,
    tally: &mut Tally,
) -> io::Result<()> {
    let line = blocks.line();
    let plans = blocks.plans()?;
    for plan in &plans {
        run_plan(rt, alloc, command, name, line, plan, tally)?;
    }
    Ok(())
}

fn run_plan<C: Command>(
    rt: &HostRuntime,
    alloc: Global,
    command: &C,
    name: &str,
    line: usize,
    plan: &Plan,
    tally: &mut Tally,
) -> io::Result<()> {
    match tried(alloc, command, plan) {
        Ok(found) => {
            tally.tried = tally.tried.saturating_add(found.calls);
            for wrong in &found.wrong {
                tally.wrong = tally.wrong.saturating_add(1);
                println!(rt; "{name}:{line}: {}: {wrong}", plan.title)?;
            }
            Ok(())
        }
        Err(Unread::Line(text)) => {
            tally.tried = tally.tried.saturating_add(1);
            tally.wrong = tally.wrong.saturating_add(1);
            println!(rt; "{name}:{line}: {}: unread: {text}", plan.title)
        }
        Err(Unread::NoMemory) => Err(io::Error::from(AllocError)),
    }
}

/// Runs the rows of a text.
fn run_text<C: Command>(
    rt: &HostRuntime,
    alloc: Global,
    command: &C,
    folder: &str,
    name: &str,
    text: &str,
) -> io::Result<Tally> {
    let mut tally = Tally { tried: 0, wrong: 0 };
    let mut blocks = Blocks::new(alloc);
    for (at, line) in text.lines().enumerate() {
        if blocks.is_ended_by(line) {
            run_block(rt, alloc, command, name, &mut blocks, &mut tally)?;
        }
        match named_file(line) {
            Some((def, file)) => {
                blocks.define(def, read_file(rt, alloc, folder, file)?.as_str())?
            }
            None => blocks.read(at, line)?,
        }
    }
    run_block(rt, alloc, command, name, &mut blocks, &mut tally)?;
    Ok(tally)
}

/// The name and the file of `let NAME from FILE`.
fn named_file(line: &str) -> Option<(&str, &str)> {
    line.strip_prefix("let ")?.split_once(" from ")
}

/// Runs the rows of a file, and prints their count.
fn run_file<C: Command>(
    rt: &HostRuntime,
    alloc: Global,
    command: &C,
    folder: &str,
    name: &str,
) -> io::Result<Tally> {
    let text = read_file(rt, alloc, folder, name)?;
    let tally = run_text(rt, alloc, command, folder, name, text.as_str())?;
    let (tried, wrong) = (tally.tried, tally.wrong);
    println!(rt; "{name}: {tried} calls, {wrong} not as stated")?;
    Ok(tally)
}

fn read_file(rt: &HostRuntime, alloc: Global, folder: &str, name: &str) -> io::Result<String> {
    let path = format!(in alloc; "{folder}/{name}")?;
    fs::read_to_string(rt, path.as_str())
}

/// Runs the rows of all files of a folder, prints each call that does not come out as stated, and a count for each
/// file, and says whether all is well: there is a file, each has a call, those of `*.rows` come out as stated, and those
/// of `*.wrong` do not.
pub fn run_folder<C: Command>(
    rt: &HostRuntime,
    alloc: Global,
    command: &C,
    folder: &str,
) -> io::Result<bool> {
    let names = names(rt, alloc, folder)?;
    let mut well = !names.is_empty();
    for name in &names {
        let tally = run_file(rt, alloc, command, folder, name.as_str())?;
        let wanted = if is_wrong(name.as_str()) {
            tally.tried
        } else {
            0
        };
        well = well && tally.wrong == wanted && tally.tried != 0;
    }
    Ok(well)
}
