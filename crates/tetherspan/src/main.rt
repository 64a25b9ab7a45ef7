// tetherspan: reads a job from the file that its first argument names, or from standard input, and prints a line for each command.
#![tactic(auto)]

use anyhow::ensure;
use job::jobs::Job;
use job::printed::Printed;
use std::fs::File;
use std::io::{BufRead, BufReader, Read};
use std::{env, io};

// A refusal is put into words on standard error, where it disturbs nobody who reads the answers.
fn print(rt: &HostRuntime, number: u64, printed: Printed) -> io::Result<()> {
    println!(rt; "{printed}")?;
    if let Printed::Refused(refusal) = printed {
        let sentence = refusal.sentence();
        eprintln!(rt; "line {number}: {sentence}")?;
    }
    Ok(())
}

// Answers every line, and says whether each was read as a command.
fn answer<R: Read + Drop>(rt: &HostRuntime, input: R) -> anyhow::Result<bool> {
    let heap = rt.alloc();
    let mut job = Job::new(heap);
    // A flag, since a line that is not read must not stop the others.
    let mut all_read = true;
    for (number, line) in (1u64..).zip(BufReader::new(heap, input)?.split(heap, b'\n')) {
        if let Some(printed) = job.line(heap, number, &line?)? {
            print(rt, number, printed)?;
            all_read &= !matches!(printed, Printed::Unreadable { .. });
        }
    }
    Ok(all_read)
}

fn run(rt: &HostRuntime) -> anyhow::Result<()> {
    let all_read = match env::args(rt)?.nth(1) {
        Some(path) => answer(rt, File::open(rt, path)?)?,
        None => answer(rt, rt.stdin())?,
    };
    ensure!(all_read, "a line was not read as a command");
    Ok(())
}

fn main(rt: HostRuntime) -> anyhow::Result<()> {
    run(&rt)
}
