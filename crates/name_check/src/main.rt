// name_check [COLUMNS [LEVEL]]: reads a list of names, and writes for each whether a panel takes it, or why not and where.
#![tactic(auto)]

use names::report::report;
use names::settings::{Misuse, settings_of};
use std::env;
use std::io::{Read, Write};
use std::process::ExitCode;

// The longest list that is read, in bytes.
const LIMIT: usize = 1_048_576;

fn run(rt: &HostRuntime) -> anyhow::Result<String> {
    let heap = rt.alloc();
    let Ok(args) = env::args(rt) else {
        return Err(Misuse::Unreadable.into());
    };
    let words: Vec<String> = args.skip(1).collect(heap)?;
    let settings = settings_of(words.as_slice())?;
    let mut list = Vec::new(heap);
    // One byte more, to tell a list that is too long. No `From` takes a `usize` to a `u64`.
    rt.stdin().take(LIMIT as u64 + 1).read_to_end(&mut list)?;
    if list.len() > LIMIT {
        return Err(Misuse::Length.into());
    }
    Ok(report(heap, settings, list.as_slice())?)
}

fn main(rt: HostRuntime) -> ExitCode {
    match run(&rt) {
        Ok(text) => match rt.stdout().write_all(text.as_bytes()) {
            Ok(()) => ExitCode::SUCCESS,
            Err(_) => ExitCode::FAILURE,
        },
        Err(error) => {
            // The status is the same whether or not the sentence can be written.
            let _told = eprintln!(rt; "name_check: {error}");
            ExitCode::FAILURE
        }
    }
}
