//! gh: routes that are proved least. The program is `run` of `gh_serve` on the real files, standard
//! input and standard output.
#![tactic(auto)]

mod outside;

use gh_base::{FreeGate, NoMemory};
use gh_serve::{Status, fault_text, run};
use outside::{DiskFiles, StdinSource, StdoutSink};
use std::alloc::{AllocError, Global};
use std::process::ExitCode;
use std::rt::Env;
use std::{env, io};

/// The words after the program's name.
fn words_of(alloc: Global, rt: &(impl Env + AllocGlobal)) -> io::Result<Vec<String>> {
    let mut words = Vec::new(alloc);
    let mut is_program = true;
    for word in env::args(rt)? {
        if is_program {
            is_program = false;
        } else {
            words.push(word)?;
        }
    }
    Ok(words)
}

/// The number that the process ends with.
const fn number_of(status: &Status) -> u8 {
    match status {
        Status::Done => 0,
        Status::Usage => 2,
        Status::NoMemory => 3,
        Status::OpenFault => 4,
        Status::ReadFault(_) => 5,
        Status::WriteFault => 6,
        Status::BadMap(_) => 7,
        Status::BadScript { .. } => 8,
        Status::TooLarge { .. } => 9,
        Status::BadPrep(_) => 11,
        Status::NoLandmark => 12,
    }
}

/// Why there is no run where the program's own words can't be read.
fn status_without_words(error: &io::Error) -> Status {
    match error.kind() {
        io::ErrorKind::OutOfMemory => Status::NoMemory,
        _ => Status::Usage,
    }
}

/// The text on one line: a control character, which a name out of a map may hold, becomes a `?`.
fn on_one_line(alloc: Global, text: &str) -> Result<String, AllocError> {
    let mut line = String::new(alloc);
    for c in text.chars() {
        line.push(if c.is_control() { '?' } else { c })?;
    }
    Ok(line)
}

/// The line that says why the run ended so.
fn line_of(alloc: Global, status: &Status) -> Result<String, NoMemory> {
    let text = fault_text(alloc, status)?;
    Ok(on_one_line(alloc, text.as_str())?)
}

/// Says on standard error why the run ended so. Nothing can be done where that fails.
fn report(alloc: Global, rt: &impl Eprint, status: &Status) {
    let _ = match line_of(alloc, status) {
        Ok(line) => rt.eprintln(line.as_str()),
        Err(NoMemory) => rt.eprintln("gh: no memory"),
    };
}

fn main(rt: HostRuntime) -> ExitCode {
    let alloc = rt.alloc();
    let mut files = DiskFiles::new(&rt);
    let mut script = StdinSource::new(rt.reader());
    let mut out = StdoutSink::new(io::writer(&rt));
    let status = match words_of(alloc, &rt) {
        Ok(words) => run(
            &rt,
            alloc,
            &words,
            &mut files,
            &mut script,
            &mut out,
            &FreeGate,
        ),
        Err(error) => status_without_words(&error),
    };
    if let Status::Done = status {
        return ExitCode::from(0);
    }
    report(alloc, &rt, &status);
    ExitCode::from(number_of(&status))
}
