//! A CANopen device node on the command line. It checks, lints, shows and adapts data sheets;
//! decodes CAN traces as `candump -L` writes them, and converts other recorders' logs to such
//! traces; explains recordings, counts their frames, and compares a recorded device with its data
//! sheet; plays a trace to the device of a data sheet, and lets an SDO client download to it.
//! Each command has a module, so that `bin/build.py` can build a program with some of them.
#![tactic(auto)]

mod adapt;
mod check;
mod colours;
mod compare;
mod convert;
mod decode;
mod device;
mod dictionary;
mod explain;
mod lint;
mod log_form;
mod loop_back;
mod replay;
mod show;
mod stats;
mod version;

use crate::adapt::adapt;
use crate::check::check;
use crate::compare::compare;
use crate::convert::convert;
use crate::decode::decode;
use crate::explain::explain;
use crate::lint::lint;
use crate::loop_back::loop_back;
use crate::replay::{first_run, replay};
use crate::show::show;
use crate::stats::stats;
use conode_io::{CmdFault, stopped};
use conode_words::{Task, task};
use std::io::{BufWriter, Write};
use std::process::ExitCode;
use std::{env, io};

/// Does what the words ask for.
fn carry_out_task<O: Write, E: Write>(
    rt: &HostRuntime,
    task: &Task<'_>,
    out: &mut O,
    err: &mut E,
) -> ExitCode {
    match task {
        Task::Check(words) => check(rt, words, out, err),
        Task::Lint(words) => lint(rt, words, out, err),
        Task::Decode(words) => decode(rt, words, out, err),
        Task::Replay(words) => replay(rt, words, out, err),
        Task::LoopBack(words) => loop_back(rt, words, out, err),
        Task::Show(words) => show(rt, words, out, err),
        Task::Adapt(words) => adapt(rt, words, out, err),
        Task::Explain(words) => explain(rt, words, out, err),
        Task::Stats(words) => stats(rt, words, out, err),
        Task::Compare(words) => compare(rt, words, out, err),
        Task::Convert(words) => convert(rt, words, out, err),
    }
}

/// Does what the words ask for; without a subcommand it plays standard input to a stored device.
fn carry_out<O: Write, E: Write>(
    rt: &HostRuntime,
    words: &[&str],
    out: &mut O,
    err: &mut E,
) -> ExitCode {
    match task(rt.alloc(), words) {
        Ok(Some(task)) => carry_out_task(rt, &task, out, err),
        Ok(None) => first_run(rt, out, err),
        Err(error) => {
            let _ = error.print(rt);
            ExitCode::from(error.exit_code() as u8)
        }
    }
}

/// Takes the words of the command line and does what they ask for.
fn run_words<E: Write>(rt: &HostRuntime, err: &mut E) -> io::Result<ExitCode> {
    let alloc = rt.alloc();
    let given: Vec<String> = env::args(rt)?.collect(alloc)?;
    let mut words = Vec::new(alloc);
    for word in &given {
        words.push(word.as_str())?;
    }
    let mut out = BufWriter::new(alloc, io::writer(rt))?;
    Ok(carry_out(rt, words.as_slice(), &mut out, err))
}

fn main(rt: HostRuntime) -> ExitCode {
    let stderr = rt.stderr();
    let mut err = io::writer(&stderr);
    match run_words(&rt, &mut err) {
        Ok(status) => status,
        Err(fault) if fault.kind() == io::ErrorKind::OutOfMemory => {
            stopped(CmdFault::Memory, &mut io::writer(&rt), &mut err).status()
        }
        Err(_) => {
            let _ = eprintln!(rt; "error: a word of the command line isn't UTF-8");
            ExitCode::from(2)
        }
    }
}
