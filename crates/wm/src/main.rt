//! The program: `wm STORE WORDS..`. A script comes from standard input, answers go to standard output.
#![tactic(auto)]

use std::io::ErrorKind;
use std::process::ExitCode;
use std::{env, io};
use wm_faults::Damage;
use wm_host::{Ended, Place, run};
use wm_station::{FileStation, StreamSource};
use wm_words::{Command, command_of};

/// The first argument is the program's name, and the second the store's path.
const PATH: usize = 1;

/// Where the words begin.
const WORDS_BEGIN: usize = 2;

fn main(rt: HostRuntime) -> ExitCode {
    let ended = match arguments(&rt) {
        Ok(arguments) => play(&rt, &arguments),
        Err(error) if error.kind() == ErrorKind::OutOfMemory => ended(10),
        Err(_) => ended(2),
    };
    complain(&rt, &ended);
    ExitCode::from(ended.status)
}

/// The end of a run that did not begin.
fn ended(status: u8) -> Ended {
    Ended {
        status,
        lines: 0,
        place: Place::Nowhere,
    }
}

/// The arguments in order. One that is not UTF-8 is an error.
fn arguments(rt: &HostRuntime) -> io::Result<Vec<String>> {
    let mut arguments = Vec::new(rt.alloc());
    for argument in env::args(rt)? {
        arguments.push(argument)?;
    }
    Ok(arguments)
}

/// Runs the words behind the path, over the file at the path, which no other run has meanwhile. Where there
/// is none, `init` alone makes it.
fn play(rt: &HostRuntime, arguments: &[String]) -> Ended {
    if arguments.len() < WORDS_BEGIN {
        return ended(2);
    }
    let words = &arguments[WORDS_BEGIN..];
    let path = arguments[PATH].as_str();
    let mut station = match command_of(rt.alloc(), words) {
        Ok(Some(Command::Init { .. })) => FileStation::open(rt, path, rt.stdout()),
        Ok(Some(Command::Run { .. } | Command::Check | Command::Load { .. })) => {
            FileStation::open_existing(rt, path, rt.stdout())
        }
        Ok(None) => return ended(2),
        Err(_) => return ended(10),
    };
    let mut source = StreamSource::new(rt.stdin());
    run(rt.alloc(), words, &mut source, &mut station)
}

/// Says on standard error why the run ended, where it did not end well.
fn complain(rt: &HostRuntime, ended: &Ended) {
    if let Place::Page { number, kind } = ended.place {
        // Nobody is left to tell where standard error fails too.
        let _ = eprintln!(rt; "wm: damaged page {number} {}", kind_text(kind));
        return;
    }
    let text = match ended.status {
        2 => "wm: usage",
        3 => "wm: source fault",
        4 => "wm: say fault",
        5 => "wm: disk fault",
        6 => "wm: not a store",
        8 => "wm: store exists",
        9 => "wm: input limit",
        10 => "wm: out of memory",
        11 => "wm: store changed",
        _ => return,
    };
    let _ = rt.eprintln(text);
}

fn kind_text(kind: Damage) -> &'static str {
    match kind {
        Damage::Short => "short",
        Damage::Format => "format",
        Damage::Journal => "journal",
        Damage::Root => "root",
        Damage::Slots => "slots",
        Damage::Record => "record",
        Damage::Twice => "twice",
        Damage::Graph => "graph",
    }
}
