//! The commands of the program.
ghost use Rattle.std.specs.Prelude.{map, string_bytes};
ghost use Rattle.wm_host.specs.Ends.{Ends};
ghost use Rattle.wm_words.specs.Words.{command_of as command_in};

use crate::check::check;
use crate::ended::Ended;
use crate::load::load;
use crate::store::{init, run_store};
use std::alloc::Global;
use wm_station::{Source, Station};
use wm_words::{Command, command_of};

/// Runs the command that the words give. `init --limit N` makes a store that takes N changes, and says
/// `OK`. `run --now T` opens the store, takes the source as a script, and says the answer to each of its
/// lines; what a line changes is kept before it is answered. `check` opens the store, which writes out what
/// a run before left in its journal, and says `OK`. `load --seed S --lines M` opens the store, runs the script
/// of M lines and eight that S draws, and says how many lines it has and how many answers of each kind. In
/// place of the space behind an option `=` may stand. The numbers have 1 to 20 digits: N is from 1 to
/// 1,048,576, S below 2^64, and M at most 1,000,000; T is a date, or a date and a time with a space or a `T`
/// between them. Any other words end with status 2. Reading the words may want memory.
///
/// `Ends` says of each command what its status tells, what was said, what the file stands for, and what a
/// crash at any moment leaves: from each state that the file stood for.
pub fn run<S: Source, P: Station>(
    alloc: Global,
    words: &[String],
    source: &mut S,
    station: &mut P,
) -> Ended
    ensures { Ends S.Source P.Station (command_in (map string_bytes words.now)) source.old source.new station.old station.new result }
{
    let Ok(read) = command_of(alloc, words) else {
        return Ended::unread();
    };
    let Some(command) = read else {
        return Ended::usage();
    };
    match command {
        Command::Init { limit } => init(alloc, station, limit),
        Command::Run { moment } => run_store(alloc, source, station, moment),
        Command::Check => check(alloc, station),
        Command::Load { seed, lines } => load(alloc, station, seed, lines),
    }
}
