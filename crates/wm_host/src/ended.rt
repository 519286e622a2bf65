//! How a command ended.
ghost use Rattle.std.specs.Prelude.{◌≡◌, ◌↔◌};

use crate::stop::Stop;
use wm_faults::Damage;

/// How a command ended.
#[derive(Clone, Copy, Debug, PartialEq, Eq)]
pub struct Ended {
    /// 0 where all was done, 2 where the words are not in the grammar, 3 for a fault of the source, 4 for
    /// one of the answers, 5 for one of the disk, 6 where the file is no store, 7 where the store is
    /// damaged, 8 where there is a store already, 9 where the script is longer than 2^30 bytes, 10 for want
    /// of memory, and 11 where another writer changed the store.
    pub status: u8,
    /// The lines whose whole answer was said; of a script drawn from a number, the lines that were run.
    pub lines: u64,
    pub place: Place,
}

/// Where a store is damaged.
#[derive(Clone, Copy, Debug, PartialEq, Eq)]
pub enum Place {
    /// No damage ended the command.
    Nowhere,
    /// The page and the first test of opening that fails, at status 7.
    Page { number: u64, kind: Damage },
}

impl Ended {
    ghost use Rattle.wm_host.specs.Status.{status_of, place_of};
    ghost use Rattle.wm_host.specs.Outcome.{IsPage};
    ghost use Rattle.wm_host.specs.declared.ended.Place.TheVariants.{Nowhere};

    /// The end for words that are not in the grammar.
    pub(crate) fn usage() -> Ended
        ensures status { result.status ≡ 2 }
        ensures lines { result.lines ≡ 0 }
        ensures place { result.place ≡ Nowhere }
    {
        Ended {
            status: 2,
            lines: 0,
            place: Place::Nowhere,
        }
    }

    /// The end for words that could not be read for want of memory.
    pub(crate) fn unread() -> Ended
        ensures status { result.status ≡ 10 }
        ensures lines { result.lines ≡ 0 }
        ensures place { result.place ≡ Nowhere }
    {
        Ended {
            status: 10,
            lines: 0,
            place: Place::Nowhere,
        }
    }

    /// The end of a command that so many lines were answered in.
    pub(crate) fn of(run: Result<(), Stop>, lines: u64) -> Ended
        ensures status { result.status ≡ status_of run }
        ensures lines { result.lines ≡ lines }
        ensures place { result.place ≡ place_of run }
        ensures page { (result.status ≡ 7) ↔ IsPage result.place }
    {
        let (status, place) = match run {
            Ok(()) => (0, Place::Nowhere),
            Err(Stop::SourceFault) => (3, Place::Nowhere),
            Err(Stop::SayFault) => (4, Place::Nowhere),
            Err(Stop::DiskFault) => (5, Place::Nowhere),
            Err(Stop::NotStore) => (6, Place::Nowhere),
            Err(Stop::Damaged { page, kind }) => (7, Place::Page { number: page, kind }),
            Err(Stop::Exists) => (8, Place::Nowhere),
            Err(Stop::InputLimit) => (9, Place::Nowhere),
            Err(Stop::Memory) => (10, Place::Nowhere),
            Err(Stop::Changed) => (11, Place::Nowhere),
        };
        Ended {
            status,
            lines,
            place,
        }
    }
}
