//! The state between two lines, and what a line does to it.
ghost use Rattle.std.specs.Prelude.{◌≡◌, ◌<◌, ◌≤◌, ◌⊎◌, true, false, OnOk, IfOk, IfErr, IsErrOf};
ghost use Rattle.wm_base.specs.declared.instant.TheConstants.{END};
ghost use Rattle.wm_engine.specs.Lines.{LineDone, LineFaults, LineKeeps};
ghost use Rattle.wm_engine.specs.Working.{FileStands, HoldsSorted, LeavesAlone, StandsFor, WorksOver, Tells};
ghost use Rattle.wm_faults.specs.declared.fault.MakeFault.TheVariants as making;
ghost use Rattle.wm_faults.specs.declared.fault.OpenFault.TheVariants as opening;
ghost use Rattle.wm_graph.specs.Parts.{parts_of};
ghost use Rattle.wm_graph.specs.Rules.{keep_rules};
ghost use Rattle.wm_journal.specs.Disk.{is_made};
ghost use Rattle.wm_journal.specs.Store.{Settles};
ghost use Rattle.wm_page.specs.Cause.{MakeCause, OpenCause};
ghost use Rattle.wm_state.specs.State.{State, begin, fresh};
ghost use Rattle.wm_station.specs.History.{now, said, Leaves, Synced};
ghost use Rattle.wm_station.specs.Moments.{During, Holds};
ghost use Rattle.wm_store.specs.Opened.{HoldsAs};

use crate::fault::LineFault;
use crate::keep::run_line;
use crate::reply::Reply;
use std::alloc::Global;
use std::marker::Model;
use wm_base::Instant;
use wm_faults::{Damage, MakeFault, OpenFault};
use wm_image::{Image, ImageFault};
use wm_plan::session::Session;
use wm_station::Station;
use wm_store::Store;

/// The engine over a store: its records, the sessions that are open, and the moment.
#[derive(Drop)]
pub struct Engine {
    store: Store,
    /// The records in memory. There are none once a line was not answered: the engine is given up then.
    image: Option<Image>,
    sessions: Vec<Session>,
    moment: u64,
}

impl Model for Engine {
    ghost use Rattle.std.specs.Prelude.{◌≡◌, ◌<◌, [], true, unwrap_or, IfSome};
    ghost use Rattle.wm_base.specs.declared.instant.TheConstants.{END};
    ghost use Rattle.wm_graph.specs.Parts.{parts_of};
    ghost use Rattle.wm_graph.specs.Rules.{keep_rules};
    ghost use Rattle.std.specs.Coded.{codes};
    ghost use Rattle.wm_engine.specs.Working.{Engaged};
    ghost use Rattle.wm_store.specs.contracts.store.Store.{the_row};

    ghost Value = { Engaged };

    ghost coded = { Prim.hlevel (codes, the_row.coded) };

    ghost view = { λ e. record { store = e.store; records = unwrap_or e.image []; sessions = e.sessions.items; moment = e.moment } };

    ghost invariant = { λ e. IfSome e.image (λ records. keep_rules (parts_of records) ≡ true) × (e.moment < END) };
}

impl Engine {
    /// Makes a store that takes this many changes, 1 to 1,048,576.
    pub fn make<P: Station>(alloc: Global, station: &mut P, limit: u32) -> Result<(), MakeFault>
        requires { (1 ≤ limit) × (limit ≤ 1048576) }
        ensures fresh { P.tells → OnOk result (Holds (P.history station.new) (λ file. FileStands file (fresh limit))) }
        ensures absent { P.tells → OnOk result (is_made (now (P.history station.old)) ≡ false) }
        ensures exists { P.tells → IsErrOf result making.Exists → (is_made (now (P.history station.old)) ≡ true) × (P.history station.new ≡ P.history station.old) }
        // A store that is there is never touched, whatever the answer.
        ensures kept { P.tells → is_made (now (P.history station.old)) ≡ true → P.history station.new ≡ P.history station.old }
        ensures quiet { P.tells → said (P.history station.new) ≡ said (P.history station.old) }
        ensures cause { MakeCause (P.disk_faults station.old) (P.disk_faults station.new) result }
        ensures say_quiet { P.say_faults station.new ≡ P.say_faults station.old }
    {
        Store::make(alloc, station, limit)?;
        Ok(())
    }

    /// Opens the store on a station, to begin a run at a moment.
    pub fn open<P: Station>(
        alloc: Global,
        station: &mut P,
        moment: Instant,
    ) -> Result<Engine, OpenFault>
        requires { moment < END }
        // What each answer says of the file as it was.
        ensures fault { P.tells → IfErr result (λ e. Tells e (now (P.history station.old))) }
        ensures works { P.tells → IfOk result (λ e. WorksOver e (P.history station.new)) }
        // Ok comes only where the file was a store whose records keep the rules, and the engine has these.
        ensures opened { P.tells → IfOk result (λ e. HoldsSorted (now (P.history station.old)) e.records) }
        ensures rules { IfOk result (λ e. keep_rules (parts_of e.records) ≡ true) }
        ensures begins { P.tells → IfOk result (λ e. (s : State) → FileStands (now (P.history station.old)) s → StandsFor e (begin s moment)) }
        // A crash at any moment leaves what one could leave before, or a file that stands for what this one stood for.
        ensures any_moment { P.tells → (s : State) → FileStands (now (P.history station.old)) s → During (P.history station.old) (P.history station.new) (λ c out. (Leaves (P.history station.old) c ⊎ FileStands c s) × (out ≡ said (P.history station.old))) }
        ensures quiet { P.tells → said (P.history station.new) ≡ said (P.history station.old) }
        // Whatever the answer, the file stands for what it stood for; where it is no store, nothing was written.
        ensures keeps { P.tells → (s : State) → FileStands (now (P.history station.old)) s → FileStands (now (P.history station.new)) s }
        ensures untouched { P.tells → IsErrOf result opening.NotStore → now (P.history station.new) ≡ now (P.history station.old) }
        // Whatever the file was, its pages are held as they were, now and after a crash at any moment.
        ensures pages { P.tells → HoldsAs (now (P.history station.old)) (now (P.history station.new)) }
        ensures pages_any_moment { P.tells → During (P.history station.old) (P.history station.new) (λ c out. (Leaves (P.history station.old) c ⊎ HoldsAs (now (P.history station.old)) c) × (out ≡ said (P.history station.old))) }
        // It syncs first, and a crash behind that leaves a file whose pages are held as they were.
        ensures settles { P.tells → Settles (P.history station.old) (P.history station.new) (HoldsAs (now (P.history station.old))) }
        // One that is no store, or whose page 0 is short, of another format or has no journal in order, was only synced.
        ensures synced { P.tells → IfErr result (λ e. LeavesAlone e → P.history station.new ≡ Synced (P.history station.old)) }
        ensures cause { OpenCause (P.disk_faults station.old) (P.disk_faults station.new) result }
        ensures say_quiet { P.say_faults station.new ≡ P.say_faults station.old }
    {
        let (store, records) = Store::open(alloc, station)?;
        let image = match Image::load(alloc, records) {
            Ok(image) => image,
            Err(ImageFault::Graph) => {
                drop(store);
                return Err(OpenFault::Damaged {
                    page: 0,
                    kind: Damage::Graph,
                });
            }
            Err(ImageFault::Memory) => {
                drop(store);
                return Err(OpenFault::Memory);
            }
        };
        let moment = moment.seconds().max(image.counters().last_moment);
        Ok(Engine {
            store,
            image: Some(image),
            sessions: Vec::new(alloc),
            moment,
        })
    }

    /// Runs a line: what it changes is on the disk when this gives its answer. After a fault the engine is
    /// given up, and the store is to be opened again.
    pub fn line<P: Station>(
        &mut self,
        alloc: Global,
        station: &mut P,
        line: &[u8],
    ) -> Result<Reply, LineFault>
        requires works { P.tells → WorksOver self.old (P.history station.old) }
        ensures done { IfOk result (LineDone P.tells line.now self.old self.new (P.history station.old) (P.history station.new)) }
        ensures keeps { LineKeeps P.tells line.now self.old (P.history station.old) (P.history station.new) }
        ensures faults { LineFaults P.Station station.old station.new result }
    {
        let Some(mut image) = self.image.take() else {
            return Err(LineFault::Memory);
        };
        match run_line(
            alloc,
            station,
            &mut self.store,
            &mut self.sessions,
            &mut image,
            self.moment,
            line,
        ) {
            Ok(kept) => {
                // What was in its place, which is nothing, is let go by one call.
                drop(self.image.replace(image));
                self.moment = kept.moment;
                Ok(kept.reply)
            }
            Err(fault) => {
                // The records need not be those of the file any more.
                drop(image);
                Err(fault)
            }
        }
    }
}
