//! A line over a store: what it does is planned and printed, and only then kept.
ghost use Rattle.std.specs.Prelude.{◌≡◌, ◌<◌, true, OnOk, IfOk};
ghost use Rattle.wm_base.specs.declared.instant.TheConstants.{END};
ghost use Rattle.wm_engine.specs.Lines.{LineDone, LineFaults, LineKeeps, Writes};
ghost use Rattle.wm_engine.specs.Working.{KeepsOver, engaged};
ghost use Rattle.wm_graph.specs.Parts.{parts_of};
ghost use Rattle.wm_graph.specs.Rules.{keep_rules};
ghost use Rattle.wm_model.specs.Planning.{seated};
ghost use Rattle.wm_plan.specs.Views.{seating_view};
ghost use Rattle.wm_state.specs.Drafts.{CanDraft};

use crate::commit::commit;
use crate::fault::LineFault;
use crate::plan::line::plan;
use crate::print::reply_of;
use crate::reply::Reply;
use std::alloc::Global;
use wm_draft::draft;
use wm_image::Image;
use wm_plan::planned::{Changed, Planned, Timed};
use wm_plan::seating::seat;
use wm_plan::session::Session;
use wm_state::edit::Edit;
use wm_station::Station;
use wm_store::Store;

/// The moment that a line left, and its answer.
#[derive(Drop)]
pub struct Kept {
    pub moment: u64,
    pub reply: Reply,
}

/// Drafts edits of the records, commits what they change, and makes it of the records.
fn write<P: Station>(
    alloc: Global,
    station: &mut P,
    store: &mut Store,
    image: &mut Image,
    moment: u64,
    edits: Vec<Edit>,
) -> Result<(), LineFault>
    requires rules { keep_rules (parts_of image.old) ≡ true }
    requires can { CanDraft image.old moment edits.items }
    requires works { P.tells → KeepsOver store.old image.old (P.history station.old) }
    ensures writes { Writes P.tells moment edits.items store.old store.new image.old image.new (P.history station.old) (P.history station.new) result }
    ensures faults { LineFaults P.Station station.old station.new result }
{
    let batch = draft(alloc, image, moment, edits)?;
    match commit(alloc, station, store, &batch) {
        Ok(()) => {
            image.apply(alloc, batch)?;
            Ok(())
        }
        Err(fault) => {
            drop(batch);
            Err(fault)
        }
    }
}

/// Does to the records, the store and the sessions what a line changes. After a fault the records need not be those of
/// the store, and are given up.
fn keep<P: Station>(
    alloc: Global,
    station: &mut P,
    store: &mut Store,
    sessions: &mut Vec<Session>,
    image: &mut Image,
    moment: u64,
    changed: Changed,
) -> Result<(), LineFault>
    requires rules { keep_rules (parts_of image.old) ≡ true }
    requires can { CanDraft image.old moment changed.edits.items }
    requires works { P.tells → KeepsOver store.old image.old (P.history station.old) }
    ensures writes { Writes P.tells moment changed.edits.items store.old store.new image.old image.new (P.history station.old) (P.history station.new) result }
    ensures sessions { OnOk result (sessions.new.items ≡ seated sessions.old.items (seating_view changed.seating)) }
    ensures faults { LineFaults P.Station station.old station.new result }
{
    let Changed { edits, seating } = changed;
    match write(alloc, station, store, image, moment, edits) {
        Ok(()) => {
            seat(alloc, sessions, seating)?;
            Ok(())
        }
        Err(fault) => {
            drop(seating);
            Err(fault)
        }
    }
}

/// Runs a line over the records of a store. After a fault the records are given up.
pub fn run_line<P: Station>(
    alloc: Global,
    station: &mut P,
    store: &mut Store,
    sessions: &mut Vec<Session>,
    image: &mut Image,
    moment: u64,
    line: &[u8],
) -> Result<Kept, LineFault>
    requires rules { keep_rules (parts_of image.old) ≡ true }
    requires moment { moment < END }
    requires works { P.tells → KeepsOver store.old image.old (P.history station.old) }
    ensures done { IfOk result (λ k. LineDone P.tells line.now (engaged store.old image.old sessions.old.items moment) (engaged store.new image.new sessions.new.items k.moment) (P.history station.old) (P.history station.new) k.reply) }
    ensures moment { IfOk result (λ k. k.moment < END) }
    ensures keeps { LineKeeps P.tells line.now (engaged store.old image.old sessions.old.items moment) (P.history station.old) (P.history station.new) }
    ensures faults { LineFaults P.Station station.old station.new result }
{
    let Timed {
        planned,
        moment: after,
    } = plan(alloc, image, sessions.as_slice(), moment, line)?;
    let Planned {
        edits,
        seating,
        answer,
    } = planned;
    let changed = Changed { edits, seating };
    let reply = match reply_of(alloc, answer) {
        Ok(reply) => reply,
        Err(memory) => {
            drop(changed);
            return Err(LineFault::from(memory));
        }
    };
    image.law_of_order();
    match keep(alloc, station, store, sessions, image, moment, changed) {
        Ok(()) => Ok(Kept {
            moment: after,
            reply,
        }),
        Err(fault) => {
            drop(reply);
            Err(fault)
        }
    }
}
