//! A workspace is born in another, at a savepoint that is made for it.
ghost use Rattle.std.specs.Prelude.{◌≡◌, ◌∷◌, [], nat_lt, true, false, IfOk, IfErr};
ghost use Rattle.wm_graph.specs.Parts.{parts_of};
ghost use Rattle.wm_graph.specs.Rules.{keep_rules};
ghost use Rattle.wm_changes.specs.Ids.{HasGreatId};
ghost use Rattle.wm_lifecycle.specs.Points.{point_view};
ghost use Rattle.wm_state.specs.Drafts.{CanBear, CanWork, DraftsBy};
ghost use Rattle.wm_state.specs.Editing.{number_limit, stand_of};
ghost use Rattle.wm_state.specs.Points.{child_record, child_turn, child_version, next_place_at};
ghost use Rattle.wm_state.specs.Standing.{space_after};
ghost use Rattle.wm_state.specs.declared.edit.Edit.TheVariants as edits;

use crate::batches::{birth_changes, savepoint_changes};
use crate::points::{Point, made_at, point_at};
use std::alloc::Global;
use wm_base::Name;
use wm_changes::DraftFault;
use wm_changes::changes::marked;
use wm_changes::counts::{ids_from, versioned};
use wm_changes::names::implicit_name;
use wm_image::Image;
use wm_spec::record::{Changes, Counters, FreezeMode, Space, Turn, Version};

/// How many new ids the records of a birth take: a savepoint, a workspace, a version and a turn.
const BIRTH_IDS: u64 = 4;

/// The workspace's next place once a savepoint was made there.
fn next_place_at(space: &Space, at: Option<u64>) -> u32
    requires { nat_lt number_limit (next_place_at space.now (stand_of at)) ≡ false }
    ensures { result ≡ next_place_at space.now (stand_of at) }
{
    match at {
        None => space.next_place + 1,
        Some(_) => space.next_place,
    }
}

/// What is new of a workspace that is born: itself, a version of its own, and the turn of its birth.
#[derive(Drop)]
struct Newborn {
    child: Space,
    version: Version,
    turn: Turn,
}

/// What is new of a workspace that is born at a moment, at a point of another, the counters being these.
fn born_at(
    alloc: Global,
    image: &Image,
    counters: Counters,
    name: Name,
    parent: &Space,
    born: u64,
    point: Point,
) -> Newborn
    requires numbers { nat_lt number_limit (space_after (parts_of image.now).spaces) ≡ false }
    ensures child { result.child ≡ child_record (parts_of image.now) parent.now born name (point_view point) }
    ensures version { result.version ≡ child_version (parts_of image.now) counters (point_view point) }
    ensures turn { result.turn ≡ child_turn (parts_of image.now) (point_view point) }
{
    let number = image.next_space() as u32;
    let child = Space {
        number,
        name,
        parent: parent.number,
        born,
        birth_version: point.version,
        birth_place: point.place,
        base_version: point.version,
        from: point.log_length,
        log_length: 0,
        rebases: 0,
        next_place: 1,
        next_implicit: 1,
        freeze: FreezeMode::Free,
        writer: Name::from_vec(Vec::new(alloc)),
    };
    let version = Version {
        number: counters.next_version,
        space: number,
        parent: point.version,
    };
    let turn = Turn {
        space: number,
        rebase: 0,
        log_length: point.log_length,
        rebases: point.rebases,
    };
    Newborn {
        child,
        version,
        turn,
    }
}

/// A workspace of a name is born in another where one stands there.
pub fn bear(
    alloc: Global,
    image: &Image,
    moment: u64,
    work: u64,
    parent: u32,
    at: Option<u64>,
    name: Name,
) -> Result<Changes, DraftFault>
    requires rules { keep_rules (parts_of image.now) ≡ true }
    requires work { CanWork (parts_of image.now) moment work }
    requires can { CanBear (parts_of image.now) moment parent at name }
    ensures drafts { IfOk result (DraftsBy work image.now moment (edits.Bear parent at name ∷ [])) }
    ensures full { IfErr result (λ fault. fault ≡ DraftFault.Ids → HasGreatId image.now) }
{
    let id = ids_from(image, BIRTH_IDS)?;
    let space = image.space(parent).unwrap();
    let space_id = image.id_of_space(parent).unwrap();
    let point = point_at(image, moment, space, at).unwrap();
    let implicit = implicit_name(alloc, space.next_implicit)?;
    let savepoint = made_at(image, space, implicit, true, point);
    let counters = image.counters();
    let counted = versioned(counters, moment, work);
    let new = marked(
        alloc,
        next_place_at(space, at),
        space.next_implicit + 1,
        space,
    )?;
    let counters_id = image.id_of_counters();
    let saved = savepoint_changes(alloc, counters_id, counted, space_id, new, id, savepoint)?;
    let born = born_at(alloc, image, counters, name, space, moment, point);
    let changes = birth_changes(alloc, saved, id, born.child, born.version, born.turn)?;
    Ok(changes)
}
