//! What a session looks at: what it reads of each table, the workspace in which it stands, and the one whose conflicts it
//! looks at.
ghost use Rattle.std.specs.Prelude.{◌≡◌, Some, map, true};
ghost use Rattle.wm_graph.specs.Parts.{parts_of, space_of};
ghost use Rattle.wm_graph.specs.Rules.{keep_rules};
ghost use Rattle.wm_model.specs.Looking.{IsFamilyOf, IsLook, conflicting_space};
ghost use Rattle.wm_model.specs.Planning.{version_read};
ghost use Rattle.wm_model.specs.Sources.{reading_at};
ghost use Rattle.wm_state.specs.Reading.{making_from};
ghost use Rattle.wm_state.specs.Standing.{saved_fields, saved_in};
ghost use Rattle.wm_state.specs.State.{Dated};
ghost use Rattle.wm_views.specs.Looking.{family_view, look_view, reading_view};

use wm_image::Image;
use wm_plan::session::{Session, Stand};
use wm_spec::record::{Space, Table};

/// A workspace and its parent.
#[derive(Clone, Copy)]
pub struct Family<'a> {
    pub space: &'a Space,
    pub parent: &'a Space,
}

/// What a session looks at, at a moment.
#[derive(Clone, Copy)]
pub struct Look<'a> {
    pub moment: u64,
    pub session: &'a Session,
    /// The workspace in which it stands.
    pub home: &'a Space,
    /// The workspace whose conflicts it looks at, where that has a parent.
    pub family: Option<Family<'a>>,
}

/// What is read of a table.
#[derive(Clone, Copy)]
pub enum Reading {
    /// What the version of a number holds. No version has the number 0.
    Version(u64),
    /// What stood in the workspace of the session on a date, in seconds.
    Day(u64),
}

/// The version that is read at what is newest in a workspace, or at the savepoint of a making.
fn version_at(image: &Image, space: u32, making: Option<u64>) -> u64
    ensures { result ≡ version_read (parts_of image.now) space making }
{
    match making {
        None => image.latest(space),
        Some(making) => match image.savepoint(space, making) {
            Some(savepoint) => savepoint.version,
            None => 0,
        },
    }
}

/// The making of the first savepoint of a workspace whose place was made on a date or later.
fn making_from(image: &Image, space: u32, date: u64) -> Option<u64>
    ensures { result ≡ making_from date (map saved_fields (saved_in (parts_of image.now) space)) }
{
    match image.savepoint_from(space, date) {
        Some(savepoint) => Some(savepoint.making),
        None => None,
    }
}

/// What is read of a table on a date in a workspace.
fn reading_on(image: &Image, space: u32, date: u64, table: &Table) -> Reading
    ensures { reading_view result ≡ reading_at (parts_of image.now) space (Dated date) table.now }
{
    if table.history {
        return Reading::Day(date);
    }
    let making = making_from(image, space, date);
    Reading::Version(version_at(image, space, making))
}

/// What a session reads of a table.
pub fn reading_of(image: &Image, session: &Session, table: &Table) -> Reading
    ensures { reading_view result ≡ reading_at (parts_of image.now) session.now.space session.now.stand table.now }
{
    let space = session.space();
    match session.stand() {
        Stand::Latest => Reading::Version(version_at(image, space, None)),
        Stand::At(making) => Reading::Version(version_at(image, space, Some(making))),
        Stand::Dated(date) => reading_on(image, space, date, table),
    }
}

/// The workspace whose conflicts are looked at by one who stands in this one.
fn conflicting_space<'a>(image: &'a Image, session: &Session, home: &'a Space) -> &'a Space
    ensures { result.now ≡ conflicting_space (parts_of image.now).spaces session.now.conflict home.now }
{
    match session.conflict() {
        Some(name) => match image.space_named(name.as_bytes()) {
            Some(space) => space,
            None => home,
        },
        None => home,
    }
}

/// A workspace with its parent, unless it is LIVE.
fn family_of<'a>(image: &'a Image, space: &'a Space) -> Option<Family<'a>>
    requires rules { keep_rules (parts_of image.now) ≡ true }
    requires there { space_of (parts_of image.now).spaces space.now.number ≡ Some space.now }
    ensures { IsFamilyOf (parts_of image.now) space.now (family_view result) }
{
    if space.number == 0 {
        return None;
    }
    let parent = image.space(space.parent).unwrap();
    Some(Family { space, parent })
}

/// What a session looks at that stands in a workspace.
pub fn look_of<'a>(image: &'a Image, moment: u64, session: &'a Session, home: &'a Space) -> Look<'a>
    requires rules { keep_rules (parts_of image.now) ≡ true }
    requires home { space_of (parts_of image.now).spaces session.now.space ≡ Some home.now }
    ensures moment { result.moment ≡ moment }
    ensures session { result.session.now ≡ session.now }
    ensures look { IsLook (parts_of image.now) moment session.now (look_view (parts_of image.now) result) }
{
    let space = conflicting_space(image, session, home);
    Look {
        moment,
        session,
        home,
        family: family_of(image, space),
    }
}
