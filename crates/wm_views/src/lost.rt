//! What the sources of a query ask for that is not there: workspaces and savepoints, by the names that were set for the
//! session.
ghost use Rattle.std.specs.Prelude.{◌≡◌};
ghost use Rattle.std.specs.Option.{option_copied};
ghost use Rattle.wm_syntax.specs.Views.{srcs_view};
ghost use Rattle.wm_ground.specs.Grounds.{outline_on};
ghost use Rattle.wm_model.specs.Step.{first_lost, savepoint_lost, workspace_lost};

use wm_base::Name;
use wm_ground::ground::Ground;
use wm_plan::session::Session;
use wm_syntax::query::Src;
use wm_view_rows::view::{View, view_named};

/// The name of a workspace that a view asks for, where it is not there.
fn workspace_lost<'a>(ground: Ground<'_>, session: &'a Session, view: View) -> Option<&'a Name>
    ensures { option_copied result ≡ workspace_lost (outline_on ground.entry) session.now view }
{
    match view {
        View::Conflicts => match session.conflict() {
            Some(name) => ground.lost_workspace(name),
            None => None,
        },
        View::Differences => match session.difference() {
            Some(points) => ground.lost_workspaces(points),
            None => None,
        },
        View::Rows | View::History | View::Locks => None,
    }
}

/// The name of a savepoint that a view asks for, where it is not there.
fn savepoint_lost<'a>(ground: Ground<'_>, session: &'a Session, view: View) -> Option<&'a Name>
    ensures { option_copied result ≡ savepoint_lost (outline_on ground.entry) session.now view }
{
    match view {
        View::Differences => match session.difference() {
            Some(points) => ground.lost_savepoints(points),
            None => None,
        },
        View::Rows | View::Conflicts | View::History | View::Locks => None,
    }
}

/// The name of the first workspace that a source asks for and that is not there.
pub fn lost_workspace<'a>(
    ground: Ground<'_>,
    session: &'a Session,
    sources: &[Src],
) -> Option<&'a Name>
    ensures { option_copied result ≡ first_lost (workspace_lost (outline_on ground.entry) session.now) (srcs_view sources.now) }
{
    for source in sources {
        let view = view_named(source.table.as_bytes());
        if let Some(name) = workspace_lost(ground, session, view) {
            return Some(name);
        }
    }
    None
}

/// The name of the first savepoint that a source asks for and that is not there.
pub fn lost_savepoint<'a>(
    ground: Ground<'_>,
    session: &'a Session,
    sources: &[Src],
) -> Option<&'a Name>
    ensures { option_copied result ≡ first_lost (savepoint_lost (outline_on ground.entry) session.now) (srcs_view sources.now) }
{
    for source in sources {
        let view = view_named(source.table.as_bytes());
        if let Some(name) = savepoint_lost(ground, session, view) {
            return Some(name);
        }
    }
    None
}
