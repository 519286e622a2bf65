//! The differences of a table at two points, as a session is shown them.
ghost use Rattle.std.specs.Prelude.{◌≡◌, true, IfOk, option_map};
ghost use Rattle.wm_graph.specs.Parts.{parts_of};
ghost use Rattle.wm_graph.specs.Rules.{keep_rules};
ghost use Rattle.wm_differences.specs.Shown.{versions_of as given_versions};
ghost use Rattle.wm_model.specs.Sources.{AreDifferent, versions_of};
ghost use Rattle.wm_model.specs.Step.{viewpoint_name};

use std::alloc::Global;
use wm_base::{Memory, Name};
use wm_decided::viewpoint::{Difference, Viewpoint};
use wm_differences::points::{common, point_of};
use wm_differences::shown::{Versions, difference_view};
use wm_image::Image;
use wm_listing::RowList;
use wm_plan::session::Session;
use wm_spec::record::Table;
use wm_view_rows::differences::point_name;

/// The name under which a point is shown.
fn viewpoint_name(alloc: Global, point: &Viewpoint) -> Result<Name, Memory>
    ensures { IfOk result (λ name. name ≡ viewpoint_name point.now) }
{
    point_name(alloc, &point.workspace, point.savepoint.as_ref())
}

/// The versions of two points, and of what they have in common, where both are there.
fn versions_of(
    alloc: Global,
    image: &Image,
    points: &Difference,
) -> Result<Option<Versions>, Memory>
    requires { keep_rules (parts_of image.now) ≡ true }
    ensures { IfOk result (λ versions. option_map given_versions versions ≡ versions_of (parts_of image.now) points.now) }
{
    let Some(first) = point_of(image, &points.first) else {
        return Ok(None);
    };
    let Some(second) = point_of(image, &points.second) else {
        return Ok(None);
    };
    let base = common(alloc, image, first, second)?;
    Ok(Some(Versions {
        base: base.version,
        first: first.version,
        second: second.version,
    }))
}

/// The differences of a table at the points that a session compares, and none where it compares none, or one is not there.
pub fn differences_shown(
    alloc: Global,
    image: &Image,
    session: &Session,
    table: &Table,
) -> Result<RowList, Memory>
    requires { keep_rules (parts_of image.now) ≡ true }
    ensures { IfOk result (λ rows. AreDifferent (parts_of image.now) session.now.difference table.now rows) }
{
    let Some(points) = session.difference() else {
        return Ok(RowList::new(alloc));
    };
    let Some(versions) = versions_of(alloc, image, points)? else {
        return Ok(RowList::new(alloc));
    };
    let first = viewpoint_name(alloc, &points.first)?;
    let second = viewpoint_name(alloc, &points.second)?;
    difference_view(alloc, image, versions, &first, &second, table)
}
