//! Where a savepoint is made in a workspace, and its record.
ghost use Rattle.std.specs.Prelude.{◌≡◌, ◌<◌, Some, true};
ghost use Rattle.std.specs.Option.{option_map};
ghost use Rattle.wm_graph.specs.Parts.{parts_of};
ghost use Rattle.wm_graph.specs.Rules.{keep_rules};
ghost use Rattle.wm_lifecycle.specs.Points.{point_view};
ghost use Rattle.wm_state.specs.Editing.{stand_of};
ghost use Rattle.wm_state.specs.Points.{made_at, newest_point, point_at, saved_point};
ghost use Rattle.wm_state.specs.Standing.{making_behind};

use wm_base::Name;
use wm_image::Image;
use wm_spec::record::{Savepoint, Space};

/// Where one stands in a workspace: what a savepoint that is made there has of it.
#[derive(Clone, Copy, Debug, PartialEq)]
pub struct Point {
    pub version: u64,
    pub base_version: u64,
    pub place: u32,
    pub moment: u64,
    pub from: u64,
    pub log_length: u64,
    pub rebases: u32,
}

/// The point at what is newest in a workspace, at a moment.
pub fn newest_point(image: &Image, moment: u64, space: &Space) -> Point
    ensures { point_view result ≡ newest_point (parts_of image.now) space.now moment }
{
    Point {
        version: image.latest(space.number),
        base_version: space.base_version,
        place: space.next_place,
        moment,
        from: space.from,
        log_length: space.log_length,
        rebases: space.rebases,
    }
}

/// The point at a savepoint.
fn saved_point(savepoint: &Savepoint) -> Point
    ensures { point_view result ≡ saved_point savepoint.now }
{
    Point {
        version: savepoint.version,
        base_version: savepoint.base_version,
        place: savepoint.place,
        moment: savepoint.moment,
        from: savepoint.from,
        log_length: savepoint.log_length,
        rebases: savepoint.rebases,
    }
}

/// The point at what is newest in a workspace or at the savepoint of a making, where that is there.
pub fn point_at(image: &Image, moment: u64, space: &Space, at: Option<u64>) -> Option<Point>
    ensures { option_map point_view result ≡ point_at (parts_of image.now) space.now moment (stand_of at) }
{
    match at {
        None => Some(newest_point(image, moment, space)),
        Some(making) => {
            let savepoint = image.savepoint(space.number, making)?;
            Some(saved_point(savepoint))
        }
    }
}

/// The making of the savepoint that comes next.
fn coming_making(image: &Image) -> u64
    requires { keep_rules (parts_of image.now) ≡ true }
    ensures { result ≡ making_behind (parts_of image.now).savepoints }
{
    image.next_making()
}

/// The savepoint of a name that is made at a point of a workspace, for a workspace that is born there or for its own sake.
pub fn made_at(image: &Image, space: &Space, name: Name, implicit: bool, point: Point) -> Savepoint
    requires { keep_rules (parts_of image.now) ≡ true }
    ensures { result ≡ made_at (parts_of image.now) space.now name implicit (point_view point) }
{
    Savepoint {
        space: space.number,
        name,
        implicit,
        place: point.place,
        making: coming_making(image),
        moment: point.moment,
        version: point.version,
        base_version: point.base_version,
        from: point.from,
        log_length: point.log_length,
        rebases: point.rebases,
    }
}
