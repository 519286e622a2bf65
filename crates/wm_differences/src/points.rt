//! Points of workspaces by their records, and what two of them have in common.

ghost use Rattle.std.specs.Prelude.{◌≡◌, ◌==◌, ℕ, map, true, IfOk};
ghost use Rattle.std.specs.List.{find};
ghost use Rattle.std.specs.Option.{option_map};
ghost use Rattle.wm_differences.specs.Points.{point_view};
ghost use Rattle.wm_graph.specs.Parts.{parts_of};
ghost use Rattle.wm_graph.specs.Rules.{keep_rules};
ghost use Rattle.wm_points.specs.Points as meant;
ghost use Rattle.wm_points.specs.Recorded.{climb_by, newest_by, point_by, saved_by};
ghost use Rattle.wm_state.specs.Standing.{first_in, newest_first};

use std::alloc::Global;
use wm_base::Memory;
use wm_decided::viewpoint::Viewpoint;
use wm_image::Image;
use wm_spec::record::{Savepoint, Space};

/// A point of a workspace: how long its log was and how often it had been rebased, and the version that holds what
/// stood in it.
#[derive(Clone, Copy)]
pub struct Point {
    pub space: u32,
    pub log_length: u64,
    pub rebases: u32,
    pub version: u64,
}

/// The first version of a workspace on the path of a version.
fn first_on_path(image: &Image, space: u32, version: u64) -> Option<u64>
    requires { keep_rules (parts_of image.now) ≡ true }
    ensures { result ≡ first_in (newest_first (parts_of image.now).versions) space version }
{
    let mut number = version;
    while let Some(found) = image.version(number) {
        if found.space == space {
            return Some(number);
        }
        number = found.parent;
    }
    None
}

/// The point of the parent that a workspace had taken at a point of it. LIVE took none.
fn climb(image: &Image, point: Point) -> Option<Point>
    requires { keep_rules (parts_of image.now) ≡ true }
    ensures { option_map point_view result ≡ climb_by (parts_of image.now) (point_view point) }
{
    let space = image.space(point.space)?;
    let turn = image.turn(point.space, point.rebases)?;
    let version = first_on_path(image, space.parent, point.version)?;
    Some(Point {
        space: space.parent,
        log_length: turn.log_length,
        rebases: turn.rebases,
        version,
    })
}

/// What is newest in a workspace.
fn newest(image: &Image, space: &Space) -> Point
    ensures { point_view result ≡ newest_by (parts_of image.now) space.now }
{
    Point {
        space: space.number,
        log_length: space.log_length,
        rebases: space.rebases,
        version: image.latest(space.number),
    }
}

/// What stood in a workspace at a savepoint.
fn saved(savepoint: &Savepoint) -> Point
    ensures { point_view result ≡ saved_by savepoint.now }
{
    Point {
        space: savepoint.space,
        log_length: savepoint.log_length,
        rebases: savepoint.rebases,
        version: savepoint.version,
    }
}

/// The point that is meant, where its workspace and its savepoint exist.
pub fn point_of(image: &Image, viewpoint: &Viewpoint) -> Option<Point>
    requires { keep_rules (parts_of image.now) ≡ true }
    ensures { option_map point_view result ≡ point_by (parts_of image.now) viewpoint.now }
{
    let space = image.space_named(viewpoint.workspace.as_bytes())?;
    match &viewpoint.savepoint {
        None => Some(newest(image, space)),
        Some(name) => {
            let savepoint = image.savepoint_named(space.number, name.as_bytes())?;
            Some(saved(savepoint))
        }
    }
}

/// A point with those to which it climbs, one after another: no more than the number of its workspace, which is greater
/// than that of its parent.
fn path(alloc: Global, image: &Image, point: Point) -> Result<Vec<Point>, Memory>
    requires { keep_rules (parts_of image.now) ≡ true }
    ensures { IfOk result (λ points. map point_view points.items ≡ meant.path (climb_by (parts_of image.now)) point.space (point_view point)) }
{
    let mut points = Vec::new(alloc);
    points.push(point)?;
    let mut last = point;
    for _ in 0..point.space {
        let Some(above) = climb(image, last) else {
            return Ok(points);
        };
        points.push(above)?;
        last = above;
    }
    Ok(points)
}

/// Whether a point of a workspace comes before another one of it: its log is shorter, or is as long and it was rebased
/// less often.
fn is_earlier(one: Point, other: Point) -> bool
    ensures { result ≡ meant.is_earlier (point_view one) (point_view other) }
{
    one.log_length < other.log_length
        || (one.log_length == other.log_length && one.rebases < other.rebases)
}

/// The earlier of two points of a workspace.
fn earlier(one: Point, other: Point) -> Point
    ensures { point_view result ≡ meant.earlier (point_view one) (point_view other) }
{
    if is_earlier(other, one) { other } else { one }
}

/// The first point of a workspace among some.
fn point_in(points: &[Point], space: u32) -> Option<Point>
    ensures { option_map point_view result ≡ find (λ (y : meant.Point ℕ). y.space == space) (map point_view points.now) }
{
    for point in points {
        if point.space == space {
            return Some(*point);
        }
    }
    None
}

/// The first workspace on a path that is on another one too, at the earlier of their two points there.
fn meeting(first: &[Point], second: &[Point]) -> Option<Point>
    ensures { option_map point_view result ≡ meant.meeting (map point_view first.now) (map point_view second.now) }
{
    for one in first {
        if let Some(other) = point_in(second, one.space) {
            return Some(earlier(*one, other));
        }
    }
    None
}

/// The common point of two: the first workspace from that of the first one up that the second one is in or climbs to
/// too, at the earlier of their two points there. It fails only where memory runs out.
pub fn common(alloc: Global, image: &Image, first: Point, second: Point) -> Result<Point, Memory>
    requires { keep_rules (parts_of image.now) ≡ true }
    ensures { IfOk result (λ point. point_view point ≡ meant.common (climb_by (parts_of image.now)) (point_view first) (point_view second)) }
{
    let first_path = path(alloc, image, first)?;
    let second_path = path(alloc, image, second)?;
    match meeting(first_path.as_slice(), second_path.as_slice()) {
        Some(point) => Ok(point),
        None => Ok(first),
    }
}
