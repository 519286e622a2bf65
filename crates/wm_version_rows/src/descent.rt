//! The way down from a version to the older ones on its path.

ghost use Rattle.std.specs.Prelude.{◌≡◌, ◌<◌, ◌≤◌, ℕ, true, nat_eq};
ghost use Rattle.std.specs.List.{list_any};
ghost use Rattle.wm_graph.specs.Parts.{parts_of};
ghost use Rattle.wm_graph.specs.Rules.{keep_rules};
ghost use Rattle.wm_state.specs.Standing.{newest_first};
ghost use Rattle.wm_tree.specs.Versions.{path_in};

use wm_image::Image;

/// A version further down the path of one that is newer than the sought, with all still before it that stand on the
/// path and are not newer than the sought; 0 where the path ends.
fn step_down(image: &Image, number: u64, sought: u64) -> u64
    requires rules { keep_rules (parts_of image.now) ≡ true }
    requires newer { sought < number }
    ensures older { result < number }
    ensures path { (v : ℕ) → v ≤ sought → list_any (nat_eq v) (path_in (newest_first (parts_of image.now).versions) result) ≡ list_any (nat_eq v) (path_in (newest_first (parts_of image.now).versions) number) }
{
    if let Some(hop) = image.hop(number) {
        if sought <= hop.far {
            return hop.far;
        }
        return hop.parent;
    }
    match image.version(number) {
        Some(node) => node.parent,
        None => 0,
    }
}

/// A version down the path of one, and not newer than another: that other itself where it stands on the path, and 0
/// where the path ends before. What is older still stands on the path from there, so the way to it can go on there.
pub fn descend(image: &Image, from: u64, version: u64) -> u64
    requires { keep_rules (parts_of image.now) ≡ true }
    ensures down { result ≤ version }
    ensures path { (v : ℕ) → v ≤ version → list_any (nat_eq v) (path_in (newest_first (parts_of image.now).versions) result) ≡ list_any (nat_eq v) (path_in (newest_first (parts_of image.now).versions) from) }
{
    let mut number = from;
    while version < number {
        number = step_down(image, number, version);
    }
    number
}

/// Whether a version stands on the path of one that is not newer: it is that one, and is there, as each with a hop is.
pub fn is_reached(image: &Image, at: u64, version: u64) -> bool
    requires rules { keep_rules (parts_of image.now) ≡ true }
    requires down { at ≤ version }
    ensures { result ≡ list_any (nat_eq version) (path_in (newest_first (parts_of image.now).versions) at) }
{
    version == at && (image.hop(at).is_some() || image.version(at).is_some())
}
