//! What the versions of a workspace hold for one key above the version that it sees under its own.

ghost use Rattle.std.specs.Prelude.{◌≡◌, ◌==◌, true, if◌then◌else◌, None, IfOk};
ghost use Rattle.wm_graph.specs.Parts.{parts_of, version_of};
ghost use Rattle.wm_graph.specs.Rules.{keep_rules};
ghost use Rattle.wm_state.specs.Copied.{HoldsKey};
ghost use Rattle.wm_telling.specs.Telling.{own_held};

use std::alloc::Global;
use wm_base::{Key, Memory};
use wm_image::Image;
use wm_period::Pieces;
use wm_spec::record::{Space, Version};
use wm_version_rows::laying::lay_version;

/// The version of a number, or None where that is a base.
pub fn version_above(image: &Image, base: u64, number: u64) -> Option<Version>
    ensures { result ≡ (if number == base then None else version_of (parts_of image.now).versions number) }
{
    if number == base {
        return None;
    }
    image.version(number)
}

/// What a workspace has of its own for a key of a table, joined where it meets and says the same. Only the pieces of
/// that key are looked at.
pub fn own_of_key(
    alloc: Global,
    image: &Image,
    space: &Space,
    table: u16,
    key: &Key,
) -> Result<Pieces, Memory>
    requires { keep_rules (parts_of image.now) ≡ true }
    ensures { IfOk result (λ pieces. HoldsKey (own_held (parts_of image.now) space.now) (record { table = table; key = key.now; pieces = pieces })) }
{
    image.law_of_order();
    let mut own = Pieces::new(alloc);
    let mut number = image.latest(space.number);
    while let Some(version) = version_above(image, space.base_version, number) {
        let ids = image.pieces_at(table, key, number);
        own = lay_version(alloc, image, ids, number, own)?;
        number = version.parent;
    }
    own.join_same_stamp();
    let _order = own.list();
    Ok(own)
}
