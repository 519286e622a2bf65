//! What a workspace has of its own, key by key.

ghost use Rattle.std.specs.Prelude.{◌≡◌, map, true, Some, IfOk};
ghost use Rattle.wm_graph.specs.Parts.{parts_of, space_of};
ghost use Rattle.wm_graph.specs.Rules.{keep_rules};
ghost use Rattle.wm_pending.specs.Owned.{key_pieces};
ghost use Rattle.wm_state.specs.Copied.{HoldsKey};
ghost use Rattle.wm_telling.specs.Telling.{AreOwn, own_held};

use crate::keys::own_keys;
use crate::path::own_of_key;
use std::alloc::Global;
use wm_base::{Key, Memory};
use wm_image::Image;
use wm_period::Pieces;
use wm_spec::record::Space;

/// What a workspace has of its own for a key of a table: its pieces, joined where they meet and say the same.
#[derive(Drop)]
pub struct OwnKey {
    pub table: u16,
    pub key: Key,
    pub pieces: Pieces,
}

/// What a workspace has of its own for a key of a table, with the key.
fn own_with_key(
    alloc: Global,
    image: &Image,
    space: &Space,
    table: u16,
    key: Key,
) -> Result<OwnKey, Memory>
    requires { keep_rules (parts_of image.now) ≡ true }
    ensures table { IfOk result (λ own. own.table ≡ table) }
    ensures key { IfOk result (λ own. own.key ≡ key) }
    ensures holds { IfOk result (λ own. HoldsKey (own_held (parts_of image.now) space.now) (key_pieces own)) }
{
    match own_of_key(alloc, image, space, table, &key) {
        Ok(pieces) => Ok(OwnKey { table, key, pieces }),
        Err(fault) => {
            drop(key);
            Err(fault)
        }
    }
}

/// What a workspace has of its own, by table and key: what its versions hold above the one that it sees under its own.
/// Only keys with pieces of these versions are looked at.
pub fn own_pieces(alloc: Global, image: &Image, space: &Space) -> Result<Vec<OwnKey>, Memory>
    requires rules { keep_rules (parts_of image.now) ≡ true }
    requires there { space_of (parts_of image.now).spaces space.now.number ≡ Some space.now }
    ensures { IfOk result (λ own. AreOwn (parts_of image.now) space.now (map key_pieces own.items)) }
{
    let keys = own_keys(alloc, image, space)?;
    let mut own = Vec::new(alloc);
    for (table, key) in keys {
        let one = own_with_key(alloc, image, space, table, key)?;
        own.push(one)?;
    }
    Ok(own)
}
