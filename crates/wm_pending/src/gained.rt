//! What a workspace gains of its parent, as entries of the line that brings it.

ghost use Rattle.std.specs.Prelude.{◌≡◌, ℕ, ◌<◌, map, true, false, is_some, None, if◌then◌else◌, IfOk, IfNone, IfSome};
ghost use Rattle.wm_base.specs.declared.instant.TheConstants.{END};
ghost use Rattle.wm_graph.specs.Parts.{parts_of};
ghost use Rattle.wm_graph.specs.Rules.{keep_rules};
ghost use Rattle.wm_net.specs.Groups.{GroupsAscend, group_order, has_group};
ghost use Rattle.wm_pending.specs.Owned.{key_pieces};
ghost use Rattle.wm_pending.specs.Lookups.{StandsAt, group_own, pieces_on};
ghost use Rattle.wm_pending.specs.Touched.{is_touched};
ghost use Rattle.wm_period.specs.Pieces.{Between, IsJoined, held_at};
ghost use Rattle.wm_state.specs.Editing.{entry_of};
ghost use Rattle.wm_state.specs.Standing.{seen};
ghost use Rattle.wm_telling.specs.Telling.{AreFamily, AreOwn, IsHeldListing, gained_held};

use crate::entries::push_entries;
use crate::erasing::erase_all;
use crate::own::OwnKey;
use crate::touched::{Since, erase_untouched, touched_keys};
use std::alloc::Global;
use std::cmp::Ordering;
use wm_base::{Key, Memory, Name};
use wm_image::Image;
use wm_period::{Piece, Pieces};
use wm_spec::record::Space;
use wm_state::edit::NewEntry;
use wm_version_rows::laying::shown;

/// The order of a key of own pieces and another key.
fn order_of(own: &OwnKey, table: u16, key: &Key) -> Ordering
    ensures { result ≡ group_order (group_own own.now) (record { table = table; key = key.now }) }
{
    own.table.cmp(&table).then(own.key.compare(key))
}

/// Where a key stands among own keys that ascend.
fn place_of(own: &[OwnKey], table: u16, key: &Key) -> Option<usize>
    requires { GroupsAscend (map group_own own.now) }
    ensures there { IfSome result (StandsAt own.now (record { table = table; key = key.now })) }
    ensures none { IfNone result (has_group (record { table = table; key = key.now }) (map group_own own.now) ≡ false) }
{
    match own.binary_search_by(|k| order_of(k, table, key)) {
        Ok(place) => Some(place),
        Err(_) => None,
    }
}

/// The own pieces of a key, of own pieces whose keys ascend.
fn own_on<'a>(own: &'a [OwnKey], table: u16, key: &Key) -> &'a [Piece]
    requires { GroupsAscend (map group_own own.now) }
    ensures { result.now ≡ pieces_on (record { table = table; key = key.now }) own.now }
{
    match place_of(own, table, key) {
        Some(place) => own[place].pieces.list(),
        None => &[],
    }
}

/// What a version holds for a key where a touch that is meant covers it and others do not lie, joined.
fn gained_pieces(
    alloc: Global,
    image: &Image,
    since: Since,
    version: u64,
    table: u16,
    key: &Key,
    own: &[Piece],
) -> Result<Pieces, Memory>
    requires { keep_rules (parts_of image.now) ≡ true }
    ensures lie { IfOk result (λ pieces. Between 0 pieces END) }
    ensures joined { IfOk result (λ pieces. IsJoined pieces) }
    ensures holds { IfOk result (λ pieces. (t : ℕ) → t < END → held_at pieces t ≡ (if is_some (held_at own.now t) then None else (if is_touched (parts_of image.now).touches since (record { table = table; key = key.now; time = t }) then seen (parts_of image.now) version (record { table = table; key = key.now; time = t }) else None))) }
{
    let mut pieces = shown(alloc, image, version, table, key)?;
    erase_untouched(alloc, image, &mut pieces, since, table, key)?;
    erase_all(alloc, &mut pieces, own)?;
    pieces.join_same_stamp();
    let _order = pieces.list();
    Ok(pieces)
}

/// What a workspace gains for a key of a table, with the key.
fn gained_with_key(
    alloc: Global,
    image: &Image,
    since: Since,
    version: u64,
    table: u16,
    key: Key,
    own: &[Piece],
) -> Result<OwnKey, Memory>
    requires { keep_rules (parts_of image.now) ≡ true }
    ensures table { IfOk result (λ gain. gain.table ≡ table) }
    ensures key { IfOk result (λ gain. gain.key ≡ key) }
    ensures lie { IfOk result (λ gain. Between 0 gain.pieces END) }
    ensures joined { IfOk result (λ gain. IsJoined gain.pieces) }
    ensures holds { IfOk result (λ gain. (t : ℕ) → t < END → held_at gain.pieces t ≡ (if is_some (held_at own.now t) then None else (if is_touched (parts_of image.now).touches since (record { table = gain.table; key = gain.key; time = t }) then seen (parts_of image.now) version (record { table = gain.table; key = gain.key; time = t }) else None))) }
{
    match gained_pieces(alloc, image, since, version, table, &key, own) {
        Ok(pieces) => Ok(OwnKey { table, key, pieces }),
        Err(fault) => {
            drop(key);
            Err(fault)
        }
    }
}

/// What a workspace gains of its parent, by table, key and from: what the parent holds where it changed something since
/// the workspace took its log, and the workspace has nothing of its own. Only keys that the parent touched since are
/// looked at. Each entry keeps its row, its stamp and its kind, and takes the moment and the user of the line.
pub fn gained(
    alloc: Global,
    image: &Image,
    space: &Space,
    parent: &Space,
    own: &[OwnKey],
    moment: u64,
    user: &Name,
) -> Result<Vec<NewEntry>, Memory>
    requires rules { keep_rules (parts_of image.now) ≡ true }
    requires family { AreFamily (parts_of image.now) space.now parent.now }
    requires own { AreOwn (parts_of image.now) space.now (map key_pieces own.now) }
    ensures { IfOk result (λ gained. IsHeldListing (parts_of image.now) moment user.now (gained_held (parts_of image.now) space.now parent.now) (map entry_of gained.items)) }
{
    let since = Since::of(space, parent);
    let version = image.latest(parent.number);
    let keys = touched_keys(alloc, image, since)?;
    let mut entries = Vec::new(alloc);
    for (table, key) in keys {
        let others = own_on(own, table, &key);
        let gain = gained_with_key(alloc, image, since, version, table, key, others)?;
        let pushed = push_entries(alloc, image, &mut entries, &gain, moment, user);
        drop(gain);
        pushed?;
    }
    Ok(entries)
}
