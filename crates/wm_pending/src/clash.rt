//! Where a workspace and its parent both changed something.

ghost use Rattle.std.specs.Prelude.{◌≡◌, ℕ, ◌<◌, map, true, is_some, None, IfOk, IfNone, IfSome, OnOk};
ghost use Rattle.wm_base.specs.declared.instant.TheConstants.{END};
ghost use Rattle.wm_graph.specs.Parts.{parts_of};
ghost use Rattle.wm_graph.specs.Rules.{keep_rules};
ghost use Rattle.wm_net.specs.Firsts.{IsFirst};
ghost use Rattle.wm_pending.specs.Clashes.{AreConflicts, GainsBlock, asked_in};
ghost use Rattle.wm_pending.specs.Lookups.{group_own};
ghost use Rattle.wm_pending.specs.Owned.{key_pieces};
ghost use Rattle.wm_pending.specs.Sides.{are_contested, asked_clash, asked_of, contest_at};
ghost use Rattle.wm_pending.specs.Walks.{stretch_in};
ghost use Rattle.wm_period.specs.Pieces.{Between, held_at};
ghost use Rattle.wm_spec.specs.Lists.{Cell};
ghost use Rattle.wm_telling.specs.Telling.{AreFamily, AreOwn, IsFirstClash, clash_held};

use crate::own::OwnKey;
use crate::settled::erase_settled;
use crate::sides::{SideStamps, Sides};
use crate::touched::{Since, erase_untouched};
use crate::walk::{Contest, Walk};
use std::alloc::Global;
use wm_base::{Key, Memory, Period};
use wm_image::Image;
use wm_period::Pieces;
use wm_spec::record::Space;
use wm_version_rows::laying::shown;

/// A stretch of conflict: a key of a table, and the period over which base, parent and workspace each hold one row or
/// none.
#[derive(Drop)]
pub struct Clash {
    pub table: u16,
    pub key: Key,
    pub period: Period,
}

/// A stretch of conflict of a table, with the stamps of the rows that stand.
#[derive(Drop)]
pub struct Conflict {
    pub key: Key,
    pub period: Period,
    pub stamps: SideStamps,
}

/// What is looked at: the touches of a parent since a workspace took its log, the marks of the workspace, and the
/// versions that stand for the base of the workspace, for its parent and for itself.
#[derive(Clone, Copy)]
struct Asked {
    since: Since,
    marks: Since,
    base: u64,
    parent: u64,
    child: u64,
}

/// What is looked at for a workspace and its parent.
fn asked_about(image: &Image, space: &Space, parent: &Space) -> Asked
    ensures { result ≡ asked_of (parts_of image.now) space.now parent.now }
{
    Asked {
        since: Since::of(space, parent),
        marks: Since::marks(space),
        base: space.base_version,
        parent: image.latest(parent.number),
        child: image.latest(space.number),
    }
}

/// What own pieces of a key have where a touch that is meant covers it, and no mark that is meant settles it.
fn contested(alloc: Global, image: &Image, asked: Asked, own: &OwnKey) -> Result<Pieces, Memory>
    ensures { IfOk result (λ pieces. (t : ℕ) → t < END → is_some (held_at pieces t) ≡ are_contested (parts_of image.now) asked own.now t) }
{
    let mut pieces = own.pieces.copy(alloc)?;
    erase_untouched(alloc, image, &mut pieces, asked.since, own.table, &own.key)?;
    erase_settled(alloc, image, &mut pieces, asked.marks, asked.since, own)?;
    Ok(pieces)
}

/// What stands on all sides of a key of own pieces. Where nothing is contested no side is looked at.
fn sides_of(alloc: Global, image: &Image, asked: Asked, own: &OwnKey) -> Result<Sides, Memory>
    requires rules { keep_rules (parts_of image.now) ≡ true }
    requires order { Between 0 own.now.pieces END }
    ensures { IfOk result (λ sides. (t : ℕ) → contest_at sides t ≡ asked_clash (parts_of image.now) asked own.now t) }
{
    let contested = contested(alloc, image, asked, own)?;
    if contested.list().is_empty() {
        return Ok(Sides {
            contested,
            base: Pieces::new(alloc),
            parent: Pieces::new(alloc),
            child: Pieces::new(alloc),
        });
    }
    let base = shown(alloc, image, asked.base, own.table, &own.key)?;
    let parent = shown(alloc, image, asked.parent, own.table, &own.key)?;
    let child = shown(alloc, image, asked.child, own.table, &own.key)?;
    Ok(Sides {
        contested,
        base,
        parent,
        child,
    })
}

/// The first stretch of conflict of a key of own pieces.
fn first_of_key(
    alloc: Global,
    image: &Image,
    asked: Asked,
    own: &OwnKey,
) -> Result<Option<Contest>, Memory>
    requires rules { keep_rules (parts_of image.now) ≡ true }
    requires order { Between 0 own.now.pieces END }
    ensures some { IfOk result (λ found. IfSome found (λ contest. IsFirst (asked_clash (parts_of image.now) asked own.now) 0 (stretch_in contest))) }
    ensures none { IfOk result (λ found. IfNone found ((t : ℕ) → asked_clash (parts_of image.now) asked own.now t ≡ None)) }
{
    let sides = sides_of(alloc, image, asked, own)?;
    let next = Walk::over(&sides).next_contest();
    match next {
        Some((contest, _)) => {
            drop(sides);
            Ok(Some(contest))
        }
        None => {
            drop(sides);
            Ok(None)
        }
    }
}

/// The first stretch, by table, key and from, on which a workspace and its parent are in conflict, where there is one.
/// Only the keys of which the workspace has something of its own are looked at.
pub fn first_clash(
    alloc: Global,
    image: &Image,
    space: &Space,
    parent: &Space,
    own: &[OwnKey],
) -> Result<Option<Clash>, Memory>
    requires rules { keep_rules (parts_of image.now) ≡ true }
    requires family { AreFamily (parts_of image.now) space.now parent.now }
    requires own { AreOwn (parts_of image.now) space.now (map key_pieces own.now) }
    ensures some { IfOk result (λ found. IfSome found (λ clash. IsFirstClash (parts_of image.now) space.now parent.now clash.table clash.key clash.period.from clash.period.till)) }
    ensures none { IfOk result (λ found. IfNone found ((c : Cell) → clash_held (parts_of image.now) space.now parent.now c ≡ None)) }
{
    let asked = asked_about(image, space, parent);
    for key in own {
        if let Some(contest) = first_of_key(alloc, image, asked, key)? {
            return Ok(Some(Clash {
                table: key.table,
                key: key.key.copy(alloc)?,
                period: contest.period,
            }));
        }
    }
    Ok(None)
}

/// Adds the stretches of conflict of a key of own pieces, by what stands on its sides.
fn push_stretches(
    alloc: Global,
    sides: &Sides,
    own: &OwnKey,
    found: &mut Vec<Conflict>,
) -> Result<(), Memory>
    ensures { OnOk result (GainsBlock (λ (c : Cell). contest_at sides.now c.time) (group_own own.now) own.now.table found.old.items found.new.items) }
{
    let mut walk = Walk::over(sides);
    while let Some((contest, rest)) = walk.next_contest() {
        found.push(Conflict {
            key: own.key.copy(alloc)?,
            period: contest.period,
            stamps: contest.stamps,
        })?;
        walk = rest;
    }
    Ok(())
}

/// Adds the stretches of conflict of a key of own pieces, where that is of a table.
fn push_conflicts(
    alloc: Global,
    image: &Image,
    asked: Asked,
    table: u16,
    own: &OwnKey,
    found: &mut Vec<Conflict>,
) -> Result<(), Memory>
    requires rules { keep_rules (parts_of image.now) ≡ true }
    requires order { Between 0 own.now.pieces END }
    ensures { OnOk result (GainsBlock (asked_in (parts_of image.now) asked table own.now) (group_own own.now) table found.old.items found.new.items) }
{
    if own.table != table {
        return Ok(());
    }
    let sides = sides_of(alloc, image, asked, own)?;
    let pushed = push_stretches(alloc, &sides, own, found);
    drop(sides);
    pushed?;
    Ok(())
}

/// All stretches of a table on which a workspace and its parent are in conflict, by key and from. Only the keys of
/// which the workspace has something of its own are looked at.
pub fn conflicts(
    alloc: Global,
    image: &Image,
    space: &Space,
    parent: &Space,
    own: &[OwnKey],
    table: u16,
) -> Result<Vec<Conflict>, Memory>
    requires rules { keep_rules (parts_of image.now) ≡ true }
    requires family { AreFamily (parts_of image.now) space.now parent.now }
    requires own { AreOwn (parts_of image.now) space.now (map key_pieces own.now) }
    ensures { IfOk result (λ found. AreConflicts (parts_of image.now) space.now parent.now table found.items) }
{
    let asked = asked_about(image, space, parent);
    let mut found = Vec::new(alloc);
    for key in own {
        push_conflicts(alloc, image, asked, table, key, &mut found)?;
    }
    Ok(found)
}
