//! A workspace stands on its parent as that is now.

ghost use Rattle.std.specs.Prelude.{◌≡◌, ◌<◌, ◌+◌, ◌^◌, ◌∷◌, [], ◌++◌, if◌then◌else◌, map, true, None, Some, IfOk, IfErr, OnOk};
ghost use Rattle.wm_changes.specs.Ids.{HasGreatId};
ghost use Rattle.wm_graph.specs.Parts.{parts_of, space_of};
ghost use Rattle.wm_graph.specs.Rules.{keep_rules};
ghost use Rattle.wm_index.specs.Sought.{MarksIn, ids_with, is_sought};
ghost use Rattle.wm_pending.specs.Owned.{key_pieces};
ghost use Rattle.wm_prices.specs.Prices.{Costs};
ghost use Rattle.wm_rebased.specs.Rebasing.{rebased_on};
ghost use Rattle.wm_spec.specs.declared.record.Record.TheVariants as records;
ghost use Rattle.wm_state.specs.Copied.{AreCopied, piece_for, pieces_for};
ghost use Rattle.wm_state.specs.ById.{applied};
ghost use Rattle.wm_state.specs.Drafts.{CanRebase, CanWork, DraftsBy};
ghost use Rattle.wm_state.specs.Standing.{owned};
ghost use Rattle.wm_state.specs.declared.edit.Edit.TheVariants as edits;

use std::alloc::Global;
use wm_append::append::made::Made;
use wm_append::append::written;
use wm_base::Memory;
use wm_changes::DraftFault;
use wm_changes::copies::space_copy;
use wm_changes::counts::{ids_from, versioned};
use wm_image::Image;
use wm_pending::OwnKey;
use wm_pending::own::own_pieces;
use wm_spec::record::{CellRange, Changes, PieceRecord, Record, Space, Turn, Version};

/// The workspace on a version of its parent, whose log is so long.
fn rebased_on(alloc: Global, version: u64, from: u64, space: &Space) -> Result<Space, Memory>
    requires { space.now.rebases + 1 < 2 ^ 32 }
    ensures { IfOk result (λ new. new ≡ rebased_on version from space.now) }
{
    let mut new = space_copy(alloc, space)?;
    new.base_version = version;
    new.from = from;
    new.rebases += 1;
    Ok(new)
}

/// Puts the pieces of a key in a version behind other records.
fn push_key(alloc: Global, news: &mut Vec<Record>, version: u64, own: &OwnKey) -> Result<(), Memory>
    ensures { OnOk result (news.new.items ≡ news.old.items ++ map records.Piece (map (piece_for version own.now.table own.now.key) own.now.pieces)) }
{
    for piece in own.pieces.list() {
        news.push(Record::Piece(PieceRecord {
            version,
            cells: CellRange {
                table: own.table,
                key: own.key.copy(alloc)?,
                from: piece.period.from().seconds(),
                till: piece.period.till().seconds(),
            },
            stamp: piece.stamp.number,
            kind: piece.kind,
            gone: piece.gone,
        }))?;
    }
    Ok(())
}

/// Puts the pieces of all keys in a version behind other records.
fn push_keys(
    alloc: Global,
    news: &mut Vec<Record>,
    version: u64,
    own: &[OwnKey],
) -> Result<(), Memory>
    ensures { OnOk result (news.new.items ≡ news.old.items ++ map records.Piece (pieces_for version (map key_pieces own.now))) }
{
    for key in own {
        push_key(alloc, news, version, key)?;
    }
    Ok(())
}

/// What a workspace keeps of its own where it stands on its parent: all that it has, or nothing where that was merged.
fn kept_own(
    alloc: Global,
    image: &Image,
    space: &Space,
    emptied: bool,
) -> Result<Vec<OwnKey>, Memory>
    requires rules { keep_rules (parts_of image.now) ≡ true }
    requires there { space_of (parts_of image.now).spaces space.now.number ≡ Some space.now }
    ensures { IfOk result (λ own. AreCopied (λ c. if emptied then None else owned (parts_of image.now) space.now.base_version space.now.number c) (map key_pieces own.items)) }
{
    if emptied {
        return Ok(Vec::new(alloc));
    }
    own_pieces(alloc, image, space)
}

/// The records of the version and of the turn that a workspace has of its parent.
fn first_news(alloc: Global, version: Version, turn: Turn) -> Result<Vec<Record>, Memory>
    ensures { IfOk result (λ news. news.items ≡ records.Version version ∷ records.Turn turn ∷ []) }
{
    let mut news = Vec::new(alloc);
    news.push(Record::Version(version))?;
    news.push(Record::Turn(turn))?;
    Ok(news)
}

/// The ids of the marks of a workspace: they go where it stands on its parent.
fn mark_ids(alloc: Global, image: &Image, space: u32) -> Result<Vec<u64>, Memory>
    ensures { IfOk result (λ ids. ids.items ≡ ids_with (is_sought (MarksIn space)) image.now) }
{
    let mut ids = Vec::new(alloc);
    ids.extend_from_slice(image.marks_in(space))?;
    Ok(ids)
}

/// A workspace stands on the newest version of its parent; what it keeps of its own comes into a version more, and
/// its marks go.
pub fn rebase(
    alloc: Global,
    image: &Image,
    moment: u64,
    work: u64,
    space: u32,
    emptied: bool,
) -> Result<Changes, DraftFault>
    requires rules { keep_rules (parts_of image.now) ≡ true }
    requires work { CanWork (parts_of image.now) moment work }
    requires can { CanRebase (parts_of image.now) space emptied }
    ensures drafts { IfOk result (DraftsBy work image.now moment (edits.Rebase space emptied ∷ [])) }
    ensures costs { IfOk result (λ changes. Costs image.now (edits.Rebase space emptied) (applied changes image.now)) }
    ensures full { IfErr result (λ fault. fault ≡ DraftFault.Ids → HasGreatId image.now) }
{
    let old = image.space(space).unwrap();
    let parent = image.space(old.parent).unwrap();
    let before = image.counters();
    let base_version = image.latest(old.parent);
    let own = kept_own(alloc, image, old, emptied)?;
    let version = Version {
        number: before.next_version,
        space,
        parent: base_version,
    };
    let turn = Turn {
        space,
        rebase: old.rebases + 1,
        log_length: parent.log_length,
        rebases: parent.rebases,
    };
    let mut news = first_news(alloc, version, turn)?;
    let pushed = push_keys(alloc, &mut news, before.next_version, own.as_slice());
    drop(own);
    pushed?;
    let counters = versioned(before, moment, work);
    let id = ids_from(image, news.len() as u64)?;
    let dropped = mark_ids(alloc, image, space)?;
    let new = rebased_on(alloc, base_version, parent.log_length, old)?;
    let made = Made { dropped, news };
    let changes = written(alloc, image, Changes::new(alloc), counters, new, id, made)?;
    Ok(changes)
}
