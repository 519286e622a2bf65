//! What a plan looks up in what it stands on.
ghost use Rattle.std.specs.Prelude.{◌≡◌, length, IfOk};
ghost use Rattle.std.specs.List.{find};
ghost use Rattle.std.specs.Option.{option_copied, option_map};
ghost use Rattle.wm_graph.specs.Parts.{parts_of};
ghost use Rattle.wm_ground.specs.Grounds.{outline_on};
ghost use Rattle.wm_model.specs.Step.{is_child_of, is_spent, resolve_fault, savepoint_at, savepoint_called, space_named, space_numbered, spent};
ghost use Rattle.wm_outline.specs.Outline.{outline_by};
ghost use Rattle.wm_state.specs.Standing.{saved_fields};
ghost use Rattle.wm_state.specs.State.{table_named};

use crate::ground::Ground;
use std::alloc::Global;
use wm_base::{Memory, Refusal};
use wm_plan::refuse::at_its_end;
use wm_plan::resolving::resolving_refusal;
use wm_plan::work::is_spent;
use wm_spec::record::{Savepoint, Space, Table};

impl<'a> Ground<'a> {
    /// The table of this name.
    pub fn table_named(&self, name: &[u8]) -> Option<&'a Table>
        ensures { table_named name.now (outline_on self.now).tables ≡ option_copied result }
    {
        self.image.table(name)
    }

    /// The workspace of this name.
    pub fn space_named(&self, name: &[u8]) -> Option<&'a Space>
        ensures { space_named name.now (outline_on self.now) ≡ option_map (outline_by (parts_of self.now.image.now)) (option_copied result) }
    {
        self.image.space_named(name)
    }

    /// The workspace of a number.
    pub fn space_numbered(&self, number: u32) -> Option<&'a Space>
        ensures { space_numbered number (outline_on self.now) ≡ option_map (outline_by (parts_of self.now.image.now)) (option_copied result) }
    {
        self.image.space(number)
    }

    /// The child of the workspace of a number that has the least number.
    pub fn child_of(&self, space: u32) -> Option<&'a Space>
        ensures { find (is_child_of space) (outline_on self.now).spaces ≡ option_map (outline_by (parts_of self.now.image.now)) (option_copied result) }
    {
        self.image.child_from(space, 0, 0)
    }

    /// How many workspaces there are.
    pub fn space_count(&self) -> usize
        ensures { result ≡ (outline_on self.now).space_count }
    {
        self.image.space_count()
    }

    /// The number after the greatest of a workspace.
    pub fn next_space(&self) -> u64
        ensures { result ≡ (outline_on self.now).next_space }
    {
        self.image.next_space()
    }

    /// The savepoint of a name in a workspace.
    pub fn savepoint_called(&self, space: &Space, name: &[u8]) -> Option<&'a Savepoint>
        ensures { savepoint_called name.now (outline_by (parts_of self.now.image.now) space.now) ≡ option_map saved_fields (option_copied result) }
    {
        self.image.savepoint_named(space.number, name)
    }

    /// The savepoint of a making in a workspace.
    pub fn savepoint_at(&self, space: &Space, making: u64) -> Option<&'a Savepoint>
        ensures { savepoint_at making (outline_by (parts_of self.now.image.now) space.now) ≡ option_map saved_fields (option_copied result) }
    {
        self.image.savepoint(space.number, making)
    }

    /// How many savepoints a workspace has.
    pub fn savepoint_count(&self, space: &Space) -> usize
        ensures { result ≡ length (outline_by (parts_of self.now.image.now) space.now).savepoints }
    {
        self.image.savepoint_count(space.number)
    }

    /// What a line is refused for that changes a workspace while a resolve of it is open.
    pub fn resolve_refusal(&self, alloc: Global, space: &Space) -> Result<Option<Refusal>, Memory>
        ensures { IfOk result (λ fault. fault ≡ resolve_fault (outline_on self.now) (outline_by (parts_of self.now.image.now) space.now)) }
    {
        resolving_refusal(alloc, self.sessions, space)
    }

    /// Whether the work is at its end.
    #[tactic(auto, using(crate::proofs::Grounds::spent_on))]
    pub fn is_spent(&self) -> bool
        ensures { result ≡ is_spent (outline_on self.now) }
    {
        is_spent(&self.image.counters())
    }

    /// What a line is refused for where the work is at its end.
    pub fn spent_refusal(&self, alloc: Global) -> Result<Option<Refusal>, Memory>
        ensures { IfOk result (λ fault. fault ≡ spent (outline_on self.now)) }
    {
        if self.is_spent() {
            return Ok(at_its_end(alloc, b"WORK")?.into_refusal());
        }
        Ok(None)
    }
}
