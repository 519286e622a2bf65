//! Names that are looked for and that nothing has: of workspaces, and of savepoints.
ghost use Rattle.std.specs.Prelude.{◌≡◌, false};
ghost use Rattle.std.specs.Option.{option_copied, option_map_or};
ghost use Rattle.wm_graph.specs.Parts.{parts_of};
ghost use Rattle.wm_ground.specs.Grounds.{outline_on};
ghost use Rattle.wm_model.specs.Step.{has_savepoint, lost_savepoint, lost_savepoints, lost_workspace, lost_workspaces, space_named};
ghost use Rattle.wm_outline.specs.Outline.{outline_by};

use crate::ground::Ground;
use wm_base::Name;
use wm_decided::viewpoint::{Difference, Viewpoint};
use wm_spec::record::Space;

impl<'a> Ground<'a> {
    /// The name, where no workspace has it.
    pub fn lost_workspace<'n>(&self, name: &'n Name) -> Option<&'n Name>
        ensures { option_copied result ≡ lost_workspace (outline_on self.now) name.now }
    {
        match self.space_named(name.as_bytes()) {
            Some(_) => None,
            None => Some(name),
        }
    }

    /// Whether a workspace has a savepoint of this name.
    fn has_savepoint(&self, space: &Space, name: &Name) -> bool
        ensures { result ≡ has_savepoint name.now (outline_by (parts_of self.now.image.now) space.now) }
    {
        let savepoint = self.image.savepoint_named(space.number, name.as_bytes());
        savepoint.is_some()
    }

    /// Whether the workspace of a name is there and has a savepoint of a name.
    fn keeps(&self, workspace: &Name, name: &Name) -> bool
        ensures { result ≡ option_map_or (has_savepoint name.now) (space_named workspace.now (outline_on self.now)) false }
    {
        match self.space_named(workspace.as_bytes()) {
            Some(space) => self.has_savepoint(space, name),
            None => false,
        }
    }

    /// The name of the savepoint of a point, where its workspace has none of that name.
    fn lost_savepoint<'n>(&self, point: &'n Viewpoint) -> Option<&'n Name>
        ensures { option_copied result ≡ lost_savepoint (outline_on self.now) point.now }
    {
        let Some(name) = &point.savepoint else {
            return None;
        };
        if self.keeps(&point.workspace, name) {
            return None;
        }
        Some(name)
    }

    /// The name of the workspace of the first of two points whose workspace is not there.
    pub fn lost_workspaces<'n>(&self, points: &'n Difference) -> Option<&'n Name>
        ensures { option_copied result ≡ lost_workspaces (outline_on self.now) points.now }
    {
        match self.lost_workspace(&points.first.workspace) {
            Some(name) => Some(name),
            None => self.lost_workspace(&points.second.workspace),
        }
    }

    /// The name of the savepoint of the first of two points whose savepoint is not there.
    pub fn lost_savepoints<'n>(&self, points: &'n Difference) -> Option<&'n Name>
        ensures { option_copied result ≡ lost_savepoints (outline_on self.now) points.now }
    {
        match self.lost_savepoint(&points.first) {
            Some(name) => Some(name),
            None => self.lost_savepoint(&points.second),
        }
    }
}
