//! Where rows are changed.
use wm_image::Image;
use wm_plan::session::Session;
use wm_spec::record::{Space, Table};

/// A table in workspaces, and the workspace in which a session changes its rows at a moment.
#[derive(Clone, Copy)]
pub struct Site<'a> {
    pub image: &'a Image,
    pub moment: u64,
    pub session: &'a Session,
    pub space: &'a Space,
    pub table: &'a Table,
}
