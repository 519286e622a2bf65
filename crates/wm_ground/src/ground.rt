//! The store, who is connected and the moment, as a plan looks at them.
ghost use Rattle.std.specs.Prelude.{◌≡◌, ◌<◌, true};
ghost use Rattle.wm_base.specs.declared.instant.TheConstants.{END};
ghost use Rattle.wm_graph.specs.Parts.{parts_of};
ghost use Rattle.wm_graph.specs.Rules.{keep_rules};

use wm_image::Image;
use wm_plan::session::Session;

/// The records of the store, the sessions and the moment. The records keep the rules, and the moment is before the end.
#[derive(Clone, Copy)]
pub struct Ground<'a> {
    pub image: &'a Image,
    pub sessions: &'a [Session],
    pub moment: u64,
    ghost rules: { keep_rules (parts_of image.now) ≡ true },
    ghost early: { moment < END },
}
