//! SELECT.
ghost use Rattle.std.specs.Prelude.{◌≡◌, ◌<◌, List, true, false, None, IfOk};
ghost use Rattle.wm_base.specs.declared.instant.TheConstants.{END};
ghost use Rattle.wm_syntax.specs.Views.{filter_view, query_view};
ghost use Rattle.wm_graph.specs.Parts.{parts_of};
ghost use Rattle.wm_graph.specs.Rules.{keep_rules};
ghost use Rattle.wm_model.specs.Looking.{IsLook};
ghost use Rattle.wm_model.specs.Planning.{IsOpen, tables_in};
ghost use Rattle.wm_model.specs.Step.{columns_in, lost_source, select, table_off, tables_of};
ghost use Rattle.wm_plan.specs.Idle.{Idles};
ghost use Rattle.wm_plan.specs.Planning.{DoesIt};
ghost use Rattle.wm_plan.specs.Views.{answer_view};
ghost use Rattle.wm_select.specs.Query.{projection_lasts};
ghost use Rattle.wm_joining.specs.Kept.{where_of};
ghost use Rattle.wm_spec.specs.Conditions.{typed};
ghost use Rattle.wm_state.specs.State.{Session as SessionState};
ghost use Rattle.wm_views.specs.Looking.{IsAnswered, look_view};

use crate::answer::answer;
use crate::listing::sources_in;
use crate::looking::{Look, look_of};
use crate::lost::{lost_savepoint, lost_workspace};
use crate::sources::{columns_in, lost_history, lost_source, table_off};
use std::alloc::Global;
use wm_base::Memory;
use wm_ground::ground::Ground;
use wm_image::Image;
use wm_listing::Columns;
use wm_plan::answer::Answer;
use wm_plan::planned::Planned;
use wm_plan::refuse::{
    empty_period, no_history, no_savepoint, no_table, no_workspace, not_built, versioning,
};
use wm_plan::session::Session;
use wm_query_faults::query_fault;
use wm_syntax::query::Query;

/// What a query answers over what its sources show a session. These are the columns of all sources.
fn answer_over(
    alloc: Global,
    image: &Image,
    look: &Look<'_>,
    query: &Query,
    columns: &Columns,
) -> Result<Answer, Memory>
    requires rules { keep_rules (parts_of image.now) ≡ true }
    requires moment { look.now.moment < END }
    requires look { IsLook (parts_of image.now) look.now.moment look.now.session.now (look_view (parts_of image.now) look.now) }
    requires there { lost_source (tables_in image.now) (query_view query.now).sources ≡ None }
    requires columns { columns.now ≡ columns_in (tables_in image.now) (query_view query.now).sources }
    requires typed { typed (where_of (filter_view query.now.filter)) columns.now ≡ true }
    requires lasting { projection_lasts (query_view query.now).projection ≡ true }
    ensures { IfOk result (λ a. IsAnswered (parts_of image.now) (look_view (parts_of image.now) look.now) (tables_in image.now) (query_view query.now) (answer_view a)) }
{
    let sources = query.sources.as_slice();
    let listings = sources_in(alloc, image, look, sources, columns.as_slice(), query)?;
    answer(alloc, query, columns, listings)
}

/// A query whose sources are of tables that are ready for rows, and have these columns.
fn select_ready(
    alloc: Global,
    ground: Ground<'_>,
    session: &Session,
    query: &Query,
    columns: &Columns,
    empty: bool,
) -> Result<Planned, Memory>
    requires lasting { empty ≡ false → projection_lasts (query_view query.now).projection ≡ true }
    requires there { lost_source (tables_in ground.image.now) (query_view query.now).sources ≡ None }
    requires on { table_off (tables_of (tables_in ground.image.now) (query_view query.now).sources) ≡ None }
    requires columns { columns.now ≡ columns_in (tables_in ground.image.now) (query_view query.now).sources }
    ensures does { IfOk result (λ p. (xs : List SessionState) → IsOpen xs session.now → DoesIt ground.entry.image.now xs ground.entry.moment p (select session.now (query_view query.now) empty)) }
    ensures idle { IfOk result Idles }
{
    let sources = query.sources.as_slice();
    if let Some(refusal) = query_fault(alloc, columns, query)? {
        return Ok(Planned::answered(alloc, Answer::Refused(refusal)));
    }
    if let Some(name) = lost_history(ground.image, sources) {
        return Ok(Planned::answered(alloc, no_history(name.copy(alloc)?)));
    }
    if let Some(name) = lost_workspace(ground, session, sources) {
        return Ok(Planned::answered(alloc, no_workspace(name.copy(alloc)?)));
    }
    if let Some(name) = lost_savepoint(ground, session, sources) {
        return Ok(Planned::answered(alloc, no_savepoint(name.copy(alloc)?)));
    }
    if empty {
        return Ok(Planned::answered(alloc, empty_period()));
    }
    let Some(home) = ground.image.space(session.space()) else {
        return Ok(Planned::answered(alloc, not_built()));
    };
    let look = look_of(ground.image, ground.moment, session, home);
    let found = answer_over(alloc, ground.image, &look, query, columns)?;
    Ok(Planned::answered(alloc, found))
}

/// SELECT answers a query over what the session sees.
pub fn select(
    alloc: Global,
    ground: Ground<'_>,
    session: &Session,
    query: &Query,
    empty: bool,
) -> Result<Planned, Memory>
    // Where it has no empty period, none of its items has one.
    requires lasting { empty ≡ false → projection_lasts (query_view query.now).projection ≡ true }
    ensures does { IfOk result (λ p. (xs : List SessionState) → IsOpen xs session.now → DoesIt ground.entry.image.now xs ground.entry.moment p (select session.now (query_view query.now) empty)) }
    ensures idle { IfOk result Idles }
{
    let sources = query.sources.as_slice();
    if let Some(name) = lost_source(ground.image, sources) {
        return Ok(Planned::answered(alloc, no_table(name.copy(alloc)?)));
    }
    if let Some(name) = table_off(ground.image, sources) {
        return Ok(Planned::answered(alloc, versioning(name.copy(alloc)?, false)));
    }
    let columns = columns_in(alloc, ground.image, sources)?;
    select_ready(alloc, ground, session, query, &columns, empty)
}
