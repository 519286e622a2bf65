ghost use Rattle.std.specs.Prelude.{◌≡◌, map};
ghost use Rattle.wm_syntax.specs.Views.{item_view, outs_view, projection_view, srcs_view, query_view};
ghost use Rattle.wm_timed.specs.Timed.{timed_item, timed_out, timed_projection, timed_src, timed_query};

use crate::conditions::set_filter;
use crate::expressions::set_expr;
use std::alloc::Global;
use wm_base::Instant;
use wm_syntax::query::{Item, Out, Projection, Query, Src};

fn set_item(item: &mut Item, moment: Instant)
    ensures { item_view item.new ≡ timed_item moment (item_view item.old) }
{
    match item {
        Item::Expr(of) => set_expr(of, moment),
        Item::Agg { of, .. } => set_expr(of, moment),
        Item::CountAll => {}
    }
}

fn set_outs(outs: &mut [Out], moment: Instant)
    ensures { outs_view outs.new ≡ map (timed_out moment) (outs_view outs.old) }
{
    for out in outs.iter_mut() {
        set_item(&mut out.item, moment);
    }
}

fn set_projection(projection: &mut Projection, moment: Instant)
    ensures { projection_view projection.new ≡ timed_projection moment (projection_view projection.old) }
{
    match projection {
        Projection::All => {}
        Projection::Outs(outs) => set_outs(outs.as_mut_slice(), moment),
    }
}

fn set_sources(alloc: Global, sources: &mut [Src], moment: Instant)
    ensures { srcs_view sources.new ≡ map (timed_src moment) (srcs_view sources.old) }
{
    for source in sources.iter_mut() {
        set_filter(alloc, &mut source.on, moment);
    }
}

pub fn set_query(alloc: Global, query: &mut Query, moment: Instant)
    ensures { query_view query.new ≡ timed_query moment (query_view query.old) }
{
    set_projection(&mut query.projection, moment);
    set_sources(alloc, query.sources.as_mut_slice(), moment);
    set_filter(alloc, &mut query.filter, moment);
}
