//! A line.
ghost use Rattle.std.specs.Prelude.{◌≡◌, ◌<◌, ◌≤◌, length, Some, true, IfOk, Ok as Read};
ghost use Rattle.wm_base.specs.declared.instant.TheConstants.{END};
ghost use Rattle.wm_syntax.specs.Views.{line_view};
ghost use Rattle.wm_plan.specs.Forks.{AreForks};
ghost use Rattle.wm_engine.specs.ForkLines.{is_fork, is_fork_line};
ghost use Rattle.wm_engine.specs.NetLines.{nets_into, nets_of_line};
ghost use Rattle.wm_engine.specs.Performing.{PerformsAt};
ghost use Rattle.wm_plan.specs.Idle.{Idles, StaysAt};
ghost use Rattle.wm_plan.specs.Planning.{DoesTimed};
ghost use Rattle.wm_engine.specs.Timely.{IsTimely};
ghost use Rattle.wm_graph.specs.Parts.{parts_of};
ghost use Rattle.wm_graph.specs.Rules.{keep_rules};
ghost use Rattle.wm_model.specs.Step.{run_line, run_parsed, step, timed_line};
ghost use Rattle.wm_grammar.specs.Parsed.{parsed};
ghost use Rattle.wm_spending.specs.Nets.{AreNets, Net};

use crate::plan::statement::run;
use std::alloc::Global;
use wm_base::{Instant, Memory};
use wm_ground::ground::Ground;
use wm_image::Image;
use wm_parser::{ParseFault, discard, parse};
use wm_plan::answer::Answer;
use wm_plan::planned::Timed;
use wm_plan::refuse::{bad_literal, no_text, syntax, too_long_line};
use wm_plan::session::Session;
use wm_reader::{is_remark, is_text};
use wm_space::at::at_moment;
use wm_space::connect::{connect_plan, disconnect_plan};
use wm_syntax::line::Line;
use wm_timed::set_moment;

/// The most bytes that a line may have.
const LINE_LIMIT: usize = 16_384;

/// What a line of the grammar does and answers.
fn plan_line(alloc: Global, ground: Ground<'_>, line: &Line) -> Result<Timed, Memory>
    // AT sets a moment below the end.
    requires timely { IsTimely (line_view line.now) }
    ensures { IfOk result (PerformsAt ground.entry (run_line (line_view line.now)) (is_fork_line (line_view line.now)) (nets_of_line (line_view line.now))) }
{
    let moment = ground.moment;
    match line {
        Line::Connect { session, user } => {
            let planned = connect_plan(alloc, ground, session, user)?;
            Ok(Timed { planned, moment })
        }
        Line::Disconnect { session } => {
            let planned = disconnect_plan(alloc, ground, session)?;
            Ok(Timed { planned, moment })
        }
        Line::At(instant) => Ok(at_moment(alloc, moment, *instant)),
        Line::Run { session, statement } => {
            let planned = run(alloc, ground, session, statement)?;
            Ok(Timed { planned, moment })
        }
    }
}

/// Puts the moment in the place of each SYSDATE of a line.
fn set_moment_in(alloc: Global, line: &mut Line, moment: Instant)
    ensures { line_view line.new ≡ timed_line moment (line_view line.old) }
{
    if let Line::Run { statement, .. } = line {
        set_moment(alloc, statement, moment);
    }
}

/// What a line that was read does and answers.
fn plan_read(alloc: Global, ground: Ground<'_>, line: &mut Line) -> Result<Timed, Memory>
    // AT sets a moment below the end.
    requires timely { IsTimely (line_view line.old) }
    ensures { IfOk result (PerformsAt ground.entry (run_parsed (Read (line_view line.old))) (is_fork_line (line_view line.old)) (nets_of_line (line_view line.old))) }
{
    let now = Instant::new(ground.moment).unwrap();
    set_moment_in(alloc, line, now);
    plan_line(alloc, ground, line)
}

/// What a line of plain text that fits and is no remark does and answers.
fn plan_text(alloc: Global, ground: Ground<'_>, text: &[u8]) -> Result<Timed, Memory>
    requires fits { length text.now ≤ 16384 }
    ensures { IfOk result (PerformsAt ground.entry (run_parsed (parsed text.now)) (is_fork (parsed text.now)) (nets_into (parsed text.now))) }
{
    let moment = ground.moment;
    match parse(alloc, text) {
        Ok(mut line) => {
            let planned = plan_read(alloc, ground, &mut line);
            discard(line);
            planned
        }
        Err(ParseFault::Syntax { column }) => Ok(Timed::answered(alloc, moment, syntax(column))),
        Err(ParseFault::Literal { column }) => Ok(Timed::answered(
            alloc,
            moment,
            bad_literal(column),
        )),
        Err(ParseFault::Memory) => Err(Memory),
    }
}

/// What a line does and answers.
pub fn plan(
    alloc: Global,
    image: &Image,
    sessions: &[Session],
    moment: u64,
    text: &[u8],
) -> Result<Timed, Memory>
    requires rules { keep_rules (parts_of image.now) ≡ true }
    requires moment { moment < END }
    ensures does { IfOk result (λ t. DoesTimed image.now sessions.now moment t (λ s. step s text.now)) }
    ensures moment { IfOk result (λ t. t.moment < END) }
    ensures idle { IfOk result (λ t. Idles t.planned) }
    ensures stays { IfOk result (StaysAt moment) }
    ensures few { is_fork (parsed text.now) ≡ true → IfOk result (λ t. AreForks t.planned) }
    ensures nets { (net : Net) → nets_into (parsed text.now) ≡ Some net → IfOk result (λ t. AreNets image.now net t.planned.edits.items) }
{
    if text.len() > LINE_LIMIT {
        return Ok(Timed::answered(alloc, moment, too_long_line()));
    }
    if is_remark(text) {
        return Ok(Timed::answered(alloc, moment, Answer::Nothing));
    }
    if !is_text(text) {
        return Ok(Timed::answered(alloc, moment, no_text()));
    }
    let ground = Ground {
        image,
        sessions,
        moment,
    };
    plan_text(alloc, ground, text)
}
