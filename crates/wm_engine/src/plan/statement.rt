//! A statement of a session.
ghost use Rattle.std.specs.Prelude.{IfOk};
ghost use Rattle.wm_engine.specs.ForkLines.{forks};
ghost use Rattle.wm_engine.specs.NetLines.{nets};
ghost use Rattle.wm_engine.specs.Performing.{Performs};
ghost use Rattle.wm_model.specs.Planning.{IsOpen};
ghost use Rattle.wm_model.specs.Step.{run_for, run_statement, session_of, statement_done};
ghost use Rattle.wm_syntax.specs.Views.{statement_view};

use crate::plan::call::{Called, call};
use std::alloc::Global;
use wm_base::{Memory, Name};
use wm_calls::has_empty_period;
use wm_change::change::{delete, update};
use wm_change::insert::insert;
use wm_freezing::asked::frozen_fault;
use wm_ground::ground::Ground;
use wm_ground::outcome::barred;
use wm_plan::given::Given;
use wm_plan::planned::Planned;
use wm_plan::refuse::no_session;
use wm_plan::session::{Session, session_named};
use wm_space::create::create_plan;
use wm_syntax::statement::Statement;
use wm_views::select::select;

/// What a statement does and answers, whatever is frozen.
fn statement_done(
    alloc: Global,
    ground: Ground<'_>,
    session: &Session,
    statement: &Statement,
) -> Result<Planned, Memory>
    requires open { IsOpen ground.sessions.now session.now }
    ensures { IfOk result (Performs ground.entry (statement_done session.now (statement_view statement.now)) (forks (statement_view statement.now)) (nets (statement_view statement.now))) }
{
    let image = ground.image;
    let moment = ground.moment;
    let empty = has_empty_period(statement);
    match statement {
        Statement::Create { table, items } => create_plan(alloc, ground, table, items),
        Statement::Insert {
            table,
            names,
            values,
        } => insert(
            alloc,
            image,
            moment,
            session,
            table,
            names,
            values.as_slice(),
            empty,
        ),
        Statement::Update {
            table,
            sets,
            filter,
        } => update(
            alloc,
            image,
            moment,
            session,
            table,
            sets.as_slice(),
            filter,
            empty,
        ),
        Statement::Delete { table, filter } => {
            delete(alloc, image, moment, session, table, filter, empty)
        }
        Statement::Select(query) => select(alloc, ground, session, query, empty),
        Statement::Call {
            procedure,
            args,
            condition,
        } => {
            let args = args.as_slice();
            let given = Given { args, condition };
            let called = Called { given, empty };
            call(alloc, ground, session, procedure, called)
        }
    }
}

/// What a statement does and answers: where a workspace is frozen that it asks for, it is refused.
fn run_statement(
    alloc: Global,
    ground: Ground<'_>,
    session: &Session,
    statement: &Statement,
) -> Result<Planned, Memory>
    requires open { IsOpen ground.sessions.now session.now }
    ensures { IfOk result (Performs ground.entry (run_statement session.now (statement_view statement.now)) (forks (statement_view statement.now)) (nets (statement_view statement.now))) }
{
    let planned = statement_done(alloc, ground, session, statement)?;
    match frozen_fault(alloc, ground, session, statement) {
        Ok(fault) => Ok(barred(alloc, fault, planned)),
        Err(memory) => {
            drop(planned);
            Err(memory)
        }
    }
}

/// What a statement does and answers for the session of this name, where it is open.
pub fn run(
    alloc: Global,
    ground: Ground<'_>,
    name: &Name,
    statement: &Statement,
) -> Result<Planned, Memory>
    ensures { IfOk result (Performs ground.entry (λ s. run_for name.now (session_of name.now s.sessions) (statement_view statement.now) s) (forks (statement_view statement.now)) (nets (statement_view statement.now))) }
{
    let Some(session) = session_named(ground.sessions, name) else {
        return Ok(Planned::answered(alloc, no_session(name.copy(alloc)?)));
    };
    run_statement(alloc, ground, session, statement)
}
