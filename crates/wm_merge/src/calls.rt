//! What RefreshWorkspace and MergeWorkspace are given.

ghost use Rattle.std.specs.Prelude.{◌≡◌, ◌<◌, [], Some, true, false, unwrap_or, IfOk};
ghost use Rattle.wm_base.specs.declared.instant.TheConstants.{END};
ghost use Rattle.wm_calls.specs.Arguments.{is_true_given, text_given};
ghost use Rattle.wm_grammar.specs.declared.procedure.Parameter.TheVariants as parameters;
ghost use Rattle.wm_grammar.specs.declared.procedure.Procedure.TheVariants as procedures;
ghost use Rattle.wm_graph.specs.Parts.{parts_of};
ghost use Rattle.wm_graph.specs.Rules.{keep_rules};
ghost use Rattle.wm_merge.specs.Views.{asked_view};
ghost use Rattle.wm_model.specs.Step.{call, merge_asked};
ghost use Rattle.wm_plan.specs.Idle.{Idles};
ghost use Rattle.wm_plan.specs.Planning.{DoesIt};
ghost use Rattle.wm_spending.specs.Nets.{AreNets, merge_of, refresh_of};

use crate::merging::{Asked, merge_workspace};
use crate::refreshing::refresh_workspace;
use std::alloc::Global;
use wm_base::Memory;
use wm_calls::is_true_given;
use wm_grammar::{Parameter, Procedure};
use wm_image::Image;
use wm_plan::given::{bytes_given, fault_of};
use wm_plan::planned::Planned;
use wm_plan::refuse::mistyped;
use wm_plan::session::Session;
use wm_syntax::statement::Arg;

/// RefreshWorkspace.
pub fn refresh_call(
    alloc: Global,
    image: &Image,
    sessions: &[Session],
    moment: u64,
    session: &Session,
    args: &[Arg],
) -> Result<Planned, Memory>
    requires rules { keep_rules (parts_of image.now) ≡ true }
    requires moment { moment < END }
    ensures does { IfOk result (λ p. DoesIt image.now sessions.now moment p (call session.now (Some procedures.RefreshWorkspace) args.now)) }
    ensures idle { IfOk result Idles }
    ensures nets { IfOk result (λ p. AreNets image.now (refresh_of (unwrap_or (text_given procedures.RefreshWorkspace args.now parameters.Workspace) [])) p.edits.items) }
{
    if let Some(parameter) = fault_of(alloc, Procedure::RefreshWorkspace, args)? {
        return Ok(Planned::answered(alloc, mistyped(parameter)));
    }
    let workspace = bytes_given(Procedure::RefreshWorkspace, args, Parameter::Workspace, b"");
    refresh_workspace(alloc, image, sessions, moment, session, workspace)
}

/// What a merge is asked to do besides.
fn merge_asked(args: &[Arg]) -> Asked
    ensures { asked_view result ≡ merge_asked args.now }
{
    Asked {
        keeps: is_true_given(Procedure::MergeWorkspace, args, Parameter::CreateSavepoint),
        removes: is_true_given(Procedure::MergeWorkspace, args, Parameter::RemoveWorkspace),
    }
}

/// MergeWorkspace.
pub fn merge_call(
    alloc: Global,
    image: &Image,
    sessions: &[Session],
    moment: u64,
    session: &Session,
    args: &[Arg],
) -> Result<Planned, Memory>
    requires rules { keep_rules (parts_of image.now) ≡ true }
    requires moment { moment < END }
    ensures does { IfOk result (λ p. DoesIt image.now sessions.now moment p (call session.now (Some procedures.MergeWorkspace) args.now)) }
    ensures idle { IfOk result Idles }
    ensures nets { is_true_given procedures.MergeWorkspace args.now parameters.RemoveWorkspace ≡ false → IfOk result (λ p. AreNets image.now (merge_of (unwrap_or (text_given procedures.MergeWorkspace args.now parameters.Workspace) [])) p.edits.items) }
{
    if let Some(parameter) = fault_of(alloc, Procedure::MergeWorkspace, args)? {
        return Ok(Planned::answered(alloc, mistyped(parameter)));
    }
    let workspace = bytes_given(Procedure::MergeWorkspace, args, Parameter::Workspace, b"");
    let asked = merge_asked(args);
    merge_workspace(alloc, image, sessions, moment, session, asked, workspace)
}
