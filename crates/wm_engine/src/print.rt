//! The bytes of answers.
ghost use Rattle.std.specs.Prelude.{◌≡◌, IfOk, codes};
ghost use Rattle.wm_print.specs.Texts.{answer_text};
ghost use Rattle.wm_plan.specs.Views.{answer_view};
ghost use Rattle.wm_model.specs.Step.Refusing.{refusal_of};
ghost use Rattle.wm_engine.specs.Kinds.{kind_of};

use crate::reply::{Kind, Reply};
use std::alloc::Global;
use wm_base::{Bytes, Memory};
use wm_plan::answer::Answer;
use wm_print::{print_done, print_refusal, print_rows};

/// An answer written out.
pub fn reply_of(alloc: Global, answer: Answer) -> Result<Reply, Memory>
    ensures bytes { IfOk result (λ reply. reply.bytes ≡ answer_text (answer_view answer)) }
    ensures kind { IfOk result (λ reply. reply.kind ≡ kind_of (answer_view answer)) }
    ensures refused { IfOk result (λ reply. reply.refused ≡ refusal_of (answer_view answer)) }
{
    match print(alloc, &answer) {
        Ok(bytes) => Ok(Reply {
            bytes,
            kind: kind(&answer),
            refused: answer.into_refusal(),
        }),
        Err(memory) => {
            drop(answer);
            Err(memory)
        }
    }
}

fn kind(answer: &Answer) -> Kind
    ensures { result ≡ kind_of (answer_view answer.now) }
{
    match answer {
        Answer::Nothing => Kind::Nothing,
        Answer::Fine => Kind::Fine,
        Answer::Done(_) => Kind::Done,
        Answer::Listing(_) => Kind::Listing,
        Answer::Refused(_) => Kind::Refused,
    }
}

/// The bytes of an answer.
#[tactic(auto, unfolding(wm_print::specs::Texts::answer_text))]
fn print(alloc: Global, answer: &Answer) -> Result<Bytes, Memory>
    ensures { IfOk result (λ bytes. bytes ≡ answer_text (answer_view answer.now)) }
{
    match answer {
        Answer::Nothing => Ok(Bytes::new(alloc)),
        Answer::Fine => fine(alloc),
        Answer::Done(count) => print_done(alloc, *count),
        Answer::Listing(rows) => print_rows(alloc, rows),
        Answer::Refused(refusal) => print_refusal(alloc, refusal),
    }
}

fn fine(alloc: Global) -> Result<Bytes, Memory>
    ensures { IfOk result (λ bytes. bytes ≡ codes "OK\n") }
{
    let mut out = Bytes::new(alloc);
    out.append(b"OK\n")?;
    Ok(out)
}
