//! Decisions that a session has made, and what they copy.
ghost use Rattle.std.specs.Prelude.{◌≡◌, [], ◌++◌, IfOk, OnOk};
ghost use Rattle.std.specs.Option.{option_map};
ghost use Rattle.wm_net.specs.Listed.{IsJoined, Ordered};
ghost use Rattle.wm_net.specs.Nets.{one_stamp};
ghost use Rattle.wm_state.specs.Editing.{row_value};

use std::alloc::Global;
use std::marker::Model;
use wm_base::{Key, Kind, Memory, Period, Values};

/// What one side says over a period: a row, or that the row is gone.
#[derive(Drop)]
pub struct Copied {
    pub period: Period,
    /// The number of the change that wrote it.
    pub stamp: u64,
    pub kind: Kind,
    pub row: Option<Values>,
}

impl Model for Copied {
    ghost use Rattle.std.specs.Option.{option_map};
    ghost use Rattle.wm_net.specs.Listed.{Stretch};
    ghost use Rattle.wm_spec.specs.Lists.{Told};
    ghost use Rattle.wm_state.specs.Editing.{row_value};

    ghost Value = { Stretch Told };

    ghost view = { λ c. record { from = c.period.from; till = c.period.till; value = record { stamp = c.stamp; kind = c.kind; row = option_map row_value c.row } } };
}

/// A copy of a row, where there is one.
pub fn row_copy(alloc: Global, row: &Option<Values>) -> Result<Option<Values>, Memory>
    ensures { IfOk result (λ copy. option_map row_value copy ≡ option_map row_value row.now) }
{
    match row {
        Some(values) => Ok(Some(values.copy(alloc)?)),
        None => Ok(None),
    }
}

impl Copied {
    fn copy(&self, alloc: Global) -> Result<Copied, Memory>
        ensures { IfOk result (λ copy. copy ≡ self.now) }
    {
        Ok(Copied {
            period: self.period,
            stamp: self.stamp,
            kind: self.kind,
            row: row_copy(alloc, &self.row)?,
        })
    }
}

/// A copy of what is copied.
fn copied_copy(alloc: Global, copied: &[Copied]) -> Result<Vec<Copied>, Memory>
    ensures { IfOk result (λ copy. copy.items ≡ copied.now) }
{
    let mut list = Vec::with_capacity(alloc, copied.len())?;
    for one in copied {
        list.push(one.copy(alloc)?)?;
    }
    Ok(list)
}

/// A decision on a stretch of conflict of a key. What it copies lies in order, and no two neighbours could be one.
#[derive(Drop)]
pub struct Decision {
    table: u16,
    key: Key,
    period: Period,
    copied: Vec<Copied>,
    /// How long the log of the parent was.
    position: u64,
}

impl Model for Decision {
    ghost use Rattle.wm_net.specs.Listed.{IsJoined, Ordered};
    ghost use Rattle.wm_net.specs.Nets.{one_stamp};
    ghost use Rattle.wm_state.specs.State.{Decision as DecisionState};

    ghost Value = { DecisionState };

    ghost view = { λ d. record { table = d.table; key = d.key; from = d.period.from; till = d.period.till; copied = d.copied.items; position = d.position } };

    ghost invariant = { λ d. Ordered 0 d.copied.items × IsJoined one_stamp d.copied.items };
}

impl Decision {
    /// A decision on the cells of a key over a period.
    pub fn new(table: u16, key: Key, period: Period, copied: Vec<Copied>, position: u64) -> Decision
        requires ordered { Ordered 0 copied.items }
        requires joined { IsJoined one_stamp copied.items }
        ensures { result ≡ record { table = table; key = key; from = period.from; till = period.till; copied = copied.items; position = position } }
    {
        Decision {
            table,
            key,
            period,
            copied,
            position,
        }
    }

    /// The number of the table.
    pub fn table(&self) -> u16
        ensures { result ≡ self.now.table }
    {
        self.table
    }

    /// The key whose cells it decides.
    pub fn key(&self) -> &Key
        ensures { result.now ≡ self.now.key }
    {
        &self.key
    }

    /// The period over which it decides them.
    pub fn period(&self) -> Period
        ensures from { result.from ≡ self.now.from }
        ensures till { result.till ≡ self.now.till }
    {
        self.period
    }

    /// What it copies, in order.
    pub fn copied(&self) -> &[Copied]
        ensures value { result.now ≡ self.now.copied }
        ensures ordered { Ordered 0 self.now.copied }
        ensures joined { IsJoined one_stamp self.now.copied }
    {
        self.copied.as_slice()
    }

    /// How long the log of the parent was.
    pub fn position(&self) -> u64
        ensures { result ≡ self.now.position }
    {
        self.position
    }

    /// The same decision once more.
    pub fn copy(&self, alloc: Global) -> Result<Decision, Memory>
        ensures { IfOk result (λ copy. copy ≡ self.now) }
    {
        Ok(Decision {
            table: self.table,
            key: self.key.copy(alloc)?,
            period: self.period,
            copied: copied_copy(alloc, self.copied.as_slice())?,
            position: self.position,
        })
    }
}

/// What a session has open to resolve conflicts of the workspace of a number: decisions in the order in which they were
/// made.
#[derive(Drop)]
pub struct Resolve {
    pub space: u32,
    pub decisions: Vec<Decision>,
}

impl Model for Resolve {
    ghost use Rattle.wm_state.specs.State.{Resolve as ResolveState};

    ghost Value = { ResolveState };

    ghost view = { λ r. record { space = r.space; decisions = r.decisions.items } };
}

/// Puts copies of decisions behind others.
pub fn push_copies(
    alloc: Global,
    decisions: &mut Vec<Decision>,
    more: &[Decision],
) -> Result<(), Memory>
    ensures { OnOk result (decisions.new.items ≡ decisions.old.items ++ more.now) }
{
    for decision in more {
        decisions.push(decision.copy(alloc)?)?;
    }
    Ok(())
}

impl Resolve {
    /// One of the workspace of a number, in which nothing is decided.
    pub fn new(alloc: Global, space: u32) -> Resolve
        ensures { result ≡ record { space = space; decisions = [] } }
    {
        Resolve {
            space,
            decisions: Vec::new(alloc),
        }
    }

    /// Puts copies of decisions behind those that were made.
    pub fn decide(&mut self, alloc: Global, decisions: &[Decision]) -> Result<(), Memory>
        ensures { OnOk result (self.new ≡ record self.old { decisions = self.old.decisions ++ decisions.now }) }
    {
        push_copies(alloc, &mut self.decisions, decisions)
    }
}
