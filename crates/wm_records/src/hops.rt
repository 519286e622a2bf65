//! Hops: long steps down the paths of versions, so that a path of any length is gone down in few steps.

ghost use Rattle.std.specs.Prelude.{◌≡◌, ◌≤◌, ◌==◌, ◌&&◌, ℕ, true, nat_lt, if◌then◌else◌, List, [], Option, None, Some, OnOk};
ghost use Rattle.std.specs.Option.{option_and_then};
ghost use Rattle.wm_graph.specs.Parts.{as_version, parts_of};
ghost use Rattle.wm_records.specs.Hops.{hop_at, is_near, AreHops, AreWithout, Leads};
ghost use Rattle.wm_spec.specs.Records.{record_at};
ghost use Rattle.wm_spec.specs.declared.record.Record.{Record};
ghost use Rattle.wm_spec.specs.declared.record.stored.Stored.{Stored};
ghost use Rattle.wm_spec.specs.declared.record.version.Version.{Version as OneVersion};
ghost use Rattle.wm_state.specs.ById.{Ascend, set_at};

use std::alloc::Global;
use wm_base::Memory;
use wm_spec::record::Version;

/// The ways down from a version: to its parent, and by many steps to a version further down its path; 0 is the end of
/// every path.
#[derive(Clone, Copy)]
pub struct Hop {
    pub parent: u64,
    pub far: u64,
    steps: u64,
}

/// The most places in a row that are filled for numbers without a version: 2 MB. Numbers may lie further apart, where
/// many versions went or a store is damaged, and what they fill must not use up the memory.
const WIDEST_GAP: u64 = 65_536;

/// The hops of versions, a place for each number from the first on, and a number that no version is above. A version
/// without a hop is walked by its parent.
#[derive(Drop)]
pub struct Hops {
    by_number: Vec<Option<Hop>>,
    first: u64,
    greatest: u64,
}

impl Hops {
    /// The hops of no versions.
    pub fn new(alloc: Global) -> Hops
        ensures { AreHops [] result }
    {
        Hops {
            by_number: Vec::new(alloc),
            first: 0,
            greatest: 0,
        }
    }

    /// The hop of a version, where it has one.
    pub fn hop(&self, number: u64) -> Option<Hop>
        ensures { result ≡ hop_at self.now number }
    {
        if number < self.first {
            return None;
        }
        let place = (number - self.first) as usize;
        match self.by_number.as_slice().get(place) {
            Some(hop) => *hop,
            None => None,
        }
    }

    /// The hop of a version that comes under a parent: past the hop of the parent and the one behind it where these are
    /// of one length, else to the parent alone. So from any version each other on its path is a number of steps away
    /// that grows as the logarithm of the path's length.
    fn under(&self, parent: u64) -> Hop
        ensures parent { result.parent ≡ parent }
        ensures leads { (vs : List OneVersion) → AreHops vs self.now → (result.far ≤ parent) × Leads vs result.far parent }
    {
        if let Some(first) = self.hop(parent) {
            if let Some(second) = self.hop(first.far) {
                if first.steps == second.steps {
                    return Hop {
                        parent,
                        far: second.far,
                        steps: first.steps.saturating_add(second.steps).saturating_add(1),
                    };
                }
            }
        }
        Hop {
            parent,
            far: parent,
            steps: 1,
        }
    }

    /// Drops the hop of a version that goes.
    fn forget(&mut self, goes: Option<Version>)
        ensures without { AreWithout goes self.new }
        ensures rest { (vs : List OneVersion) → AreHops vs self.old → AreHops vs self.new }
    {
        let Some(version) = goes else {
            return;
        };
        if version.number < self.first {
            return;
        }
        let place = (version.number - self.first) as usize;
        if place < self.by_number.len() {
            self.by_number[place] = None;
        }
    }

    /// Whether the list of hops goes to a number, or ends no wider a gap below it than may be filled.
    fn is_near(&self, number: u64) -> bool
        ensures { result ≡ is_near self.now number }
    {
        if number < self.first {
            return false;
        }
        (number - self.first).saturating_sub(self.by_number.len() as u64) <= WIDEST_GAP
    }

    /// Begins anew at a number where that is not near: the versions before it have no hops then.
    fn come_near(&mut self, number: u64)
        ensures first { self.new.first ≤ number }
        ensures greatest { self.new.greatest ≡ self.old.greatest }
        ensures hops { (n : ℕ) → hop_at self.new n ≡ (if is_near self.old number then hop_at self.old n else None) }
    {
        if self.is_near(number) {
            return;
        }
        self.by_number.clear();
        self.first = number;
    }

    /// Adds the hop of a version that comes above all others: behind its number none is left.
    fn put(&mut self, number: u64, hop: Hop) -> Result<(), Memory>
        ensures greatest { self.new.greatest ≡ self.old.greatest }
        ensures hops { OnOk result ((n : ℕ) → hop_at self.new n ≡ (if number == n then Some hop else if is_near self.old number && nat_lt n number then hop_at self.old n else None)) }
    {
        self.come_near(number);
        self.by_number.resize((number - self.first) as usize, None)?;
        self.by_number.push(Some(hop))?;
        Ok(())
    }

    /// Adds the hop of a version that comes. Where its number is not above all others, or its parent's is not below it,
    /// which no store has that keeps the rules, no hop is left.
    fn learn(&mut self, comes: Option<Version>) -> Result<(), Memory>
        ensures { OnOk result ((ss : List Stored) (id : ℕ) (becomes : Option Record) → comes ≡ option_and_then as_version becomes → AreWithout (option_and_then as_version (record_at ss id)) self.old → AreHops (parts_of ss).versions self.old → AreHops (parts_of (set_at id becomes ss)).versions self.new) }
    {
        let Some(version) = comes else {
            return Ok(());
        };
        if version.number <= self.greatest || version.number <= version.parent {
            self.by_number.clear();
            self.greatest = self.greatest.max(version.number);
            return Ok(());
        }
        let hop = self.under(version.parent);
        self.put(version.number, hop)?;
        self.greatest = version.number;
        Ok(())
    }

    /// The hops when what stands under an id changes: a version goes, or comes, or both. A version that comes in its
    /// own place, as where a batch is applied to records that its front was applied to, is no change. A hop that passes
    /// over one that goes is left, since by the rules the versions above that go with it.
    pub fn follow(&mut self, goes: Option<Version>, comes: Option<Version>) -> Result<(), Memory>
        ensures { OnOk result ((ss : List Stored) (id : ℕ) (becomes : Option Record) → Ascend ss → goes ≡ option_and_then as_version (record_at ss id) → comes ≡ option_and_then as_version becomes → AreHops (parts_of ss).versions self.old → AreHops (parts_of (set_at id becomes ss)).versions self.new) }
    {
        if are_same(goes, comes) {
            return Ok(());
        }
        self.forget(goes);
        self.learn(comes)?;
        Ok(())
    }
}

/// Whether two are one version.
fn is_same(one: Version, other: Version) -> bool
    ensures { result ≡ true → one ≡ other }
{
    one.number == other.number && one.space == other.space && one.parent == other.parent
}

/// Whether two are one version, or neither is there.
fn are_same(one: Option<Version>, other: Option<Version>) -> bool
    ensures { result ≡ true → one ≡ other }
{
    match one {
        Some(one) => match other {
            Some(other) => is_same(one, other),
            None => false,
        },
        None => match other {
            Some(_) => false,
            None => true,
        },
    }
}
