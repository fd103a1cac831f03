//! The last commits. [P 9.8]
ghost use Rattle.std.specs.Prelude.{◌≡◌, ◌-◌, ◌<◌, ◌≤◌, ◌^◌, [], ◌∷◌, length, slice_get, take, unwrap_or, IfErr, IfOk, IfSome, OnOk};
ghost use Rattle.std.specs.VecDeque.{deque_capacity};
ghost use Rattle.odb_atoms.specs.FinMap as finite;
ghost use Rattle.odb_atoms.specs.Represented.Atom.{uuid_of};
ghost use Rattle.odb_recent.specs.Recent.{commits_ago, kept_undo, noted, number_of, recent_of};
ghost use Rattle.odb_recent.specs.Represented.Merged.{merged};
ghost use Rattle.odb_recent.specs.Represented.Refused.{refused};
ghost use Rattle.odb_recent.specs.Undo.{olds_at, table_ago};
ghost use Rattle.odb_tables.specs.Change.{change};

use crate::merged::Merged;
use crate::old_row::OldRow;
use crate::refusal::Refusal;
use crate::undo::Undo;
use odb_schema::TableId;
use odb_tables::{ChangeSet, Table, TableChange};
use std::alloc::{AllocError, Global};
use std::collections::VecDeque;
use std::hash::RandomState;
use std::marker::Model;
use uuid::Uuid;

/// How many numbers there are for the commits of a run.
const NUMBERS: u128 = 18_446_744_073_709_551_616;

/// How many commits there were, and what the last of them replaced: so the contents that these made can be found by
/// the commits' identifiers, as `monitor_cond_since` asks for them (ovsdb-server(7), 4.1.15).
pub struct Recent {
    alloc: Global,
    hashing: RandomState,
    run: u64,
    commits: u64,
    most: usize,
    undos: VecDeque<Undo>,
}

impl Model for Recent {
    ghost use Rattle.std.specs.Prelude.{◌≡◌, ◌-◌, ◌≤◌, length, min};
    ghost use Rattle.std.specs.VecDeque.{deque_capacity};
    ghost use Rattle.odb_recent.specs.Recent as model;
    ghost use Rattle.odb_recent.specs.Represented.Codes.{recent_code};

    ghost Value = { model.Recent };

    ghost coded = { recent_code };

    ghost view = { λ r. record { run = r.run; commits = r.commits; most = r.most; undos = r.undos.items } };

    ghost invariant = { λ r. (length r.undos.items ≡ min r.commits (r.most - 1)) × (r.most - 1 ≤ deque_capacity r.undos) };
}

impl Recent {
    /// Makes one of no commits. The contents that the last `most` of them make will be found, and none where that is 0.
    /// The run's word tells identifiers of its commits apart from those of other runs. O(`most`) in memory, and O(1) in
    /// time.
    pub fn new(
        alloc: Global,
        run: u64,
        most: usize,
        hashing: RandomState,
    ) -> Result<Recent, AllocError>
        ensures { IfOk result (λ recent. recent ≡ recent_of run most) }
    {
        Ok(Recent {
            alloc,
            hashing,
            run,
            commits: 0,
            most,
            undos: VecDeque::with_capacity(alloc, most.saturating_sub(1))?,
        })
    }

    /// Returns how many commits there were. O(1).
    pub fn commits(&self) -> u64
        ensures { result ≡ self.now.commits }
    {
        self.commits
    }

    /// Returns the run's word. O(1).
    pub fn run(&self) -> u64
        ensures { result ≡ self.now.run }
    {
        self.run
    }

    /// Returns the identifier of the newest commit: a number whose upper 64 bits are the run's word, and the lower
    /// ones how many commits there were. O(1).
    pub fn number(&self) -> Uuid
        ensures { uuid_of result ≡ number_of self.now.run self.now.commits }
    {
        Uuid::from_u64_pair(self.run, self.commits)
    }

    /// Returns how many commits ago the one of this identifier was, if the content that it made is findable: if it is
    /// one of this run and of the last `most`. O(1).
    pub fn find(&self, number: Uuid) -> Option<usize>
        ensures found { result ≡ commits_ago self.now.most self.now.run self.now.commits (uuid_of number) }
        ensures findable { IfSome result (λ ago. ago ≤ length self.now.undos) }
    {
        let number = number.as_u128();
        let commit = number % NUMBERS;
        if number / NUMBERS != u128::from(self.run)
            || commit == 0
            || commit > u128::from(self.commits)
        {
            return None;
        }
        let ago = u128::from(self.commits) - commit;
        if ago >= self.most as u128 {
            return None;
        }
        Some(ago as usize)
    }

    /// Shares what the change replaces, to be handed to `push` once it is made: nothing, where no content but the newest
    /// is to be found. It is refused where there were 2^64 - 1 commits, and else where memory is. O(tables) and
    /// O(rows changed).
    pub fn prepare(&self, change: &ChangeSet) -> Result<Undo, Refusal>
        ensures ok { IfOk result (λ undo. undo ≡ kept_undo self.now.most change.now) }
        ensures few { OnOk result (self.now.commits < 2 ^ 64 - 1) }
        ensures err { IfErr result (λ refusal. refusal ≡ refused self.now.commits) }
    {
        if self.commits == u64::MAX {
            return Err(Refusal::TooMany);
        }
        if self.most < 2 {
            return Ok(Undo::new(self.alloc));
        }
        Ok(Undo::of(self.alloc, change)?)
    }

    /// Counts a commit, and puts what it replaced before what earlier ones did. Where that is one more than can be
    /// found, what the earliest of them replaced is dropped. It can't be refused. O(1), and O(the rows that are
    /// dropped).
    pub fn push(&mut self, undo: Undo)
        requires { self.old.commits < 2 ^ 64 - 1 }
        ensures { self.new ≡ noted undo self.old }
    {
        self.commits += 1;
        push_at_most(&mut self.undos, self.most.saturating_sub(1), undo);
    }

    /// Makes what leads from the table as it was so many commits ago, where it is this now: each row that differs, once.
    /// Of contents that aren't findable nothing is undone; `find` names none. On the average O(k) for k rows of the table that
    /// changed since, each as often as it changed, and for each commit O(tables that it changed).
    pub fn since(&self, ago: usize, table: TableId, now: &Table) -> Result<TableChange, AllocError>
        ensures { IfOk result (λ made. made ≡ change (table_ago table (take ago self.now.undos) now.now) now.now) }
    {
        self.merged(ago, table)?.change_to(now)
    }

    /// Merges what that many commits replaced, the earliest first.
    fn merged(&self, ago: usize, table: TableId) -> Result<Merged, AllocError>
        ensures { IfOk result (λ rows. rows ≡ merged table (take ago self.now.undos)) }
    {
        let mut rows = Merged::new(self.alloc, self.hashing);
        let mut left = self.undos.len().min(ago);
        while left > 0 {
            left -= 1;
            rows.add_all(rows_at(&self.undos, left, table))?;
        }
        Ok(rows)
    }
}

/// Puts what a commit replaced before the others, of which as many stay as there is room for.
fn push_at_most(undos: &mut VecDeque<Undo>, most: usize, undo: Undo)
    requires { most ≤ deque_capacity undos.old }
    ensures items { undos.new.items ≡ take most (undo ∷ undos.old.items) }
    ensures room { most ≤ deque_capacity undos.new }
{
    if most == 0 {
        undos.clear();
        return;
    }
    undos.truncate(most - 1);
    undos.push_front_reserved(undo);
}

/// Returns what a commit replaced of the table.
fn rows_at(undos: &VecDeque<Undo>, place: usize, table: TableId) -> &[OldRow]
    ensures { finite.from_entries result.now ≡ olds_at (unwrap_or (slice_get undos.now.items place) []) table }
{
    match undos.get(place) {
        Some(undo) => undo.rows_of(table),
        None => &[],
    }
}

// Written, and not derived, so that each end of a scope is one call to prove.
impl Drop for Recent {
    fn drop(self) {
        let Recent {
            alloc: _,
            hashing: _,
            run: _,
            commits: _,
            most: _,
            undos: _,
        } = self;
    }
}
