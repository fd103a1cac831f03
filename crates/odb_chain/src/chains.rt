//! A database with its past.
ghost use Rattle.std.specs.Prelude.{◌≡◌, ℕ, map, ◌+◌, ◌-◌, ◌^◌, ◌<◌, ◌≤◌, nat_eq, true, IfErr, IfOk, OnErr, OnOk, length};
ghost use Rattle.odb_atoms.specs.FinMap as finite;
ghost use Rattle.odb_chain.specs.Chains as model;
ghost use Rattle.odb_chain.specs.Chains.{IsLive, IsNow, absorbed, chains_of, count, live_at, mark_of, marked, released, version};
ghost use Rattle.odb_chain.specs.Represented.Chain.{IsReadyFor, IsStepped, StandsAsBefore, chain_at, change_at, is_moved, is_roomy, moved_at};
ghost use Rattle.odb_chain.specs.Segments.{contents_held, segments_held};
ghost use Rattle.odb_tables.specs.Change.{change};
ghost use Rattle.odb_tables.specs.Database as model_tables;
ghost use Rattle.odb_tables.specs.Database.{table_at};
ghost use Rattle.odb_tables.specs.Installing.{IsChangeOf};

use crate::chain::Chain;
use crate::content::Content;
use crate::mark::Mark;
use odb_schema::TableId;
use odb_tables::{ChangeSet, Db, Rows, Table, TableChange};
use std::alloc::{AllocError, AllocFailed, Global};
use std::hash::RandomState;
use std::marker::Model;
use std::mem;

/// A database, and of each table the contents for which marks stand. Of a content only the rows are kept that
/// changed since; marks between which a table didn't change share one.
pub struct Chains {
    alloc: Global,
    db: Db,
    chains: Vec<Chain>,
}

impl Model for Chains {
    ghost use Rattle.odb_chain.specs.Chains as model;
    ghost use Rattle.odb_chain.specs.Represented.Chain.{AreChainsOf, shown};
    ghost use Rattle.odb_chain.specs.Represented.Codes.{chains_code};

    ghost Value = { model.Chains };

    ghost coded = { chains_code };

    ghost view = { λ k. shown k.db k.chains.items };

    ghost invariant = { λ k. AreChainsOf k.db k.chains.items };
}

impl Chains {
    /// Makes chains of the database, without changes and marks. O(tables).
    pub fn new(alloc: Global, db: Db, hashing: RandomState) -> Result<Chains, AllocError>
        ensures chains { IfOk result (λ chains. chains ≡ chains_of db) }
        ensures now { IfOk result (λ chains. IsNow chains) }
    {
        let mut chains = Vec::with_capacity(alloc, db.len())?;
        for _ in 0..db.len() {
            chains.push(Chain::new(alloc, hashing))?;
        }
        Ok(Chains { alloc, db, chains })
    }

    /// Returns the database as it is now. There are as many lists of live marks as it has tables. O(1).
    pub fn db(&self) -> &Db
        ensures db { result.now ≡ self.now.db }
        ensures lists { length self.now.live ≡ length self.now.db }
    {
        &self.db
    }

    /// Returns whether the table had no change since the mark was made. O(1).
    #[inline(always)]
    pub fn is_now(&self, mark: &Mark) -> bool
        requires { IsLive self.now mark.now }
        ensures version { result ≡ nat_eq mark.now.version (version self.now mark.now.table) }
        ensures content { result ≡ true → mark.now.content ≡ table_at self.now.db mark.now.table }
    {
        mark.version == self.chains[mark.table.place()].version()
    }

    /// Returns how many contents of the table marks stand for; marks between which it didn't change count once. O(1).
    pub fn distinct_marks(&self, table: TableId) -> usize
        requires { table < length self.now.db }
        ensures { result ≡ contents_held self.now table }
    {
        self.chains[table.place()].len()
    }

    /// Returns how many segments of the table are kept: the changes from one content for which marks stand to the
    /// next one, or to now. There are never more of them than distinct marks. O(1).
    pub fn segments(&self, table: TableId) -> usize
        requires { table < length self.now.db }
        ensures count { result ≡ segments_held self.now table }
        ensures few { result ≤ contents_held self.now table }
    {
        self.chains[table.place()].earlier()
    }

    /// Makes the whole change, or none; all that marks stand for stays. Where memory is refused nothing
    /// changed, and the change comes back; so it does after 2^64 - 1 changes of one table. O(rows changed)
    /// and O(tables); a row that changes for the first time since the newest mark of its table was made costs
    /// O(log n) more for n versions with marks, on the average.
    pub fn absorb(&mut self, change: ChangeSet) -> Result<(), AllocFailed<ChangeSet>>
        requires { IsChangeOf self.old.db change }
        ensures ok { OnOk result (self.new ≡ absorbed change self.old) }
        ensures err { OnErr result (self.new ≡ self.old) }
        ensures handed_back { IfErr result (λ refused. refused.value ≡ change) }
        ensures now { IsNow self.new }
    {
        if prepare(&mut self.chains, change.tables()).is_err() {
            return Err(AllocFailed { value: change });
        }
        let Ok(moved) = moved_tables(self.alloc, change.tables()) else {
            return Err(AllocFailed { value: change });
        };
        self.db.install(change)?;
        step(&mut self.chains, moved.as_slice());
        Ok(())
    }

    /// Gives out a mark for what the table is now. O(1).
    pub fn mark_now(&mut self, table: TableId) -> Mark
        requires inside { table < length self.old.db }
        requires few { count self.old table (version self.old table) < 2 ^ 64 - 1 }
        ensures mark { result ≡ mark_of self.old table }
        ensures chains { self.new ≡ marked table self.old }
        ensures now { IsNow self.new }
    {
        let place = table.place();
        let version = self.chains[place].version();
        self.chains[place].mark();
        Mark {
            table,
            version,
            content: Content::of(&self.db.tables()[place]),
        }
    }

    /// Counts one mark less. What no other mark needs is dropped: rows that didn't change since the
    /// earliest mark that is left.
    pub fn release(&mut self, mark: Mark)
        requires { IsLive self.old mark }
        ensures chains { self.new ≡ released mark.table mark.version self.old }
        ensures now { IsNow self.new }
    {
        let Mark { table, version, .. } = mark;
        self.chains[table.place()].release(version);
    }

    /// Lets the mark stand for what its table is now.
    pub fn advance(&mut self, mark: &mut Mark)
        requires live { IsLive self.old mark.old }
        requires few { count self.old mark.old.table (version self.old mark.old.table) < 2 ^ 64 - 1 }
        ensures mark { mark.new ≡ mark_of self.old mark.old.table }
        ensures chains { self.new ≡ released mark.old.table mark.old.version (marked mark.old.table self.old) }
        ensures now { IsNow self.new }
    {
        let new = self.mark_now(self.table_of(mark));
        let old = mem::replace(mark, new);
        self.release(old);
    }

    /// Returns what leads from the content for which the mark stands to what its table is now: each row
    /// that differs, once. O(k log k) for the k rows changed since, each counted as often as it changed for
    /// the first time since a mark was made.
    pub fn since(&self, mark: &Mark) -> Result<TableChange, AllocError>
        requires { IsLive self.now mark.now }
        ensures { IfOk result (λ made. made ≡ change mark.now.content (table_at self.now.db mark.now.table)) }
    {
        let place = self.table_of(mark).place();
        self.chains[place].since(&self.db.tables()[place], mark.version)
    }

    /// Returns the mark's table as it is now. O(1).
    pub fn table(&self, mark: &Mark) -> &Table
        requires { IsLive self.now mark.now }
        ensures { result.now ≡ table_at self.now.db mark.now.table }
    {
        table_in(self.db.tables(), self.table_of(mark))
    }

    /// Returns the rows of the mark's table as it is now, with the database's row indexes of them. O(1).
    pub fn rows(&self, mark: &Mark) -> Rows<'_>
        requires { IsLive self.now mark.now }
        ensures { result ≡ table_at self.entry.now.db mark.entry.now.table }
    {
        self.db.rows(mark.table)
    }

    /// Returns the table of a mark, which the database has.
    fn table_of(&self, mark: &Mark) -> TableId
        requires { IsLive self.now mark.now }
        ensures table { result ≡ mark.now.table }
        ensures inside { result < length self.now.db }
        ensures lives { length self.now.live ≡ length self.now.db }
        ensures now { IsNow self.now }
    {
        let is_inside = mark.table.place() < self.chains.len();
        prove!(is_inside);
        mark.table
    }
}

/// Returns a table of the database.
fn table_in(tables: &[Table], table: TableId) -> &Table
    requires { table < length tables.now }
    ensures { result.now ≡ table_at tables.now table }
{
    &tables[table.place()]
}

/// Makes each chain ready for the change of its table. Where memory is refused, all marks stand for what
/// they did.
fn prepare(chains: &mut Vec<Chain>, changes: &[TableChange]) -> Result<(), AllocError>
    requires as_many { length changes.now ≡ length chains.old.items }
    ensures ok { OnOk result ((t : ℕ) → IsReadyFor (change_at changes.now t) (chain_at chains.new.items t)) }
    ensures stands { (db : model_tables.Db) → IsChangeOf db changes.now → (t : ℕ) → StandsAsBefore (table_at db t) (chain_at chains.old.items t) (chain_at chains.new.items t) }
    ensures same_length { length chains.new.items ≡ length chains.old.items }
{
    for place in 0..changes.len() {
        chains[place].prepare(&changes[place])?;
    }
    Ok(())
}

/// Returns which tables are changed.
fn moved_tables(alloc: Global, changes: &[TableChange]) -> Result<Vec<bool>, AllocError>
    ensures { IfOk result (λ moved. moved.items ≡ map is_moved changes.now) }
{
    let mut moved = Vec::with_capacity(alloc, changes.len())?;
    for change in changes {
        moved.push(!change.is_empty())?;
    }
    Ok(moved)
}

/// Counts the change of each table that is changed.
fn step(chains: &mut Vec<Chain>, moved: &[bool])
    requires as_many { length moved.now ≡ length chains.old.items }
    requires ready { (t : ℕ) → moved_at moved.now t ≡ true → (is_roomy (chain_at chains.old.items t).fresh (chain_at chains.old.items t).room ≡ true) × ((chain_at chains.old.items t).version < 2 ^ 64 - 1) }
    ensures stepped { (t : ℕ) → IsStepped (moved_at moved.now t) (chain_at chains.old.items t) (chain_at chains.new.items t) }
    ensures same_length { length chains.new.items ≡ length chains.old.items }
{
    for place in 0..moved.len() {
        step_if(&mut chains[place], moved[place]);
    }
}

fn step_if(chain: &mut Chain, moved: bool)
    requires { moved ≡ true → (is_roomy chain.old.fresh chain.old.room ≡ true) × (chain.old.version < 2 ^ 64 - 1) }
    ensures { IsStepped moved chain.old chain.new }
{
    if !moved {
        return;
    }
    chain.step();
}

// Written, and not derived, so that each end of a scope is one call to prove.
impl Drop for Chains {
    fn drop(self) {
        let Chains {
            alloc: _,
            db: _,
            chains: _,
        } = self;
    }
}
