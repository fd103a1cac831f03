//! The database with its past, in which there is room for each mark that is made. [P 10.3]
ghost use Rattle.std.specs.Prelude.{◌≡◌, [], ◌∷◌, map, IfErr, IfOk, OnErr, OnOk};
ghost use Rattle.odb_chain.specs.Chains.{IsLive, IsNow, absorbed, chains_of, released};
ghost use Rattle.odb_sessions.specs.Composed.{AreTheirs};
ghost use Rattle.odb_sessions.specs.FirstTexts.{AreFirstTexts, IsFirstText};
ghost use Rattle.odb_sessions.specs.Marked.{table_marks};
ghost use Rattle.odb_sessions.specs.Moved.{Moves, now_of};
ghost use Rattle.odb_sessions.specs.Started.{AreOfTables};
ghost use Rattle.odb_sessions.specs.Tied.{Adds, HasAll};
ghost use Rattle.odb_tables.specs.Installing.{IsChangeOf};

use crate::first_texts::{FirstText, FirstTexts};
use crate::monitor::{Watching, watch_all};
use odb_chain::{Chains, Mark};
use odb_request::Request;
use odb_tables::{ChangeSet, Db};
use std::alloc::{AllocError, AllocFailed, Global};
use std::hash::RandomState;
use std::marker::Model;

/// The database with its past, one more than marks were made so far, and texts of first replies. Contracts see the
/// chains.
#[derive(Drop)]
pub(crate) struct Past {
    chains: Chains,
    made: usize,
    firsts: FirstTexts,
    /// How many changes were made or tried, modulo 2^64. No contract speaks of it.
    changes: u64,
}

impl Model for Past {
    ghost use Rattle.odb_chain.specs.Chains as model;
    ghost use Rattle.odb_chain.specs.Represented.Codes.{chains_code};
    ghost use Rattle.odb_sessions.specs.FirstTexts.{AreFirstTexts};
    ghost use Rattle.odb_sessions.specs.Tied.{HasRoom};

    ghost Value = { model.Chains };

    ghost coded = { chains_code };

    ghost view = { λ p. p.chains };

    ghost invariant = { λ p. HasRoom p.chains p.made × AreFirstTexts p.chains.db p.firsts };
}

impl Past {
    /// Makes the past of the database, without changes and marks.
    pub(crate) fn new(alloc: Global, db: Db, hashing: RandomState) -> Result<Past, AllocError>
        ensures chains { IfOk result (λ past. past ≡ chains_of db) }
        ensures now { IfOk result (λ past. IsNow past) }
    {
        let chains = Chains::new(alloc, db, hashing)?;
        Ok(Past {
            chains,
            made: 1,
            firsts: FirstTexts::new(alloc),
            changes: 0,
        })
    }

    /// Returns how many changes were made or tried, modulo 2^64. O(1). No contract speaks of it.
    pub(crate) fn changes(&self) -> u64 {
        self.changes
    }

    /// Returns the database with its past. O(1).
    pub(crate) fn chains(&self) -> &Chains
        ensures { result.now ≡ self.now }
    {
        &self.chains
    }

    /// Texts of first replies. O(1).
    pub(crate) fn firsts(&self) -> &FirstTexts
        ensures { AreFirstTexts self.now.db result.now }
    {
        &self.firsts
    }

    /// Adds the text of a first reply to those that are kept.
    pub(crate) fn add_first_text(&mut self, first: FirstText)
        requires { IsFirstText self.old.db first }
        ensures { self.new ≡ self.old }
    {
        self.firsts.add(first);
    }

    /// Makes the whole change, or none, and then the change comes back.
    pub(crate) fn absorb(&mut self, change: ChangeSet) -> Result<(), AllocFailed<ChangeSet>>
        requires { IsChangeOf self.old.db change }
        ensures ok { OnOk result (self.new ≡ absorbed change self.old) }
        ensures err { OnErr result (self.new ≡ self.old) }
        ensures handed_back { IfErr result (λ refused. refused.value ≡ change) }
        ensures now { IsNow self.new }
    {
        self.firsts.clear();
        self.changes = self.changes.wrapping_add(1);
        self.chains.absorb(change)
    }

    /// Counts one mark less.
    pub(crate) fn release(&mut self, mark: Mark)
        requires { IsLive self.old mark }
        ensures chains { self.new ≡ released mark.table mark.version self.old }
        ensures now { IsNow self.new }
    {
        self.chains.release(mark);
    }

    /// Watches each of these tables as it is now, with a mark each, or none. O(n) for n tables, and the members and atoms of
    /// their filters, with their bytes.
    pub(crate) fn watch(
        &mut self,
        alloc: Global,
        requests: Vec<Request>,
    ) -> Result<Vec<Watching>, AllocError>
        requires tables { AreOfTables self.old.db requests.items }
        requires now { IsNow self.old }
        ensures ok { IfOk result (λ tables. Adds self.old self.new (table_marks tables.items)) }
        ensures asked { IfOk result (λ tables. map (λ w. w.request) tables.items ≡ requests.items) }
        ensures theirs { IfOk result (λ tables. AreTheirs tables.items) }
        ensures err { OnErr result (self.new ≡ self.old) }
    {
        let Some(made) = self.made.checked_add(requests.len()) else {
            return Err(AllocError);
        };
        let tables = watch_all(alloc, &mut self.chains, requests)?;
        self.made = made;
        Ok(tables)
    }

    /// Lets a mark stand for what its table is now. O(1) where it does, and else what `odb_chain::Chains::advance` costs.
    #[inline(always)]
    pub(crate) fn advance(&mut self, mark: &mut Mark)
        requires has { HasAll self.old (mark.old ∷ []) }
        requires now { IsNow self.old }
        ensures mark { mark.new ≡ now_of self.old mark.old }
        ensures moved { Moves self.old self.new (mark.old ∷ []) }
    {
        if self.chains.is_now(mark) {
            return;
        }
        self.chains.advance(mark);
    }
}
