//! The names that each session claims or was robbed of.

ghost use Rattle.std.specs.Prelude.{◌≡◌, ℕ, List, true, false, OnOk, OnErr};
ghost use Rattle.std.specs.Option.{option_copied};

use std::alloc::{AllocError, Global};
use std::collections::{BTreeMap, BTreeSet};

/// The names of the locks that each session has a claim of, so that the end of a session needn't
/// walk through all names. A session that has given back its last claim keeps an empty set until
/// it ends.
#[derive(Drop)]
pub struct Index {
    names: BTreeMap<usize, BTreeSet<String>>,
}

impl Index {
    ghost use Rattle.odb_locks.specs.Represented.Index.{Forgets, IsUnchanged, Sets, has_name, names_have};

    /// Makes an index of no names.
    pub fn new(alloc: Global) -> Index
        ensures { (s : ℕ) (q : List ℕ) → has_name result s q ≡ false }
    {
        Index {
            names: BTreeMap::new(alloc),
        }
    }

    /// Returns the names that the session has a claim of, in the order of their bytes.
    pub fn names(&self, session: usize) -> Option<&BTreeSet<String>>
        ensures { (q : List ℕ) → names_have (option_copied result) q ≡ has_name self.now session q }
    {
        self.names.get(&session)
    }

    /// Adds a name to the session's.
    pub fn insert(&mut self, alloc: Global, session: usize, name: &str) -> Result<(), AllocError>
        ensures ok { OnOk result (Sets self.old self.new session name.now true) }
        ensures err { OnErr result (IsUnchanged self.old self.new) }
    {
        let name = String::from_str(alloc, name)?;
        if let Some(names) = self.names.get_mut(&session) {
            names.insert(name)?;
            return Ok(());
        }
        let mut names = BTreeSet::new(alloc);
        names.insert(name)?;
        self.names.insert(session, names)?;
        Ok(())
    }

    /// Takes a name from the session's.
    pub fn remove(&mut self, session: usize, name: &str)
        ensures { Sets self.old self.new session name.now false }
    {
        if let Some(names) = self.names.get_mut(&session) {
            names.remove(name);
        }
    }

    /// Takes all names from the session.
    pub fn forget(&mut self, session: usize)
        ensures { Forgets self.old self.new session }
    {
        self.names.remove(&session);
    }
}
