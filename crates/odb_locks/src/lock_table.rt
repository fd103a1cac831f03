//! The locks by their names. [P 11.1, 11.2]

ghost use Rattle.std.specs.Prelude.{◌≡◌, filter, map, string_bytes, IfOk, OnOk, OnErr};
ghost use Rattle.std.specs.BTreeSet.{IsOrdered};
ghost use Rattle.std.specs.Option.{option_copied};
ghost use Rattle.std.specs.String.{string_cmp};
ghost use Rattle.odb_atoms.specs.FinMap as finite;
ghost use Rattle.odb_locks.specs.Locks.{has_claim, is_free, lock_of, owns, put_lock, without};
ghost use Rattle.odb_locks.specs.Represented.Lock.{first_of, next_of, with_claim};
ghost use Rattle.odb_locks.specs.Represented.Locks.{all_notices, all_released};
ghost use Rattle.odb_locks.specs.Represented.Notice.{notices_of};

use crate::lock::{Claim, Lock};
use crate::notice::{Notice, tell};
use std::alloc::{AllocError, Global};
use std::collections::{BTreeMap, BTreeSet};
use std::marker::Model;

/// The locks that somebody claims or was robbed of, by name.
#[derive(Drop)]
pub struct LockTable {
    locks: BTreeMap<String, Lock>,
}

impl Model for LockTable {
    ghost use Rattle.odb_locks.specs.Locks as model;
    ghost use Rattle.odb_locks.specs.Represented.Lock.{locks_code};
    ghost use Rattle.odb_locks.specs.Represented.LockTable.{locks_in};

    ghost Value = { model.Locks };

    ghost coded = { locks_code };

    ghost view = { λ a. locks_in a.locks };
}

impl LockTable {
    /// Makes locks, of which there are none.
    pub fn new(alloc: Global) -> LockTable
        ensures { result ≡ finite.empty }
    {
        LockTable {
            locks: BTreeMap::new(alloc),
        }
    }

    /// Returns how many names there are.
    pub fn len(&self) -> usize
        ensures { result ≡ finite.len self.now }
    {
        self.locks.len()
    }

    /// Returns whether nobody claims the name, or was robbed of it.
    pub fn is_free(&self, name: &str) -> bool
        ensures { result ≡ is_free (lock_of self.now name.now) }
    {
        self.get(name).is_none_or(|lock| lock.is_free())
    }

    /// Returns whether the session has a claim of the name that it hasn't unlocked.
    pub fn has_claim(&self, name: &str, session: usize) -> bool
        ensures { result ≡ has_claim session (lock_of self.now name.now) }
    {
        self.get(name).is_some_and(|lock| lock.has_claim(session))
    }

    /// Returns the session whose claim of the name is the first.
    pub fn owner(&self, name: &str) -> Option<usize>
        ensures { result ≡ first_of (lock_of self.now name.now).claims }
    {
        self.get(name).and_then(|lock| lock.owner())
    }

    /// Returns the session whose claim of the name becomes the first when this session's goes.
    pub fn next_owner(&self, name: &str, session: usize) -> Option<usize>
        ensures { result ≡ next_of session (lock_of self.now name.now).claims }
    {
        self.get(name).and_then(|lock| lock.next_owner(session))
    }

    fn get(&self, name: &str) -> Option<&Lock>
        ensures { option_copied result ≡ finite.get self.now name.now }
    {
        self.locks.get(name)
    }

    /// Takes up a claim of a session that has none of the name.
    pub fn claim(&mut self, alloc: Global, name: &str, claim: Claim) -> Result<(), AllocError>
        ensures ok { OnOk result (self.new
            ≡ finite.insert self.old name.now (with_claim claim (lock_of self.old name.now))) }
        ensures err { OnErr result (self.new ≡ self.old) }
    {
        if let Some(lock) = self.locks.get_mut(name) {
            return lock.claim(claim);
        }
        let mut lock = Lock::new(alloc);
        lock.claim(claim)?;
        self.locks.insert(String::from_str(alloc, name)?, lock)?;
        Ok(())
    }

    /// Takes back whatever claim the session has of the name.
    pub fn release(&mut self, name: &str, session: usize)
        ensures { self.new ≡ put_lock self.old name.now (without session (lock_of self.old name.now)) }
    {
        let Some(lock) = self.locks.get_mut(name) else {
            return;
        };
        lock.release(session);
        if lock.is_free() {
            drop(self.locks.remove(name));
        }
    }

    /// Returns the notices that releasing the claims of the session on `names` causes, in the order of
    /// `names`.
    pub fn notices_of_release(
        &self,
        alloc: Global,
        names: &BTreeSet<String>,
        session: usize,
    ) -> Result<Vec<Notice>, AllocError>
        ensures notices { IfOk result (λ notices. notices_of notices.items
            ≡ all_notices session (lock_of self.now) (map string_bytes names.now.keys)) }
        ensures ordered { IsOrdered string_cmp names.now }
    {
        let mut notices = Vec::new(alloc);
        for name in names {
            let name = name.as_str();
            let next = self.next_owner(name, session);
            tell(&mut notices, alloc, next, false, name)?;
        }
        Ok(notices)
    }

    /// Returns those of the names whose lock the session owns, in their order.
    pub fn owned_among<'a>(
        &self,
        alloc: Global,
        names: &'a BTreeSet<String>,
        session: usize,
    ) -> Result<Vec<&'a str>, AllocError>
        ensures owned { IfOk result (λ owned. map (λ name. name.now) owned.items
            ≡ filter (owns self.now session) (map string_bytes names.now.keys)) }
        ensures ordered { IsOrdered string_cmp names.now }
    {
        let mut owned = Vec::new(alloc);
        for name in names {
            let name = name.as_str();
            if self.is_owned_by(name, session) {
                owned.push(name)?;
            }
        }
        Ok(owned)
    }

    /// Returns whether the session's claim of the name is the first.
    pub fn is_owned_by(&self, name: &str, session: usize) -> bool
        ensures { result ≡ owns self.now session name.now }
    {
        self.owner(name) == Some(session)
    }

    /// Takes back the session's claims of the names.
    pub fn release_all(&mut self, names: &BTreeSet<String>, session: usize)
        ensures released { self.new
            ≡ all_released session self.old (map string_bytes names.now.keys) }
        ensures ordered { IsOrdered string_cmp names.now }
    {
        for name in names {
            self.release(name.as_str(), session);
        }
    }
}
