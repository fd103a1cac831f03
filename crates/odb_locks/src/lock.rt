//! One lock: its claims in order, the first of which owns, and the sessions that were robbed. [P 11.1]

ghost use Rattle.std.specs.Prelude.{◌≡◌, [], ◌==◌, OnOk, OnErr};
ghost use Rattle.std.specs.List.{list_any};
ghost use Rattle.odb_locks.specs.Locks as model;
ghost use Rattle.odb_locks.specs.Locks.{has_claim, is_free, without};
ghost use Rattle.odb_locks.specs.Represented.Lock.{first_of, next_of, with_claim};

use std::alloc::{AllocError, Global};
use std::marker::Model;

/// A session's claim of a lock, by `lock` or by `steal`.
#[derive(Clone, Copy)]
pub struct Claim {
    session: usize,
    stolen: bool,
}

impl Model for Claim {
    ghost use Rattle.odb_locks.specs.Locks as model;
    ghost use Rattle.odb_locks.specs.Represented.Lock.{claim_code};

    ghost Value = { model.Claim };

    ghost coded = { claim_code };

    ghost view = { λ a. record { session = a.session; stolen = a.stolen } };

    ghost inverse = { λ c. record { session = c.session; stolen = c.stolen } };
}

impl Claim {
    /// Makes the claim of a session, by `steal` or else by `lock`.
    pub fn new(session: usize, stolen: bool) -> Claim
        ensures { result ≡ record { session = session; stolen = stolen } }
    {
        Claim { session, stolen }
    }
}

/// The claims of one name, and the sessions that lost a stolen claim of it and still have to unlock.
pub struct Lock {
    claims: Vec<Claim>,
    robbed: Vec<usize>,
}

impl Model for Lock {
    ghost use Rattle.odb_locks.specs.Locks as model;
    ghost use Rattle.odb_locks.specs.Represented.Lock.{lock_code};

    ghost Value = { model.Lock };

    ghost coded = { lock_code };

    ghost view = { λ a. record { claims = a.claims.items; robbed = a.robbed.items } };
}

impl Lock {
    /// Makes a lock that nobody claims.
    pub fn new(alloc: Global) -> Lock
        ensures { result ≡ record { claims = []; robbed = [] } }
    {
        Lock {
            claims: Vec::new(alloc),
            robbed: Vec::new(alloc),
        }
    }

    /// Returns whether nobody claims it, or was robbed of it.
    pub fn is_free(&self) -> bool
        ensures { result ≡ is_free self.now }
    {
        self.claims.is_empty() && self.robbed.is_empty()
    }

    /// Returns whether the session has a claim that it hasn't unlocked.
    pub fn has_claim(&self, session: usize) -> bool
        ensures { result ≡ has_claim session self.now }
    {
        self.is_claimed_by(session) || self.is_robbed(session)
    }

    fn is_claimed_by(&self, session: usize) -> bool
        ensures { result ≡ list_any (λ c. c.session == session) self.now.claims }
    {
        self.claims.iter().any(|claim| claim.session == session)
    }

    fn is_robbed(&self, session: usize) -> bool
        ensures { result ≡ list_any (λ t. t == session) self.now.robbed }
    {
        self.robbed.contains(&session)
    }

    /// Returns the session whose claim is the first.
    pub fn owner(&self) -> Option<usize>
        ensures { result ≡ first_of self.now.claims }
    {
        self.claims.first().map(|claim| claim.session)
    }

    /// Returns the session whose claim becomes the first when this session's goes.
    pub fn next_owner(&self, session: usize) -> Option<usize>
        ensures { result ≡ next_of session self.now.claims }
    {
        match self.claims.as_slice() {
            [owner, next, ..] if owner.session == session => Some(next.session),
            _ => None,
        }
    }

    /// Takes up a claim of a session that has none.
    pub fn claim(&mut self, claim: Claim) -> Result<(), AllocError>
        ensures ok { OnOk result (self.new ≡ with_claim claim self.old) }
        ensures err { OnErr result (self.new ≡ self.old) }
    {
        if !claim.stolen {
            self.claims.push(claim)?;
            return Ok(());
        }
        match self.claims.first().copied() {
            // An owner by `steal` leaves, and is robbed.
            Some(owner) if owner.stolen => {
                self.robbed.push(owner.session)?;
                self.claims[0] = claim;
            }
            _ => self.claims.insert(0, claim)?,
        }
        Ok(())
    }

    /// Takes back whatever claim the session has.
    pub fn release(&mut self, session: usize)
        ensures { self.new ≡ without session self.old }
    {
        self.claims.retain(|claim| claim.session != session);
        self.robbed.retain(|robbed| *robbed != session);
    }
}

// Written, and not derived, so that each end of a scope is one call to prove.
impl Drop for Lock {
    fn drop(self) {
        let Lock {
            claims: _,
            robbed: _,
        } = self;
    }
}
