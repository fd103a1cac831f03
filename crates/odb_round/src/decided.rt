//! What was decided in a round, so that each composition is planned once. [P 10.1, 10.3]
ghost use Rattle.std.specs.Prelude.{◌≡◌, ℕ, [], ◌++◌, ◌∷◌, true, false, is_some, IfSome, OnErr, OnOk};
ghost use Rattle.std.specs.List.{All};
ghost use Rattle.odb_schema.specs.Schema.{Schema};
ghost use Rattle.odb_round.specs.Represented.Decided.{IsLikenessOf, AreDecisionsOf, Differs, IsAmong, IsDecisionOf, IsSame, IsThere, Puts, bucket_at};
ghost use Rattle.odb_sessions.specs.Represented.Alike.{likeness_in};
ghost use Rattle.odb_sessions.specs.Represented.Digest as spec;

use odb_sessions::{Monitor, Way};
use std::alloc::{AllocError, Global};
use std::collections::BTreeMap;
use std::marker::Model;

/// What is composed for the client of a monitor in a way, and the place of the job; `None` where nothing is sent.
#[derive(Drop)]
pub(crate) struct Decision<'a> {
    monitor: &'a Monitor,
    way: Way<'a>,
    place: Option<usize>,
}

impl<'a> Model for Decision<'a> {
    ghost use Rattle.odb_round.specs.Jobs as model;
    ghost use Rattle.odb_sessions.specs.Represented.Alike.{likeness_in};
    ghost use Rattle.odb_round.specs.Represented.Codes.{decision_code};

    ghost Value = { model.Decision };

    ghost coded = { decision_code };

    ghost view = { λ d. record { likeness = likeness_in d.monitor.now d.way; place = d.place } };
}

impl<'a> Decision<'a> {
    /// Decides that it is composed by the job at this place. O(1).
    pub(crate) fn new(monitor: &'a Monitor, way: Way<'a>, place: Option<usize>) -> Decision<'a>
        ensures { result ≡ record { likeness = likeness_in monitor.now way.entry; place = place } }
    {
        Decision {
            monitor,
            way,
            place,
        }
    }

    /// Returns whether the same is composed for the client of this monitor in this way, where all requests are of one schema.
    fn serves(&self, monitor: &'a Monitor, way: Way<'a>) -> bool
        ensures same { result ≡ true → (s : Schema) → IsDecisionOf s self.now → IsLikenessOf s (likeness_in monitor.now way.entry) → self.now.likeness ≡ likeness_in monitor.now way.entry }
        ensures differs { result ≡ false → Differs (likeness_in monitor.now way.entry) self.now }
    {
        let own = self.monitor;
        own.is_like(self.way, monitor, way)
    }
}

/// Decisions that have one digest.
#[derive(Drop)]
struct Bucket<'a> {
    decisions: Vec<Decision<'a>>,
}

impl<'a> Model for Bucket<'a> {
    ghost use Rattle.std.specs.Prelude.{List};
    ghost use Rattle.odb_round.specs.Jobs as model;
    ghost use Rattle.odb_round.specs.Represented.Codes.{bucket_code};

    ghost Value = { List model.Decision };

    ghost coded = { bucket_code };

    ghost view = { λ b. b.decisions.items };
}

impl<'a> Bucket<'a> {
    fn new(alloc: Global) -> Bucket<'a>
        ensures { result ≡ [] }
    {
        Bucket {
            decisions: Vec::new(alloc),
        }
    }

    fn push(&mut self, decision: Decision<'a>) -> Result<(), AllocError>
        ensures ok { OnOk result (self.new ≡ self.old ++ decision.entry ∷ []) }
        ensures err { OnErr result (self.new ≡ self.old) }
    {
        if self.decisions.push(decision).is_err() {
            return Err(AllocError);
        }
        Ok(())
    }

    /// Returns what was decided of what is composed for the client of this monitor in this way, where all requests are of one
    /// schema.
    fn find(&self, monitor: &'a Monitor, way: Way<'a>) -> Option<Option<usize>>
        ensures some { IfSome result (λ place. (s : Schema) → All (IsDecisionOf s) self.now → IsLikenessOf s (likeness_in monitor.now way.entry)
            → IsAmong self.now (record { likeness = likeness_in monitor.now way.entry; place = place })) }
        ensures none { is_some result ≡ false → All (Differs (likeness_in monitor.now way.entry)) self.now }
    {
        for decision in &self.decisions {
            if decision.serves(monitor, way) {
                return Some(decision.place);
            }
        }
        None
    }
}

/// What was decided, by digests.
#[derive(Drop)]
pub(crate) struct Decided<'a> {
    alloc: Global,
    buckets: BTreeMap<u64, Bucket<'a>>,
}

impl<'a> Decided<'a> {
    /// Makes decisions, of which there are none. O(1).
    pub(crate) fn new(alloc: Global) -> Decided<'a>
        ensures { (n : ℕ) → bucket_at result n ≡ [] }
    {
        Decided {
            alloc,
            buckets: BTreeMap::new(alloc),
        }
    }

    /// Returns what was decided of what is composed for the client of this monitor in this way, where all requests are of one
    /// schema, and that has this digest. O(log n) for n decisions, and a comparison of monitors for each that has it.
    pub(crate) fn find(
        &self,
        digest: u64,
        monitor: &'a Monitor,
        way: Way<'a>,
    ) -> Option<Option<usize>>
        ensures some { IfSome result (λ place. (s : Schema) → AreDecisionsOf s self.now → IsLikenessOf s (likeness_in monitor.now way.entry)
            → IsThere self.now (record { likeness = likeness_in monitor.now way.entry; place = place })) }
        ensures none { is_some result ≡ false → All (Differs (likeness_in monitor.now way.entry)) (bucket_at self.now digest) }
    {
        match self.buckets.get(&digest) {
            Some(bucket) => bucket.find(monitor, way),
            None => None,
        }
    }

    /// Puts a decision in, which has this digest. O(log n) for n decisions.
    pub(crate) fn put(&mut self, digest: u64, decision: Decision<'a>) -> Result<(), AllocError>
        requires digest { digest ≡ spec.digest decision.likeness }
        ensures ok { OnOk result (Puts self.old self.new decision.entry) }
        ensures err { OnErr result (IsSame self.old self.new) }
    {
        let Some(bucket) = self.buckets.get_mut(&digest) else {
            return self.put_first(digest, decision);
        };
        bucket.push(decision)
    }

    /// Puts the first decision with this digest in.
    fn put_first(&mut self, digest: u64, decision: Decision<'a>) -> Result<(), AllocError>
        requires digest { digest ≡ spec.digest decision.likeness }
        requires none { bucket_at self.old digest ≡ [] }
        ensures ok { OnOk result (Puts self.old self.new decision.entry) }
        ensures err { OnErr result (IsSame self.old self.new) }
    {
        let mut bucket = Bucket::new(self.alloc);
        bucket.push(decision)?;
        drop(self.buckets.insert(digest, bucket)?);
        Ok(())
    }
}
