//! Versions of a table at which marks stand: how many changes it had by then.
ghost use Rattle.std.specs.Prelude.{◌≡◌};
ghost use Rattle.odb_chain.specs.Represented.Chain.{AreApart};
ghost use Rattle.odb_chain.specs.Represented.MarkedVersions.{is_between};

use std::marker::Model;

/// A version with how many marks stand at it.
#[derive(Clone, Copy)]
pub(crate) struct MarkedVersion {
    pub(crate) version: u64,
    pub(crate) marks: usize,
}

impl Model for MarkedVersion {
    ghost use Rattle.std.specs.Prelude.{ℕ};
    ghost use Rattle.odb_chain.specs.Represented.Codes.{marked_version_code};

    ghost Value = { ℕ × ℕ };

    ghost coded = { marked_version_code };

    ghost view = { λ l. (l.version, l.marks) };

    ghost inverse = { λ e. record { version = e.0; marks = e.1 } };
}

/// Versions that rise, with their marks.
#[derive(Drop)]
pub(crate) struct MarkedVersions<'a> {
    live: &'a [MarkedVersion],
}

impl<'a> Model for MarkedVersions<'a> {
    ghost use Rattle.std.specs.Prelude.{ℕ, List};
    ghost use Rattle.std.specs.Coded.{coded_list};
    ghost use Rattle.odb_chain.specs.Represented.Chain.{AreApart};
    ghost use Rattle.odb_chain.specs.Represented.Codes.{marked_version_code};

    ghost Value = { List (ℕ × ℕ) };

    ghost coded = { coded_list marked_version_code };

    ghost view = { λ p. p.live.now };

    ghost invariant = { λ p. AreApart p.live.now };
}

impl<'a> MarkedVersions<'a> {
    /// Takes these versions.
    pub(crate) fn of(live: &'a [MarkedVersion]) -> MarkedVersions<'a>
        requires { AreApart live.now }
        ensures { result ≡ live.now }
    {
        MarkedVersions { live }
    }

    /// Returns whether one of them is after the first one and up to the last one. O(log n) for n versions.
    pub(crate) fn is_between(&self, after: u64, up_to: u64) -> bool
        ensures { result ≡ is_between self.now after up_to }
    {
        let next = self.live.partition_point(|live| live.version <= after);
        if next >= self.live.len() {
            return false;
        }
        let first = &self.live[next];
        first.version <= up_to
    }
}
