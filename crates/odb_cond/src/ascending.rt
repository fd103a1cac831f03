//! Atoms in their order, among which one is searched.

ghost use Rattle.std.specs.Prelude.{◌≡◌, IsPermutation};
ghost use Rattle.odb_atoms.specs.Represented.Atom.{atom_of};
ghost use Rattle.odb_cond.specs.Represented.Keyed.{is_among};

use odb_atoms::Atom;
use std::marker::Model;

/// Atoms in ascending order, of which some may stand twice.
#[derive(Drop)]
pub(crate) struct Ascending {
    atoms: Vec<Atom>,
}

impl Model for Ascending {
    ghost use Rattle.std.specs.Prelude.{List};
    ghost use Rattle.std.specs.List.Sorted.{IsSorted};
    ghost use Rattle.odb_atoms.specs.Atom.{atom_cmp};
    ghost use Rattle.odb_atoms.specs.Represented.Atom.{atom_of};
    ghost use Rattle.odb_atoms.specs.declared.atom.Atom as code;

    ghost Value = { List code.Atom };

    ghost view = { λ a. a.atoms.items };

    ghost invariant = { λ a. IsSorted (λ x y. atom_cmp (atom_of x) (atom_of y)) a.atoms.items };
}

impl Ascending {
    /// Puts the atoms in their order. O(n log n) comparisons.
    pub(crate) fn of(atoms: Vec<Atom>) -> Ascending
        ensures { IsPermutation atoms.items result }
    {
        let mut atoms = atoms;
        atoms.sort_unstable();
        Ascending { atoms }
    }

    /// Returns whether the atom is among them. O(log n) comparisons.
    pub(crate) fn has(&self, atom: &Atom) -> bool
        ensures { result ≡ is_among self.now (atom_of atom.now) }
    {
        match self.atoms.binary_search(atom) {
            Ok(_) => true,
            Err(_) => false,
        }
    }
}
