//! The bytes that came so far, which proofs alone read. It takes no memory, and its calls do nothing at run time.
ghost use Rattle.std.specs.Prelude.{◌≡◌, ℕ, List, [], ◌++◌};
ghost use Rattle.std.specs.Borrow.{ftrue};

use std::marker::Model;

#[derive(Drop)]
pub(crate) struct FedBytes {
    pub(crate) ghost bytes: { List ℕ },
}

impl Model for FedBytes {
    ghost also_owns = { λ _. ftrue };
}

// It owns nothing.
unsafe impl Send for FedBytes {}

impl FedBytes {
    pub(crate) fn new() -> FedBytes
        ensures { result.bytes ≡ [] }
    {
        FedBytes {}
    }

    /// Notes a piece.
    pub(crate) fn add(&mut self, _piece: &[u8])
        ensures { self.new.bytes ≡ self.old.bytes ++ _piece.now }
    {}
}
