//! Where transactions that fail are kept, so that they can be asked for their causes. [P 15.2]

use crate::failed::Failed;
use crate::submitted::Submitted;
use crate::waiting::Waiting;
use std::alloc::Global;
use std::mem;

/// Transactions that failed, and whether they are kept. No contract speaks of it.
#[derive(Drop)]
pub(crate) struct Failures {
    alloc: Global,
    failed: Vec<Failed>,
    keeps: bool,
}

impl Failures {
    /// Makes what keeps nothing.
    pub(crate) fn new(alloc: Global) -> Failures {
        Failures {
            alloc,
            failed: Vec::new(alloc),
            keeps: false,
        }
    }

    /// Keeps what fails from now on.
    pub(crate) fn begin(&mut self) {
        self.keeps = true;
    }

    /// Returns whether what fails is kept.
    pub(crate) fn keeps(&self) -> bool {
        self.keeps
    }

    /// Adds a transaction, where those that fail are kept. Where memory is refused it isn't added.
    pub(crate) fn add(&mut self, asked: Submitted) {
        if !self.keeps {
            return;
        }
        if let Ok(transaction) = Waiting::new(self.alloc, asked, None, 0) {
            drop(self.failed.push(Failed::new(transaction)));
        }
    }

    /// Adds these too. Where memory is refused they aren't added.
    pub(crate) fn append(&mut self, failed: Vec<Failed>) {
        for one in failed {
            drop(self.failed.push(one));
        }
    }

    /// Takes out what was kept.
    pub(crate) fn take(&mut self) -> Vec<Failed> {
        let alloc = self.alloc;
        mem::replace(&mut self.failed, Vec::new(alloc))
    }
}
