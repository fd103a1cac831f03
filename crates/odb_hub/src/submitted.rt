//! The requests of a stream that were submitted, which proofs alone read. It takes no memory, and its calls do nothing at run time.
ghost use Rattle.std.specs.Prelude.{◌≡◌, List, [], ◌++◌};
ghost use Rattle.std.specs.Borrow.{ftrue};
ghost use Rattle.std.specs.Coded.{coded_list};
ghost use Rattle.serde_json.specs.Data.{Data};
ghost use Rattle.odb_schema.specs.JsonCode.{data_code};

use crate::submission::Submission;
use std::marker::Model;
use std::snapshot::Snapshot;

/// A batch before a turn of it was submitted, and what is left of it after. It takes no memory.
#[derive(Drop)]
pub(crate) struct BatchStep {
    pub(crate) before: Snapshot<Vec<Submission>>,
    pub(crate) left: Snapshot<Vec<Submission>>,
}

/// The requests that were submitted, in their order.
#[derive(Drop)]
pub(crate) struct SubmittedRequests {
    pub(crate) ghost requests: { List Data } by { coded_list data_code },
}

impl Model for SubmittedRequests {
    ghost also_owns = { λ _. ftrue };
}

impl SubmittedRequests {
    ghost use Rattle.odb_hub.specs.Represented.Inbox.{submitted_in};

    /// Notes that nothing was submitted.
    pub(crate) fn none() -> SubmittedRequests
        ensures { result.requests ≡ [] }
    {
        SubmittedRequests {}
    }

    /// Returns these with those of a turn.
    pub(crate) fn after(&self, _step: &BatchStep) -> SubmittedRequests
        ensures { result.requests ≡ self.now.requests ++ submitted_in _step.now }
    {
        SubmittedRequests {}
    }
}
