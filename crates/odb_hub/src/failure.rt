//! Transactions that failed, and why. [P 15.2]

use odb_core::{Cause, Core, Failed, SessionId};

/// A transaction that failed, and why.
#[derive(Clone, Copy)]
pub struct TransactionFailure {
    /// Who asked for it.
    pub session: SessionId,
    /// Why it failed.
    pub cause: Cause,
}

/// Adds the causes of transactions that failed on the core as it is. Where memory is refused for one it isn't added. What
/// `Core::cause` costs for each.
pub(crate) fn add_causes(core: &Core, failed: Vec<Failed>, failures: &mut Vec<TransactionFailure>) {
    for one in failed {
        add_cause(core, &one, failures);
    }
}

/// Adds the cause of one that failed on the core as it is, if there is one.
fn add_cause(core: &Core, failed: &Failed, failures: &mut Vec<TransactionFailure>) {
    if let Ok(Some(cause)) = core.cause(failed) {
        let session = failed.session();
        drop(failures.push(TransactionFailure { session, cause }));
    }
}
