//! The failures of requests (RFC 7047, section 4). [P 8.3]
use odb_atoms::Error;

/// Why a request fails as a whole (RFC 7047, section 4, and ovsdb-server(7)): an error of the wire,
/// or one that operations have too.
#[derive(Clone, Copy)]
pub enum Failure {
    /// The method is not served.
    UnknownMethod,
    /// A database of another name.
    UnknownDatabase,
    /// A change or a removal of a monitor that isn't there.
    UnknownMonitor,
    /// A `transact` that was ended by `cancel` (RFC 7047, section 4.1.4).
    Canceled,
    /// An error that operations have too.
    Failed(Error),
}
