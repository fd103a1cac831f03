//! In which ways something is composed for the client of a monitor. [P 9.2, 9.5, 9.8, 10.1]
ghost use Rattle.std.specs.Prelude.{◌≡◌, option_map};
ghost use Rattle.odb_sessions.specs.Represented.Job.{filters_by};
ghost use Rattle.odb_sessions.specs.Represented.Under.{filters_in};

use crate::under::Under;
use odb_recent::Recent;

/// What is composed for the client of a monitor.
#[derive(Clone, Copy)]
pub enum Way<'a> {
    /// All that the monitor selects: its first reply.
    First,
    /// What the client lacks of it.
    Asked,
    /// What the client lacks under these filters.
    Changed(Under<'a>),
    /// What the client lacks under the second filters, where it was told of its tables as they are now under the
    /// first.
    Again(Under<'a>, Under<'a>),
    /// What the client lacks that has what the monitor selected so many commits ago: its first reply.
    Since(&'a Recent, usize),
}

impl<'a> Way<'a> {
    /// Returns the filters under which the client is told, where these may not be those that the monitor asks.
    pub(crate) fn under(self) -> Option<Under<'a>>
        ensures { option_map filters_in result ≡ filters_by self.entry }
    {
        match self {
            Way::First => None,
            Way::Asked => None,
            Way::Changed(under) => Some(under),
            Way::Again(_, under) => Some(under),
            Way::Since(_, _) => None,
        }
    }
}
