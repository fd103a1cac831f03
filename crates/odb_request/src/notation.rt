//! The two notations of what monitors are told.

ghost use Rattle.std.specs.Prelude.{◌≡◌};
ghost use Rattle.odb_request.specs.Represented.Notation.{notation_of};
ghost use Rattle.odb_request.specs.Request.{is_conditional, update_method};

/// What a monitor is asked for by, and so the notation of what it is told.
#[derive(Clone, Copy, PartialEq, Eq)]
pub enum Notation {
    /// `monitor`, whose notifications are `update` (RFC 7047, sections 4.1.5 and 4.1.6).
    Monitor,
    /// `monitor_cond`, whose notifications are `update2` (ovsdb-server(7), 4.1.12 and 4.1.14).
    MonitorCond,
}

impl Notation {
    /// Returns whether its requests may have conditions. O(1).
    pub fn is_conditional(self) -> bool
        ensures { result ≡ is_conditional (notation_of self) }
    {
        match self {
            Notation::Monitor => false,
            Notation::MonitorCond => true,
        }
    }

    /// Returns the method of its notifications. O(1).
    pub fn update_method(self) -> &'static str
        ensures { result.now ≡ update_method (notation_of self) }
    {
        match self {
            Notation::Monitor => "update",
            Notation::MonitorCond => "update2",
        }
    }
}
