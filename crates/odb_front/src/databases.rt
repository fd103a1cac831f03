//! The databases of a server. [P 15.3, 15.4]
ghost use Rattle.std.specs.Prelude.{◌≡◌, is_some, map, option_map, string_bytes};
ghost use Rattle.serde_json.specs.View.{view};
ghost use Rattle.odb_front.specs.Front as front;

use crate::destination::names;
use serde_json::Value;
use std::marker::Model;

/// The name of the database in which a server says what it serves (ovsdb-server(5)).
const SERVER: &str = "_Server";

/// The names of the databases of a server.
pub struct Databases {
    first: String,
    second: Option<String>,
    has_server: bool,
}

impl Model for Databases {
    ghost use Rattle.std.specs.Prelude.{option_map, string_bytes};
    ghost use Rattle.odb_front.specs.Front as front;

    ghost Value = { front.Names };

    ghost coded = { front.names_code };

    ghost view = { λ d. record { first = string_bytes d.first; second = option_map string_bytes d.second; has_server = d.has_server } };
}

impl Databases {
    /// Makes those of a server of these names, which has `_Server` too if that is so.
    pub fn new(first: String, second: Option<String>, has_server: bool) -> Databases
        ensures { result ≡ record { first = string_bytes first; second = option_map string_bytes second; has_server = has_server } }
    {
        Databases {
            first,
            second,
            has_server,
        }
    }

    /// Returns whether there is a second database that is served.
    pub(crate) fn has_second(&self) -> bool
        ensures { result ≡ is_some self.now.second }
    {
        self.second.is_some()
    }

    /// Returns whether there is `_Server`.
    pub(crate) fn has_server(&self) -> bool
        ensures { result ≡ self.now.has_server }
    {
        self.has_server
    }

    /// Returns whether the first of the `params` names the first database.
    pub(crate) fn is_first(&self, params: &[Value]) -> bool
        ensures { result ≡ front.names self.now.first (map view params.now) }
    {
        names(params, self.first.as_str())
    }

    /// Returns whether the first of the `params` names the second database.
    pub(crate) fn is_second(&self, params: &[Value]) -> bool
        ensures { result ≡ front.is_second self.now (map view params.now) }
    {
        match &self.second {
            Some(name) => names(params, name.as_str()),
            None => false,
        }
    }

    /// Returns whether the first of the `params` names `_Server`, and that is there.
    pub(crate) fn is_server(&self, params: &[Value]) -> bool
        ensures { result ≡ front.is_server self.now (map view params.now) }
    {
        self.has_server && names(params, SERVER)
    }
}

// Written, and not derived, so that each end of a scope is one call to prove.
impl Drop for Databases {
    fn drop(self) {
        let Databases {
            first: _,
            second: _,
            has_server: _,
        } = self;
    }
}
