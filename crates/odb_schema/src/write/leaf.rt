//! Objects that are made, member by member.

ghost use Rattle.std.specs.Prelude.{◌≡◌, ◌==◌, OnOk, option_map};
ghost use Rattle.serde_json.specs.Data.{boolean, no_members, object, put as with_member, string};
ghost use Rattle.serde_json.specs.View.{view};
ghost use Rattle.odb_schema.specs.Json.{of_integer, present};
ghost use Rattle.odb_schema.specs.SchemaText.{of_natural, unless};
ghost use Rattle.odb_schema.specs.Represented.Members.{onto};

use serde_json::{Map, Value};
use std::alloc::{AllocError, Global};
use std::marker::Model;

/// An object that is made: its members so far.
#[derive(Drop)]
pub struct Object {
    alloc: Global,
    members: Map<String, Value>,
}

impl Model for Object {
    ghost use Rattle.serde_json.specs.View.{members_view};
    ghost use Rattle.odb_schema.specs.Json.{Members};
    ghost use Rattle.odb_schema.specs.JsonCode.{members_code};

    ghost Value = { Members };

    ghost coded = { members_code };

    ghost view = { λ o. members_view o.members.entries };
}

impl Object {
    /// Makes an object without members. O(1).
    pub fn new(alloc: Global) -> Object
        ensures { result ≡ no_members }
    {
        Object {
            alloc,
            members: Map::new(alloc),
        }
    }

    /// Returns the allocator that its members are of. O(1).
    pub(crate) fn alloc(&self) -> Global {
        self.alloc
    }

    /// Puts a member in. O(log n) comparisons of keys for n members, and the bytes of the key.
    pub fn put(&mut self, key: &str, value: Value) -> Result<(), AllocError>
        ensures { OnOk result (self.new ≡ with_member key.now (view value) self.old) }
    {
        let key = String::from_str(self.alloc, key)?;
        drop(self.members.insert(key, value)?);
        Ok(())
    }

    /// Puts an integer in, where there is one.
    pub(crate) fn put_integer(&mut self, key: &str, integer: Option<i64>) -> Result<(), AllocError>
        ensures { OnOk result (self.new
            ≡ onto (present key.now (option_map of_integer integer)) self.old) }
    {
        match integer {
            None => Ok(()),
            Some(integer) => self.put(key, Value::from(integer)),
        }
    }

    /// Puts a boolean in, unless it equals its default.
    pub(crate) fn put_flag(
        &mut self,
        is_default: bool,
        key: &str,
        flag: bool,
    ) -> Result<(), AllocError>
        ensures { OnOk result (self.new ≡ onto (unless is_default key.now (boolean flag)) self.old) }
    {
        if is_default {
            return Ok(());
        }
        self.put(key, Value::from(flag))
    }

    /// Puts a text in.
    pub(crate) fn put_text(&mut self, key: &str, text: &str) -> Result<(), AllocError>
        ensures { OnOk result (self.new ≡ with_member key.now (string text.now) self.old) }
    {
        let text = Value::try_from_str(self.alloc(), text)?;
        self.put(key, text)
    }

    /// Puts a number in, unless it is 1.
    pub(crate) fn put_number(&mut self, key: &str, number: u32) -> Result<(), AllocError>
        ensures { OnOk result (self.new
            ≡ onto (unless (number == 1) key.now (of_natural number)) self.old) }
    {
        if number == 1 {
            return Ok(());
        }
        self.put(key, Value::from(number))
    }

    /// Returns it as a value. O(1).
    pub fn into_value(self) -> Value
        ensures { view result ≡ object self }
    {
        let Object { members, .. } = self;
        Value::from(members)
    }
}
