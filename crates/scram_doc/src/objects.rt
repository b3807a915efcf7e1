//! Objects that are written member by member.

ghost use Rattle.std.specs.Prelude.{◌≡◌, IfOk, map};
ghost use Rattle.serde_json.specs.Data.{array, no_members, object, put, string};
ghost use Rattle.serde_json.specs.View.{items_of, view};
ghost use Rattle.scram_doc.specs.Canonical.{count_data, integer_data, list_data};
ghost use Rattle.scram_doc.specs.Objects.{members_of};

use crate::writers::{Writes, write_list};
use serde_json::{Map, Value, json};
use std::alloc::{AllocError, Global};

/// A JSON object that is written member by member. If the object already has a member of the name, its value is
/// replaced.
pub struct Object {
    alloc: Global,
    members: Map<String, Value>,
}

// A derived drop is laid out in the proof of each function that drops the value, and this one is a call.
impl Drop for Object {
    fn drop(self) {
        let Object {
            alloc: _,
            members: _,
        } = self;
    }
}

impl Object {
    /// Creates an object without members.
    pub fn new(alloc: Global) -> Object
        ensures { members_of result ≡ no_members }
    {
        Object {
            alloc,
            members: Map::new(alloc),
        }
    }

    /// Sets the member `name` to a value. Returns an error if memory runs out.
    pub fn value(mut self, name: &str, value: Value) -> Result<Object, AllocError>
        ensures { IfOk result (λ o. members_of o ≡ put name.now (view value) (members_of self)) }
    {
        match serde_json::put(&mut self.members, self.alloc, name, value) {
            Ok(()) => Ok(self),
            Err(error) => Err(error),
        }
    }

    /// Sets the member `name` to a text. Returns an error if memory runs out.
    pub fn text(self, name: &str, text: &str) -> Result<Object, AllocError>
        ensures { IfOk result (λ o. members_of o ≡ put name.now (string text.now) (members_of self)) }
    {
        match json!(in self.alloc; text) {
            Ok(value) => self.value(name, value),
            Err(error) => Err(error),
        }
    }

    /// Sets the member `name` to a number. Returns an error if memory runs out.
    pub fn count(self, name: &str, number: u32) -> Result<Object, AllocError>
        ensures { IfOk result (λ o. members_of o ≡ put name.now (count_data number) (members_of self)) }
    {
        match json!(in self.alloc; number) {
            Ok(value) => self.value(name, value),
            Err(error) => Err(error),
        }
    }

    /// Sets the member `name` to a number that may be negative. Returns an error if memory runs out.
    pub fn integer(self, name: &str, number: &i64) -> Result<Object, AllocError>
        ensures { IfOk result (λ o. members_of o ≡ put name.now (integer_data number.now) (members_of self)) }
    {
        match json!(in self.alloc; *number) {
            Ok(value) => self.value(name, value),
            Err(error) => Err(error),
        }
    }

    /// Sets the member `name` to a list of values. Returns an error if memory runs out.
    pub fn values(self, name: &str, values: Vec<Value>) -> Result<Object, AllocError>
        ensures { IfOk result (λ o. members_of o ≡ put name.now (array (items_of (map view values.items))) (members_of self)) }
    {
        self.value(name, Value::Array(values))
    }

    /// Sets the member `name` to the list of the values that are written for the items. Returns an error if memory runs
    /// out.
    pub fn list<T, W: Writes<T>>(
        self,
        name: &str,
        writer: &W,
        items: &[T],
    ) -> Result<Object, AllocError>
        ensures { IfOk result (λ o. members_of o ≡ put name.now (list_data (W.written writer.now) items.now) (members_of self)) }
    {
        match write_list(self.alloc, writer, items) {
            Ok(values) => self.values(name, values),
            Err(error) => Err(error),
        }
    }

    /// Returns the object as a value.
    pub fn into_value(self) -> Value
        ensures { view result ≡ object (members_of self) }
    {
        let Object { alloc: _, members } = self;
        Value::Object(members)
    }
}
