//! Objects of JSON, built member by member.

ghost use Rattle.std.specs.Prelude.{◌≡◌, map, string_bytes, IfOk};
ghost use Rattle.serde_json.specs.Data.{Members, array, boolean, no_members, null, number, object, put as with_member};
ghost use Rattle.serde_json.specs.Data.{string, unsigned};
ghost use Rattle.serde_json.specs.View.{items_of, members_view, view};

use serde_json::{Map, Value, put};
use std::alloc::{AllocError, Global};

/// An object that is being built, or the fault that stopped it.
pub(crate) struct Object {
    alloc: Global,
    built: Result<Map<String, Value>, AllocError>,
}

impl Object {
    /// An object without members.
    pub(crate) fn new(alloc: Global) -> Object
        ensures { IfOk result.built (λ m. members_view m.entries ≡ no_members) }
    {
        Object {
            alloc,
            built: Ok(Map::new(alloc)),
        }
    }

    /// Puts a member into the object.
    pub(crate) fn put(self, key: &str, member: Value) -> Object
        ensures { (d : Members) → IfOk self.built (λ m. members_view m.entries ≡ d)
            → IfOk result.built (λ m. members_view m.entries ≡ with_member key.now (view member) d) }
    {
        let Object { alloc, built } = self;
        match built {
            Ok(map) => Object {
                alloc,
                built: put_into(alloc, map, key, member),
            },
            Err(fault) => {
                drop(member);
                Object {
                    alloc,
                    built: Err(fault),
                }
            }
        }
    }

    /// Puts a text into the object.
    pub(crate) fn put_text(self, key: &str, text: &str) -> Object
        ensures { (d : Members) → IfOk self.built (λ m. members_view m.entries ≡ d)
            → IfOk result.built (λ m. members_view m.entries ≡ with_member key.now (string text.now) d) }
    {
        let Object { alloc, built } = self;
        match built {
            Ok(map) => Object {
                alloc,
                built: put_text_into(alloc, map, key, text),
            },
            Err(fault) => Object {
                alloc,
                built: Err(fault),
            },
        }
    }

    /// Puts a number into the object.
    pub(crate) fn put_number(self, key: &str, n: u64) -> Object
        ensures { (d : Members) → IfOk self.built (λ m. members_view m.entries ≡ d)
            → IfOk result.built (λ m. members_view m.entries ≡ with_member key.now (number (unsigned n)) d) }
    {
        self.put(key, Value::from(n))
    }

    /// Puts null into the object.
    pub(crate) fn put_null(self, key: &str) -> Object
        ensures { (d : Members) → IfOk self.built (λ m. members_view m.entries ≡ d)
            → IfOk result.built (λ m. members_view m.entries ≡ with_member key.now null d) }
    {
        self.put(key, Value::Null)
    }

    /// Puts a truth value into the object.
    pub(crate) fn put_flag(self, key: &str, flag: bool) -> Object
        ensures { (d : Members) → IfOk self.built (λ m. members_view m.entries ≡ d)
            → IfOk result.built (λ m. members_view m.entries ≡ with_member key.now (boolean flag) d) }
    {
        self.put(key, Value::Bool(flag))
    }

    /// Puts an owned text into the object.
    pub(crate) fn put_string(self, key: &str, text: String) -> Object
        ensures { (d : Members) → IfOk self.built (λ m. members_view m.entries ≡ d)
            → IfOk result.built (λ m. members_view m.entries ≡ with_member key.now (string (string_bytes text)) d) }
    {
        self.put(key, Value::String(text))
    }

    /// Puts a list into the object.
    pub(crate) fn put_list(self, key: &str, list: Vec<Value>) -> Object
        ensures { (d : Members) → IfOk self.built (λ m. members_view m.entries ≡ d)
            → IfOk result.built (λ m. members_view m.entries ≡ with_member key.now (array (items_of (map view list.items))) d) }
    {
        self.put(key, Value::Array(list))
    }

    /// The object as a tree.
    pub(crate) fn finish(self) -> Result<Value, AllocError>
        ensures { (d : Members) → IfOk self.built (λ m. members_view m.entries ≡ d)
            → IfOk result (λ tree. view tree ≡ object d) }
    {
        let Object { alloc: _, built } = self;
        match built {
            Ok(map) => Ok(Value::Object(map)),
            Err(fault) => Err(fault),
        }
    }
}

/// Puts a member into a map.
fn put_into(
    alloc: Global,
    mut map: Map<String, Value>,
    key: &str,
    member: Value,
) -> Result<Map<String, Value>, AllocError>
    ensures { IfOk result (λ new. members_view new.entries ≡ with_member key.now (view member) (members_view map.entries)) }
{
    match put(&mut map, alloc, key, member) {
        Ok(()) => Ok(map),
        Err(fault) => {
            drop(map);
            Err(fault)
        }
    }
}

/// Puts a text into a map.
fn put_text_into(
    alloc: Global,
    map: Map<String, Value>,
    key: &str,
    text: &str,
) -> Result<Map<String, Value>, AllocError>
    ensures { IfOk result (λ new. members_view new.entries ≡ with_member key.now (string text.now) (members_view map.entries)) }
{
    match Value::try_from_str(alloc, text) {
        Ok(member) => put_into(alloc, map, key, member),
        Err(fault) => {
            drop(map);
            Err(fault)
        }
    }
}
