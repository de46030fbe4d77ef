//! Calls in eight bytes.

ghost use Rattle.std.specs.Prelude.{◌≡◌, ◌<◌, ◌≤◌, ◌^◌, IfSome, IfNone};
ghost use Rattle.wire_types.specs.Packed.{unpacked_call, upper_of};

use crate::call::{Call, Scope};
use crate::place::Proc;
use std::marker::Model;

/// A call in eight bytes. A word has its verb in the lowest four bits, and above it the owner of a get or the value
/// of a put or a publish; the other has its key, its name or its set.
pub struct PackedCall {
    head: u32,
    about: u32,
}

// By hand and not derived: so dropping one is a call, and the proof of a function that drops one doesn't take it apart.
impl Drop for PackedCall {
    fn drop(self) {
        let PackedCall { head: _, about: _ } = self;
    }
}

impl Model for PackedCall {
    ghost use Rattle.wire_types.specs.Packed.{call_in};
    ghost use Rattle.wire_types.specs.declared.call.Call.{Call as TheCall};

    ghost Value = { TheCall };

    ghost view = { λ p. call_in p.head p.about };
}

/// The call of a verb, with what stands above the verb and beside it, where that is small enough.
fn pack(verb: u32, upper: u32, about: u32) -> Option<PackedCall>
    requires { verb < 16 }
    ensures some { IfSome result (λ p. p ≡ unpacked_call verb upper about) }
    ensures none { IfNone result (2 ^ 28 ≤ upper) }
{
    if upper < 268_435_456 {
        Some(PackedCall {
            head: 16 * upper + verb,
            about,
        })
    } else {
        None
    }
}

impl PackedCall {
    /// The call, where its owner or its value is below 2^28.
    pub fn of(call: Call) -> Option<PackedCall>
        ensures some { IfSome result (λ p. p ≡ call) }
        ensures none { IfNone result (2 ^ 28 ≤ upper_of call) }
    {
        match call {
            Call::Get { owner, key } => pack(0, owner.number, key),
            Call::GetNow { owner, key } => pack(1, owner.number, key),
            Call::Put { scope, key, value } => match scope {
                Scope::Global => pack(2, value, key),
                Scope::Local => pack(3, value, key),
                Scope::Remote => pack(4, value, key),
            },
            Call::Commit => pack(5, 0, 0),
            Call::Fence { set, collect } => pack(if collect { 6 } else { 7 }, 0, set),
            Call::Publish { name, value } => pack(8, value, name),
            Call::Lookup { name } => pack(9, 0, name),
            Call::LookupWait { name } => pack(10, 0, name),
            Call::Unpublish { name } => pack(11, 0, name),
            Call::UnpublishAll => pack(12, 0, 0),
        }
    }

    /// The call.
    pub fn call(&self) -> Call
        ensures { result ≡ self.now }
    {
        let upper = self.head / 16;
        let about = self.about;
        match self.head % 16 {
            0 => Call::Get {
                owner: Proc::new(upper),
                key: about,
            },
            1 => Call::GetNow {
                owner: Proc::new(upper),
                key: about,
            },
            2 => Call::Put {
                scope: Scope::Global,
                key: about,
                value: upper,
            },
            3 => Call::Put {
                scope: Scope::Local,
                key: about,
                value: upper,
            },
            4 => Call::Put {
                scope: Scope::Remote,
                key: about,
                value: upper,
            },
            5 => Call::Commit,
            6 => Call::Fence {
                set: about,
                collect: true,
            },
            7 => Call::Fence {
                set: about,
                collect: false,
            },
            8 => Call::Publish {
                name: about,
                value: upper,
            },
            9 => Call::Lookup { name: about },
            10 => Call::LookupWait { name: about },
            11 => Call::Unpublish { name: about },
            _ => Call::UnpublishAll,
        }
    }
}

impl PartialEq for PackedCall {
    ghost use Rattle.wire_types.specs.SameCall.{same_call, calls_alike};

    ghost eq = { same_call };

    ghost laws = { calls_alike };

    fn eq(&self, other: &PackedCall) -> bool {
        self.call() == other.call()
    }
}
