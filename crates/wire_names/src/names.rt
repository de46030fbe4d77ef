//! The table of names.

ghost use Rattle.std.specs.Prelude.{◌≡◌, ◌<◌, None, length, replicate, IfOk, IsOkUnless};
ghost use Rattle.wire_names.specs.Names as names;

use std::alloc::Global;
use std::marker::Model;
use wire_types::{CallAt, Fault, Proc, Status};

/// What stands under each of a fixed number of names: the publish that set it, or nothing.
#[derive(Drop)]
pub struct Names {
    table: Vec<Option<CallAt>>,
}

impl Model for Names {
    ghost use Rattle.std.specs.Prelude.{List, Option};
    ghost use Rattle.wire_types.specs.declared.CallAt.{CallAt};

    ghost Value = { List (Option CallAt) };

    ghost view = { λ s. s.table.items };
}

/// Whether something stands there, and this process published it.
fn is_published_by(standing: Option<CallAt>, proc: Proc) -> bool
    ensures { result ≡ names.is_published_by proc.number standing }
{
    match standing {
        Some(publish) => publish.proc.number == proc.number,
        None => false,
    }
}

/// What stands under a name after this process has unpublished what it published there.
fn after_unpublish(standing: Option<CallAt>, proc: Proc) -> Option<CallAt>
    ensures { result ≡ names.after_unpublish proc.number standing }
{
    if is_published_by(standing, proc) {
        None
    } else {
        standing
    }
}

/// Removes all that this process published.
fn unpublish_each(table: &mut [Option<CallAt>], proc: Proc)
    ensures { table.new ≡ names.names_after_unpublish_all proc.number table.old }
{
    for standing in table.iter_mut() {
        *standing = after_unpublish(*standing, proc);
    }
}

impl Names {
    /// So many names, with nothing under any of them. The only error is `Fault::Memory`.
    pub fn new(alloc: Global, names: u32) -> Result<Names, Fault>
        ensures ok { IfOk result (λ table. table ≡ replicate names None) }
        ensures memory { IsOkUnless result Fault.Memory }
    {
        Ok(Names {
            table: vec![in alloc; None; names as usize]?,
        })
    }

    /// Publishes under a name (`PMIx_Publish`): `PMIX_SUCCESS`, or `PMIX_ERR_DUPLICATE_KEY` where something
    /// stands there, which then stays. It takes no memory.
    pub fn publish(&mut self, name: u32, call: CallAt) -> Status
        requires { name < length self.old }
        ensures status { result ≡ names.status_of_publish (names.published self.old name) }
        ensures names { self.new ≡ names.names_after_publish name call self.old }
    {
        let table = self.table.as_mut_slice();
        match table[name as usize] {
            Some(_) => Status::DuplicateKey,
            None => {
                table[name as usize] = Some(call);
                Status::Success
            }
        }
    }

    /// The publish that stands under a name (`PMIx_Lookup`), or nothing where the table hasn't the name.
    pub fn lookup(&self, name: u32) -> Option<CallAt>
        ensures { result ≡ names.published self.now name }
    {
        match self.table.get(name as usize) {
            Some(standing) => *standing,
            None => None,
        }
    }

    /// Removes what this process published under a name (`PMIx_Unpublish`): `PMIX_SUCCESS`, or
    /// `PMIX_ERR_NOT_FOUND` where nothing of its own stands there, and then nothing changes. It takes no
    /// memory.
    pub fn unpublish(&mut self, name: u32, proc: Proc) -> Status
        requires { name < length self.old }
        ensures status { result ≡ names.status_of_unpublish proc.number (names.published self.old name) }
        ensures names { self.new ≡ names.names_after_unpublish name proc.number self.old }
    {
        let table = self.table.as_mut_slice();
        if is_published_by(table[name as usize], proc) {
            table[name as usize] = None;
            Status::Success
        } else {
            Status::NotFound
        }
    }

    /// Removes all that this process published (`PMIx_Unpublish` of no keys in particular). What others
    /// published stays. It takes no memory.
    pub fn unpublish_all(&mut self, proc: Proc)
        ensures { self.new ≡ names.names_after_unpublish_all proc.number self.old }
    {
        unpublish_each(self.table.as_mut_slice(), proc);
    }
}
