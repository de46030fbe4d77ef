//! The canonical text of scripts.

ghost use Rattle.std.specs.Prelude.{◌≡◌, ◌++◌, ◌∷◌, [], map, flat_map, codes, OnOk, IfOk, IfErr};
ghost use Rattle.wire_types.specs.Said as said;
ghost use Rattle.wire_types.specs.Said.{spelled_scope, spelled_version};
ghost use Rattle.wire_types.specs.Texts.{texts_of};
ghost use Rattle.wire_scripts.specs.Scripts.{text_at, set_at};
ghost use Rattle.wire_scripts.specs.Canonical.{process_at, process_text, words_text, line_text, set_said};
ghost use Rattle.wire_scripts.specs.Canonical.{call_said, process_said, job_said, jobs_said, keep_said};

use crate::process::Process;
use crate::scripts::Scripts;
use crate::set_word::{job_and_rank, set_word};
use std::alloc::{AllocError, Global};
use wire_types::{Call, Fault, Proc, Scope, Version, proc_word};

/// Writes a line: its words with a space between each two, and a line feed.
fn write_line(out: &mut Vec<u8>, first: &[u8], others: &[&[u8]]) -> Result<(), AllocError>
    ensures { OnOk result (out.new.items ≡ out.old.items
        ++ words_text (first.now ∷ texts_of others.now)) }
{
    out.extend_from_slice(first)?;
    for word in others {
        out.push(b' ')?;
        out.extend_from_slice(word)?;
    }
    out.push(b'\n')?;
    Ok(())
}

/// The word of a scope.
fn scope_word(scope: Scope) -> &'static [u8]
    ensures { result.now ≡ spelled_scope scope }
{
    match scope {
        Scope::Local => b"local".as_slice(),
        Scope::Remote => b"remote".as_slice(),
        Scope::Global => b"global".as_slice(),
    }
}

/// The word of a version, in the header.
fn version_word(version: Version) -> &'static [u8]
    ensures { result.now ≡ spelled_version version }
{
    match version {
        Version::One => b"1".as_slice(),
        Version::Two => b"2".as_slice(),
    }
}

/// Writes the line of a put, given the word of its scope.
fn write_put(
    out: &mut Vec<u8>,
    scripts: &Scripts,
    scope: &[u8],
    key: u32,
    value: u32,
) -> Result<(), AllocError>
    ensures { OnOk result (out.new.items ≡ out.old.items
        ++ words_text (codes "put" ∷ scope.now ∷ text_at scripts.now.keys key
        ∷ text_at scripts.now.values value ∷ [])) }
{
    let key = scripts.keys().text(key);
    let value = scripts.values().text(value);
    write_line(out, b"put".as_slice(), &[scope, key, value])
}

/// Writes the line of a fence of a process of this job.
fn write_fence(
    out: &mut Vec<u8>,
    scripts: &Scripts,
    job: u32,
    set: u32,
    collect: bool,
) -> Result<(), AllocError>
    ensures { OnOk result (out.new.items ≡ out.old.items
        ++ line_text (said.Calls (said.Fence
        (set_said scripts.now job (set_at scripts.now.sets set)) collect))) }
{
    let word = set_word(*out.allocator(), scripts, job, set)?;
    if collect {
        write_line(
            out,
            b"fence".as_slice(),
            &[word.as_slice(), b"collect".as_slice()],
        )
    } else {
        write_line(out, b"fence".as_slice(), &[word.as_slice()])
    }
}

/// Writes the line of a get, of either kind, which its first word tells.
fn write_get(
    out: &mut Vec<u8>,
    scripts: &Scripts,
    verb: &[u8],
    owner: Proc,
    key: u32,
) -> Result<(), AllocError>
    ensures { OnOk result (out.new.items ≡ out.old.items
        ++ words_text (verb.now ∷ process_text scripts.now (process_at scripts.now owner.number)
        ∷ text_at scripts.now.keys key ∷ [])) }
{
    let (job, rank) = job_and_rank(scripts, owner);
    let word = proc_word(*out.allocator(), scripts.jobs().text(job), rank)?;
    write_line(out, verb, &[word.as_slice(), scripts.keys().text(key)])
}

/// Writes the line of a publish.
fn write_publish(
    out: &mut Vec<u8>,
    scripts: &Scripts,
    name: u32,
    value: u32,
) -> Result<(), AllocError>
    ensures { OnOk result (out.new.items ≡ out.old.items
        ++ words_text (codes "publish" ∷ text_at scripts.now.names name
        ∷ text_at scripts.now.values value ∷ [])) }
{
    let name = scripts.names().text(name);
    let value = scripts.values().text(value);
    write_line(out, b"publish".as_slice(), &[name, value])
}

/// Writes the line of a call of a name alone, which its first word tells.
fn write_named(
    out: &mut Vec<u8>,
    scripts: &Scripts,
    verb: &[u8],
    name: u32,
) -> Result<(), AllocError>
    ensures { OnOk result (out.new.items ≡ out.old.items
        ++ words_text (verb.now ∷ text_at scripts.now.names name ∷ [])) }
{
    write_line(out, verb, &[scripts.names().text(name)])
}

/// Writes the line of a call of a process of this job.
fn write_call(out: &mut Vec<u8>, scripts: &Scripts, job: u32, call: &Call) -> Result<(), AllocError>
    ensures { OnOk result (out.new.items ≡ out.old.items
        ++ line_text (said.Calls (call_said scripts.now job call.now))) }
{
    match *call {
        Call::Put { scope, key, value } => {
            write_put(out, scripts, scope_word(scope), key, value)
        }
        Call::Commit => write_line(out, b"commit".as_slice(), &[]),
        Call::Fence { set, collect } => write_fence(out, scripts, job, set, collect),
        Call::Get { owner, key } => write_get(out, scripts, b"get".as_slice(), owner, key),
        Call::GetNow { owner, key } => {
            write_get(out, scripts, b"get-now".as_slice(), owner, key)
        }
        Call::Publish { name, value } => write_publish(out, scripts, name, value),
        Call::Lookup { name } => write_named(out, scripts, b"lookup".as_slice(), name),
        Call::LookupWait { name } => write_named(out, scripts, b"lookup-wait".as_slice(), name),
        Call::Unpublish { name } => write_named(out, scripts, b"unpublish".as_slice(), name),
        Call::UnpublishAll => write_line(out, b"unpublish".as_slice(), &[b"*".as_slice()]),
    }
}

/// Appends the lines of a process: its `rank` line, and those of its calls.
fn write_process(out: &mut Vec<u8>, scripts: &Scripts, process: &Process) -> Result<(), AllocError>
    ensures { OnOk result (out.new.items ≡ out.old.items
        ++ flat_map line_text (process_said scripts.now process.now)) }
{
    write_line(
        out,
        b"rank".as_slice(),
        &[scripts.nodes().text(process.node())],
    )?;
    for call in process.calls() {
        write_call(out, scripts, process.job(), call)?;
    }
    Ok(())
}

/// Appends the lines of a job: its `job` line, and those of its processes.
fn write_job(out: &mut Vec<u8>, scripts: &Scripts, job: u32) -> Result<(), AllocError>
    ensures { OnOk result (out.new.items ≡ out.old.items
        ++ flat_map line_text (job_said scripts.now job (text_at scripts.now.jobs job))) }
{
    write_line(out, b"job".as_slice(), &[scripts.jobs().text(job)])?;
    for process in scripts.processes() {
        if process.job() == job {
            write_process(out, scripts, process)?;
        }
    }
    Ok(())
}

/// Appends the lines of all nodes.
fn write_nodes(out: &mut Vec<u8>, scripts: &Scripts) -> Result<(), AllocError>
    ensures { OnOk result (out.new.items ≡ out.old.items
        ++ flat_map line_text (map (λ n. said.Node n) scripts.now.nodes)) }
{
    for node in 0..scripts.nodes().len() {
        write_line(out, b"node".as_slice(), &[scripts.nodes().text(node)])?;
    }
    Ok(())
}

/// Appends the lines of all jobs.
fn write_jobs(out: &mut Vec<u8>, scripts: &Scripts) -> Result<(), AllocError>
    ensures { OnOk result (out.new.items ≡ out.old.items
        ++ flat_map line_text (jobs_said scripts.now 0 scripts.now.jobs)) }
{
    for job in 0..scripts.jobs().len() {
        write_job(out, scripts, job)?;
    }
    Ok(())
}

/// Writes the line of scripts that keep what gets bring.
fn write_keep(out: &mut Vec<u8>, scripts: &Scripts) -> Result<(), AllocError>
    ensures { OnOk result (out.new.items ≡ out.old.items ++ flat_map line_text (keep_said scripts.now.keeps)) }
{
    if scripts.keeps() {
        write_line(out, b"keep".as_slice(), &[])
    } else {
        Ok(())
    }
}

impl Scripts {
    ghost use Rattle.wire_scripts.specs.Canonical.{canonical};

    /// The canonical text: the header, `keep` where they keep what gets bring, the nodes, then the jobs with
    /// their processes and calls, one space between words and a line feed after every line. The set of a
    /// fence is `all` where it is just the caller's job, else the jobs that it has whole and its other
    /// processes, in process order. The only fault is `Memory`.
    pub fn to_text(&self, alloc: Global) -> Result<Vec<u8>, Fault>
        ensures ok { IfOk result (λ text. text.items ≡ canonical self.now) }
        ensures err { IfErr result (λ e. e ≡ Fault.Memory) }
    {
        let mut out = Vec::new(alloc);
        write_line(
            &mut out,
            b"rehearsal".as_slice(),
            &[version_word(self.version())],
        )?;
        write_keep(&mut out, self)?;
        write_nodes(&mut out, self)?;
        write_jobs(&mut out, self)?;
        Ok(out)
    }
}
