//! Configs: the properties of the OCI Runtime Specification 1.0 that a process is made from.

ghost use Rattle.std.specs.Prelude.{◌≡◌, ◌⊎◌, ◌/◌, min, option_map, option_and_then, codes, IfOk, OnOk, OnErr, IfSome, IfNone, None, Some, Err, is_some, true, false, []};
ghost use Rattle.std.specs.Str.{is_utf8};
ghost use Rattle.serde_json.specs.View.{view};
ghost use Rattle.serde_json.specs.Read.{read};
ghost use Rattle.wasm_ast.specs.declared.refusal.Refusal.TheVariants as refusal;
ghost use Rattle.linear_memory.specs.Memory.{page_bytes, max_pages};
ghost use Rattle.oci_config.specs.Limits.{default_pages};
ghost use Rattle.oci_config.specs.Processes.{config_of};
ghost use Rattle.oci_config.specs.Config.{version_at, directory_at, module_at, pages_in, cap_at, process_of, process_read};
ghost use Rattle.oci_config.specs.Setup.{are_taken, pages_under, process_under};
ghost use Rattle.oci_config.specs.Inside.Parts.{part_of, pages_at, outline};

use crate::page_cap::PageCap;
use crate::process::{Output, Process};
use crate::properties::{are_texts, begins, has_float, is_plain, object_at, part_at, text_at};
use crate::texts::{are_taken, texts_at};
use linear_memory::{MAX_PAGES, PAGE_BYTES};
use serde_json::Value;
use std::alloc::{AllocError, Global};
use std::str::from_utf8;
use wasm_ast::{Refusal, Sequence, Text, is_digest};

/// The most pages of a memory for which the config sets no limit.
const DEFAULT_PAGES: u32 = 16;

// ---- the cap on pages

// The whole pages in this number of bytes, at most 256.
fn pages_within(bytes: u64) -> PageCap
    ensures { result ≡ min (bytes / page_bytes) max_pages }
{
    let pages = (bytes / PAGE_BYTES as u64).min(u64::from(MAX_PAGES));
    PageCap::new(pages as u32).unwrap()
}

// The pages without a limit.
fn default_pages() -> PageCap
    ensures { result ≡ default_pages }
{
    PageCap::new(DEFAULT_PAGES).unwrap()
}

// The pages of a memory under a limit in bytes, if there is one.
fn pages_under(limit: Option<u64>) -> PageCap
    ensures { result ≡ pages_under limit }
{
    match limit {
        Some(bytes) => pages_within(bytes),
        None => default_pages(),
    }
}

// The pages of a memory under a limit in bytes; -1 means no limit.
fn pages_in(limit: &Value) -> Option<PageCap>
    ensures { result ≡ pages_in (view limit.now) }
{
    if let Some(bytes) = limit.as_u64() {
        return Some(pages_within(bytes));
    }
    if limit.as_i64() == Some(-1) {
        Some(default_pages())
    } else {
        None
    }
}

// The pages of a memory, by its part of a config.
fn pages_at(memory: Option<&Value>) -> Option<PageCap>
    ensures { result ≡ pages_at (part_of (option_map (λ v. view v.now) memory.entry)) }
{
    match memory.and_then(|memory| memory.get("limit")) {
        Some(limit) => pages_in(limit),
        None => Some(default_pages()),
    }
}

// The most pages of a memory, if the config's part for Linux is as the profile demands.
fn cap_at(config: &Value) -> Option<PageCap>
    ensures { result ≡ cap_at (view config.now) }
{
    let linux = part_at(Some(config), "linux")?;
    let resources = part_at(linux, "resources")?;
    let memory = part_at(resources, "memory")?;
    pages_at(memory)
}

// ---- the whole

// The digest that the annotations name, if they are as the profile demands.
fn module_at(config: &Value) -> Option<&str>
    ensures { option_map (λ s. s.now) result ≡ module_at (view config.now) }
{
    let annotations = config.get("annotations")?;
    let Value::Object(members) = annotations else {
        return None;
    };
    if !are_texts(members) {
        return None;
    }
    let digest = text_at(annotations, "dev.shim.module")?;
    if is_digest(digest) {
        Some(digest)
    } else {
        None
    }
}

fn is_version(config: &Value) -> bool
    ensures { result ≡ is_some (version_at (view config.now)) }
{
    match text_at(config, "ociVersion") {
        Some(version) => begins(version, "1."),
        None => false,
    }
}

fn has_directory(process: &Value) -> bool
    ensures { result ≡ is_some (directory_at (view process.now)) }
{
    match text_at(process, "cwd") {
        Some(cwd) => begins(cwd, "/") && is_plain(cwd),
        None => false,
    }
}

// The object that tells of the process, if the config meets the demands on its outline.
fn outline(config: &Value) -> Option<&Value>
    ensures { option_map (λ v. view v.now) result ≡ outline (view config.now) }
{
    if has_float(config) || !is_version(config) {
        return None;
    }
    let process = object_at(config, "process")?;
    if has_directory(process) {
        Some(process)
    } else {
        None
    }
}

// The process that a value asks for, if it meets all demands.
fn process_of(alloc: Global, config: &Value) -> Result<Option<Process>, AllocError>
    ensures process { IfOk result (λ o. option_map config_of o ≡ process_of (view config.now)) }
    ensures nothing_written { IfOk result (λ o. IfSome o (λ p. (p.out ≡ []) × (p.err ≡ []))) }
{
    let Some(process) = outline(config) else {
        return Ok(None);
    };
    let Some((args, env)) = texts_at(alloc, process)? else {
        return Ok(None);
    };
    let Some(digest) = module_at(config) else {
        return Ok(None);
    };
    let Some(cap) = cap_at(config) else {
        return Ok(None);
    };
    let process = new_process(alloc, digest, args, env, cap)?;
    Ok(Some(process))
}

// A process that has written nothing.
fn new_process(
    alloc: Global,
    digest: &str,
    args: Vec<Text>,
    env: Vec<Text>,
    cap: PageCap,
) -> Result<Process, AllocError>
    ensures config { IfOk result (λ p. config_of p
        ≡ record { «module» = digest.now; args = args.items; env = env.items; cap = cap }) }
    ensures nothing_written { IfOk result (λ p. (p.out ≡ []) × (p.err ≡ [])) }
{
    Ok(Process {
        module: Text::from_str(alloc, digest)?,
        args: Sequence::new(args),
        env: Sequence::new(env),
        cap,
        out: Output::new(alloc)?,
        err: Output::new(alloc)?,
    })
}

// The JSON value of a text, if it has one.
fn value_of(alloc: Global, text: &str) -> Result<Option<Value>, AllocError>
    ensures { IfOk result (λ o. option_map view o ≡ read text.now) }
{
    match Value::from_str(alloc, text) {
        Ok(value) => Ok(Some(value)),
        Err(e) => if e.is_memory() {
            Err(AllocError)
        } else {
            Ok(None)
        },
    }
}

// The process that a text asks for, if it is a config that the profile takes.
fn process_in(alloc: Global, text: &str) -> Result<Option<Process>, AllocError>
    ensures process { IfOk result
        (λ o. option_map config_of o ≡ option_and_then process_of (read text.now)) }
    ensures nothing_written { IfOk result (λ o. IfSome o (λ p. (p.out ≡ []) × (p.err ≡ []))) }
{
    match value_of(alloc, text)? {
        Some(value) => process_of(alloc, &value),
        None => Ok(None),
    }
}

// The bytes as a text, if they are UTF-8.
#[tactic(auto, using(crate::proofs::Utf8::is_text, crate::proofs::Utf8::no_text))]
fn text_of(bytes: &[u8]) -> Option<&str>
    ensures text { IfSome result (λ text. (text.now ≡ bytes.now) × (is_utf8 bytes.now ≡ true)) }
    ensures none { IfNone result (is_utf8 bytes.now ≡ false) }
{
    from_utf8(bytes).ok()
}

/// The process that the bytes of a config ask for, before it has written anything (OCI Runtime
/// Specification 1.0, config.md and config-linux.md). `BadConfig` exactly if the bytes are no UTF-8, or
/// their text is no config that the profile takes; `NoMemory` if memory runs out.
pub fn read_config(alloc: Global, bytes: &[u8]) -> Result<Process, Refusal>
    ensures process { IfOk result (λ p. process_read bytes.now ≡ Some (config_of p)) }
    ensures nothing_written { IfOk result (λ p. (p.out ≡ []) × (p.err ≡ [])) }
    ensures bad { result ≡ Err refusal.BadConfig → process_read bytes.now ≡ None }
    ensures no_text { is_utf8 bytes.now ≡ false → result ≡ Err refusal.BadConfig }
    ensures err { OnErr result
        ((result ≡ Err refusal.BadConfig) ⊎ (result ≡ Err refusal.NoMemory)) }
{
    let Some(text) = text_of(bytes) else {
        return Err(Refusal::BadConfig);
    };
    match process_in(alloc, text)? {
        Some(process) => Ok(process),
        None => Err(Refusal::BadConfig),
    }
}

/// The process that has these arguments, this environment and, if there is a limit, at most this number of
/// bytes of memory, before it has written anything: no config names its module. `BadConfig` exactly if a
/// config could not give it these arguments and this environment: if there is no argument, there are more
/// than 64 arguments or 64 entries, one of all these holds U+0000, an entry has no `=` after at least one
/// character, or they take more than 65,536 bytes together with one more for each; `NoMemory` if memory
/// runs out. The memory may have the whole pages within the limit, at most 256, and 16 without a limit.
pub fn process_under(
    alloc: Global,
    args: Vec<Text>,
    env: Vec<Text>,
    limit: Option<u64>,
) -> Result<Process, Refusal>
    ensures process { IfOk result (λ p. config_of p ≡ process_under args.items env.items limit) }
    ensures nothing_written { IfOk result (λ p. (p.out ≡ []) × (p.err ≡ [])) }
    ensures taken { OnOk result (are_taken args.items env.items ≡ true) }
    ensures bad { result ≡ Err refusal.BadConfig → are_taken args.items env.items ≡ false }
    ensures err { OnErr result
        ((result ≡ Err refusal.BadConfig) ⊎ (result ≡ Err refusal.NoMemory)) }
{
    if !are_taken(args.as_slice(), env.as_slice()) {
        return Err(Refusal::BadConfig);
    }
    let process = new_process(alloc, "", args, env, pages_under(limit))?;
    Ok(process)
}
