//! The file of a store's setup.
ghost use Rattle.std.specs.Prelude.{◌≡◌, ◌≢◌, ◌++◌, Err, IfErr, IfOk, Ok, OnOk};
ghost use Rattle.wire_bytes.specs.Values.{spelled_number};
ghost use Rattle.store_setup.specs.declared.file.Form.TheVariants.{Named, Nameless};
ghost use Rattle.store_setup.specs.Files.{digest_of, fields_read, header_of, headed, judged, spelling, stored, unknown};

use crate::fault::SetupFileFault;
use crate::nodes::Nodes;
use crate::store_setup::StoreSetup;
use irc_line::is_same;
use setup_spelling::{WireSetup, put_setup};
use sha2::{Digest, Sha256};
use std::alloc::{AllocError, Global};
use wire_bytes::{Number, Wire, WireFault};

/// How many bytes the header has.
const HEADER_LEN: usize = 8;

/// The front of the header, which all versions have.
const MARK: [u8; 6] = *b"RBSETU";

/// How many bytes a SHA-256 digest has.
const DIGEST_LEN: usize = 32;

/// The forms of the file. The older one has no name of the store.
#[derive(Clone, Copy)]
enum Form {
    Nameless,
    Named,
}

impl Form {
    /// What the file begins with: the mark, and the version of its form.
    fn header(self) -> [u8; HEADER_LEN]
        ensures { result ≡ header_of self }
    {
        match self {
            Form::Nameless => *b"RBSETU01",
            Form::Named => *b"RBSETU02",
        }
    }
}

/// The spelling of a store's setup: a header, the number of nodes, how often the log was renewed, the name of the
/// store, if it has one, the setup, and the SHA-256 digest of all before.
pub fn spell(alloc: Global, store: &StoreSetup) -> Result<Vec<u8>, AllocError>
    ensures spelling { IfOk result (λ v. v.items ≡ spelling store.now) }
{
    let form = match store.name {
        None => Form::Nameless,
        Some(_) => Form::Named,
    };
    let mut bytes = Vec::from_slice(alloc, &form.header())?;
    bytes.push(store.nodes.value())?;
    put_number(&mut bytes, store.renewals)?;
    if let Some(name) = store.name {
        put_number(&mut bytes, name)?;
    }
    put_setup(&mut bytes, &store.setup)?;
    // without it a flipped bit would show a setup that the log never had
    let digest = Sha256::digest(bytes.as_slice());
    bytes.extend_from_slice(&digest)?;
    Ok(bytes)
}

/// Appends a number.
fn put_number(out: &mut Vec<u8>, number: Number) -> Result<(), AllocError>
    ensures { OnOk result (out.new.items ≡ out.old.items ++ spelled_number number) }
{
    number.put(out)
}

/// The setup that these bytes spell, all of them.
pub fn read(alloc: Global, bytes: &[u8]) -> Result<StoreSetup, SetupFileFault>
    ensures ok { IfOk result (λ s. stored bytes.now ≡ Ok s) }
    ensures err { IfErr result (λ e. e ≢ SetupFileFault.Memory → stored bytes.now ≡ Err e) }
    ensures spelled { IfOk result (λ s. bytes.now ≡ spelling s) }
{
    headed(alloc, bytes)
}

/// The setup that these bytes spell, whose header is checked first.
fn headed(alloc: Global, bytes: &[u8]) -> Result<StoreSetup, SetupFileFault>
    ensures ok { IfOk result (λ s. stored bytes.now ≡ Ok s) }
    ensures err { IfErr result (λ e. e ≢ SetupFileFault.Memory → stored bytes.now ≡ Err e) }
{
    if bytes.len() < HEADER_LEN {
        return Err(SetupFileFault::NotASetup);
    }
    let (header, rest) = bytes.split_at(HEADER_LEN);
    behind(alloc, header, rest)
}

/// The setup that follows this header.
fn behind(alloc: Global, header: &[u8], rest: &[u8]) -> Result<StoreSetup, SetupFileFault>
    ensures ok { IfOk result (λ s. headed header.now rest.now ≡ Ok s) }
    ensures err { IfErr result (λ e. e ≢ SetupFileFault.Memory
        → headed header.now rest.now ≡ Err e) }
{
    if is_same(header, &Form::Named.header()) {
        judge(alloc, Form::Named, rest)
    } else if is_same(header, &Form::Nameless.header()) {
        judge(alloc, Form::Nameless, rest)
    } else {
        Err(fault_of(header))
    }
}

/// Why there is no setup after an unknown header.
fn fault_of(header: &[u8]) -> SetupFileFault
    ensures { unknown header.now ≡ Err result }
{
    let (mark, _) = header.split_at(MARK.len().min(header.len()));
    if is_same(mark, &MARK) {
        SetupFileFault::Version
    } else {
        SetupFileFault::NotASetup
    }
}

/// The setup that the bytes after the header spell, if their digest is right.
fn judge(alloc: Global, form: Form, rest: &[u8]) -> Result<StoreSetup, SetupFileFault>
    ensures ok { IfOk result (λ s. judged form rest.now ≡ Ok s) }
    ensures err { IfErr result (λ e. e ≢ SetupFileFault.Memory → judged form rest.now ≡ Err e) }
{
    let (fields, digest) = rest.split_at(rest.len().saturating_sub(DIGEST_LEN));
    if is_same(digest, &digest_of(form, fields)) {
        read_fields(alloc, form, fields)
    } else {
        Err(SetupFileFault::Damaged)
    }
}

/// The digest that follows these fields.
fn digest_of(form: Form, fields: &[u8]) -> [u8; DIGEST_LEN]
    ensures { result ≡ digest_of form fields.now }
{
    let mut hasher = Sha256::new();
    hasher.update(&form.header());
    hasher.update(fields);
    hasher.finalize()
}

/// The setup that these bytes spell without header and digest.
fn read_fields(alloc: Global, form: Form, fields: &[u8]) -> Result<StoreSetup, SetupFileFault>
    ensures ok { IfOk result (λ s. fields_read form fields.now ≡ Ok s) }
    ensures err { IfErr result (λ e. e ≢ SetupFileFault.Memory
        → fields_read form fields.now ≡ Err e) }
{
    match form {
        Form::Nameless => read_nameless(alloc, fields),
        Form::Named => read_named(alloc, fields),
    }
}

/// The same for a store without a name.
fn read_nameless(alloc: Global, fields: &[u8]) -> Result<StoreSetup, SetupFileFault>
    ensures ok { IfOk result (λ s. fields_read Nameless fields.now ≡ Ok s) }
    ensures err { IfErr result (λ e. e ≢ SetupFileFault.Memory
        → fields_read Nameless fields.now ≡ Err e) }
{
    match <((Nodes, Number), WireSetup)>::take(alloc, fields) {
        Ok((_, len)) if len < fields.len() => Err(SetupFileFault::Damaged),
        Ok((((nodes, renewals), setup), _)) => Ok(StoreSetup {
            nodes: nodes.size(),
            renewals,
            name: None,
            setup: setup.into_setup(),
        }),
        Err(WireFault::Memory) => Err(SetupFileFault::Memory),
        Err(_) => Err(SetupFileFault::Damaged),
    }
}

/// The same for a store with a name.
fn read_named(alloc: Global, fields: &[u8]) -> Result<StoreSetup, SetupFileFault>
    ensures ok { IfOk result (λ s. fields_read Named fields.now ≡ Ok s) }
    ensures err { IfErr result (λ e. e ≢ SetupFileFault.Memory
        → fields_read Named fields.now ≡ Err e) }
{
    match <(((Nodes, Number), Number), WireSetup)>::take(alloc, fields) {
        Ok((_, end)) if end < fields.len() => Err(SetupFileFault::Damaged),
        Ok(((((nodes, renewals), name), setup), _)) => Ok(StoreSetup {
            nodes: nodes.size(),
            renewals,
            name: Some(name),
            setup: setup.into_setup(),
        }),
        Err(WireFault::Memory) => Err(SetupFileFault::Memory),
        Err(_) => Err(SetupFileFault::Damaged),
    }
}
