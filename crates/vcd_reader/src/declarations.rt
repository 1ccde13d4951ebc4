ghost use Rattle.std.specs.Prelude.{◌≡◌, ◌<◌, ◌≤◌, ◌^◌, ◌==◌, [], not, map, length, IfOk, OnOk};
ghost use Rattle.std.specs.List.{join_with_byte, prefix_len};
ghost use Rattle.vcd_reader.specs.Codes.{is_unread_kind};
ghost use Rattle.vcd_reader.specs.Header.{name_of, with_section, with_fields, with_variable, with_scope, without_scope};
ghost use Rattle.vcd_reader.specs.Views.{declared_of, scope_text};

use crate::codes::Codes;
use crate::keyword::Keyword;
use crate::size::read_size;
use crate::{Var, Vars};
use cov_host::{Name, NoMemory, Sequence};
use smallvec::SmallVec;
use std::alloc::Global;

const REAL: &[u8] = b"real";

const REALTIME: &[u8] = b"realtime";

const EVENT: &[u8] = b"event";

const STRING: &[u8] = b"string";

const PARAMETER: &[u8] = b"parameter";

/// What the sections of a header have declared.
#[derive(Drop)]
pub(crate) struct Declarations {
    pub(crate) alloc: Global,
    pub(crate) vars: Vars,
    pub(crate) codes: Codes,
    /// The names of the open scopes, the outermost first; None where one has no name.
    pub(crate) scopes: SmallVec<Option<Name>, 8>,
}

impl Declarations {
    pub(crate) fn new(alloc: Global) -> Self
        ensures { declared_of result ≡ record { vars = []; codes = []; scopes = [] } }
    {
        Declarations {
            alloc,
            vars: Sequence::new(alloc),
            codes: Codes::new(alloc),
            scopes: SmallVec::new(alloc),
        }
    }

    /// Adds what a whole section declares.
    pub(crate) fn add(&mut self, keyword: Keyword, fields: &[Name]) -> Result<(), NoMemory>
        requires { length self.old.codes < 2 ^ 32 }
        ensures { OnOk result (declared_of self.new ≡ with_section (declared_of self.old) keyword fields.now) }
    {
        match keyword {
            Keyword::Scope => self.open_scope(fields),
            Keyword::Upscope => {
                self.close_scope();
                Ok(())
            }
            Keyword::Variable => self.add_variable(fields),
            Keyword::EndDefinitions | Keyword::Passed => Ok(()),
        }
    }

    /// Opens a scope, which has no name where there is one field alone.
    fn open_scope(&mut self, fields: &[Name]) -> Result<(), NoMemory>
        ensures { OnOk result (declared_of self.new ≡ with_scope (declared_of self.old) fields.now) }
    {
        let name = match fields {
            [_, name, ..] => Some(to_name(self.alloc, name.as_slice())?),
            _ => None,
        };
        self.scopes.push(name)?;
        Ok(())
    }

    /// Closes the innermost scope.
    fn close_scope(&mut self)
        ensures { declared_of self.new ≡ without_scope (declared_of self.old) }
    {
        let _ = self.scopes.pop();
    }

    /// Adds the variable of four fields.
    fn add_variable(&mut self, fields: &[Name]) -> Result<(), NoMemory>
        requires { length self.old.codes < 2 ^ 32 }
        ensures { OnOk result (declared_of self.new ≡ with_fields (declared_of self.old) fields.now) }
    {
        match fields {
            [kind, size, code, reference, ..] => self.add_fields(
                kind.as_slice(),
                read_size(size.as_slice()),
                code.as_slice(),
                reference.as_slice(),
            ),
            _ => Ok(()),
        }
    }

    /// Adds a variable, if it has a size.
    fn add_fields(
        &mut self,
        kind: &[u8],
        size: Option<u32>,
        code: &[u8],
        reference: &[u8],
    ) -> Result<(), NoMemory>
        requires { length self.old.codes < 2 ^ 32 }
        ensures { OnOk result (declared_of self.new ≡ with_variable (declared_of self.old) kind.now size code.now reference.now) }
    {
        let Some(size) = size else {
            return Ok(());
        };
        let code = self.codes.add(code, size, !is_unread_kind(kind))?;
        let var = Var {
            scope: path_of(self.alloc, self.scopes.as_slice())?,
            kind: to_name(self.alloc, kind)?,
            name: to_name(self.alloc, before_range(reference))?,
            size,
            code,
        };
        self.vars.push(var)?;
        Ok(())
    }
}

/// Whether variables of the kind are not read.
fn is_unread_kind(kind: &[u8]) -> bool
    ensures { result ≡ is_unread_kind kind.now }
{
    kind == REAL || kind == REALTIME || kind == EVENT || kind == STRING || kind == PARAMETER
}

/// The names of scopes, joined by dots.
fn path_of(alloc: Global, scopes: &[Option<Name>]) -> Result<Name, NoMemory>
    ensures { IfOk result (λ path. path ≡ join_with_byte 46 (map scope_text scopes.now)) }
{
    let mut path = Sequence::new(alloc);
    for (depth, scope) in scopes.iter().enumerate() {
        if depth > 0 {
            path.push(b'.')?;
        }
        path.extend_from_slice(bytes_of(scope))?;
    }
    Ok(path)
}

/// The bytes of a name, empty where there is no name.
fn bytes_of(name: &Option<Name>) -> &[u8]
    ensures { result.now ≡ scope_text name.now }
{
    match name {
        Some(name) => name.as_slice(),
        None => &[],
    }
}

pub(crate) fn to_name(alloc: Global, bytes: &[u8]) -> Result<Name, NoMemory>
    ensures { IfOk result (λ name. name ≡ bytes.now) }
{
    Ok(Name::from_vec(Vec::from_slice(alloc, bytes)?))
}

/// The reference without the range that is joined to it.
fn before_range(reference: &[u8]) -> &[u8]
    ensures { result.now ≡ name_of reference.now }
{
    let (name, _) = reference.split_at(name_len(reference));
    name
}

/// The number of bytes before the first `[`.
fn name_len(reference: &[u8]) -> usize
    ensures length { result ≡ prefix_len (λ byte. not (byte == 91)) reference.now }
    ensures within { result ≤ length reference.now }
{
    reference.iter().take_while(|byte| **byte != b'[').count()
}
