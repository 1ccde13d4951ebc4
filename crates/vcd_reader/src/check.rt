//! Which words of the header are faults.

ghost use Rattle.std.specs.Prelude.{◌≡◌, Some, None, IfOk, IfErr};
ghost use Rattle.vcd_reader.specs.Answer.{fault_if, unless};
ghost use Rattle.vcd_reader.specs.Header.{keyword_of, keyword_fault, end_fault, field_fault, variable_fault, code_fault, has_other_size};

use crate::codes::Codes;
use crate::keyword::Keyword;
use crate::letters::are_printable;
use crate::size::read_size;
use crate::{DumpFault, DumpKind};
use cov_host::Name;

/// How many scopes can be open at once.
const DEEPEST: usize = 64;

/// The longest identifier code, in bytes.
const LONGEST_CODE: usize = 8;

/// How many fields a variable has at least.
const LEAST_FIELDS: usize = 4;

/// A fault of this kind, if the test holds.
pub(crate) fn fault_if(test: bool, kind: DumpKind, at: u64) -> Result<(), DumpFault>
    ensures { result ≡ unless (fault_if test kind at) tt }
{
    if test {
        Err(DumpFault::at(kind, at))
    } else {
        Ok(())
    }
}

/// The section that a word opens where `depth` scopes are open.
pub(crate) fn opening(word: &[u8], at: u64, depth: usize) -> Result<Keyword, DumpFault>
    ensures ok { IfOk result (λ keyword. keyword_of word.now ≡ Some keyword) }
    ensures fits { IfOk result (λ keyword. keyword_fault depth (keyword_of word.now) at ≡ None) }
    ensures fault { IfErr result (λ fault. keyword_fault depth (keyword_of word.now) at ≡ Some fault) }
{
    let Some(keyword) = Keyword::of(word) else {
        return Err(DumpFault::at(DumpKind::BadHeader, at));
    };
    check_depth(keyword, at, depth)?;
    Ok(keyword)
}

/// Whether a section can begin where `depth` scopes are open.
fn check_depth(keyword: Keyword, at: u64, depth: usize) -> Result<(), DumpFault>
    ensures { result ≡ unless (keyword_fault depth (Some keyword) at) tt }
{
    match keyword {
        Keyword::Scope => fault_if(depth >= DEEPEST, DumpKind::DeepScope, at),
        Keyword::Upscope => fault_if(depth == 0, DumpKind::BadHeader, at),
        Keyword::Variable | Keyword::EndDefinitions | Keyword::Passed => Ok(()),
    }
}

/// Whether a section can end after `count` fields.
pub(crate) fn check_end(keyword: Keyword, count: usize, at: u64) -> Result<(), DumpFault>
    ensures { result ≡ unless (end_fault keyword count at) tt }
{
    match keyword {
        Keyword::Scope => fault_if(count == 0, DumpKind::BadHeader, at),
        Keyword::Variable => fault_if(count < LEAST_FIELDS, DumpKind::BadHeader, at),
        Keyword::Upscope | Keyword::EndDefinitions | Keyword::Passed => Ok(()),
    }
}

/// Whether a word can be the next field of a section, after these.
pub(crate) fn check_field(
    codes: &Codes,
    keyword: Keyword,
    fields: &[Name],
    word: &[u8],
    at: u64,
) -> Result<(), DumpFault>
    ensures { result ≡ unless (field_fault codes.now keyword fields.now (record { at = at; bytes = word.now })) tt }
{
    match keyword {
        Keyword::Scope => fault_if(fields.len() >= 2, DumpKind::BadHeader, at),
        Keyword::Upscope | Keyword::EndDefinitions => Err(DumpFault::at(DumpKind::BadHeader, at)),
        Keyword::Variable => check_variable(codes, fields, word, at),
        Keyword::Passed => Ok(()),
    }
}

/// Whether a word can be the next field of a variable, after these.
fn check_variable(codes: &Codes, fields: &[Name], word: &[u8], at: u64) -> Result<(), DumpFault>
    ensures { result ≡ unless (variable_fault codes.now fields.now (record { at = at; bytes = word.now })) tt }
{
    match fields {
        [_] => fault_if(read_size(word).is_none(), DumpKind::BadHeader, at),
        [_, size] => check_code(codes, read_size(size.as_slice()), word, at),
        _ => Ok(()),
    }
}

/// Whether a word can be the code of a variable of this size (IEEE 1364-2001 clause 18.2.1).
fn check_code(codes: &Codes, size: Option<u32>, word: &[u8], at: u64) -> Result<(), DumpFault>
    ensures { result ≡ unless (code_fault codes.now size (record { at = at; bytes = word.now })) tt }
{
    let (first, _) = word.split_at(word.len().min(LONGEST_CODE + 1));
    if !are_printable(first) {
        return Err(DumpFault::at(DumpKind::BadHeader, at));
    }
    if word.len() > LONGEST_CODE {
        return Err(DumpFault::at(DumpKind::LongCode, at));
    }
    fault_if(
        has_other_size(size, codes.size_of(word)),
        DumpKind::BadHeader,
        at,
    )
}

/// Whether a code was declared with another size.
fn has_other_size(size: Option<u32>, known: Option<u32>) -> bool
    ensures { result ≡ has_other_size size known }
{
    match known {
        Some(known) => size != Some(known),
        None => false,
    }
}
