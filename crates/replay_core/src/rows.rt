//! Lists that the tables are made of.

ghost use Rattle.std.specs.Prelude.{◌≡◌, ◌<◌, ◌≤◌, ◌++◌, ◌^◌, ℕ, IfOk, None, Some, map, slice_index_or};
ghost use Rattle.replay_core.specs.Codes.{code_list as list_of, flags_of};

use cov_host::NoMemory;
use std::alloc::Global;

/// Whether each signal has a code.
pub(crate) fn bound_flags(alloc: Global, codes: &[Option<u32>]) -> Result<Vec<bool>, NoMemory>
    ensures { IfOk result (λ flags. flags.items ≡ flags_of codes.now) }
{
    let mut flags = Vec::new(alloc);
    for code in codes {
        flags.push(code.is_some())?;
    }
    Ok(flags)
}

/// For each signal the list of its one code, or no code.
pub(crate) fn code_lists(alloc: Global, codes: &[Option<u32>]) -> Result<Vec<Vec<u32>>, NoMemory>
    ensures { IfOk result (λ lists. map (λ list. list.items) lists.items ≡ map list_of codes.now) }
{
    let mut lists = Vec::new(alloc);
    for code in codes {
        let list = code_list(alloc, *code)?;
        lists.push(list)?;
    }
    Ok(lists)
}

/// The list of a code, if there is one.
fn code_list(alloc: Global, code: Option<u32>) -> Result<Vec<u32>, NoMemory>
    ensures { IfOk result (λ list. list.items ≡ list_of code) }
{
    let mut list = Vec::new(alloc);
    if let Some(code) = code {
        list.push(code)?;
    }
    Ok(list)
}

/// A number that all codes are below.
pub(crate) fn past_codes(codes: &[Option<u32>]) -> usize
    ensures { (s code : ℕ) → slice_index_or codes.now s None ≡ Some code → code < result }
{
    let mut past = 0;
    for code in codes {
        past = past_code(*code, past);
    }
    past
}

/// A number that a code is below, and not less than another one.
fn past_code(code: Option<u32>, past: usize) -> usize
    ensures least { past ≤ result }
    ensures past { (n : ℕ) → code ≡ Some n → n < result }
{
    match code {
        Some(code) => past.max(code as usize + 1),
        None => past,
    }
}

/// The numbers of two lists, one list after the other.
pub(crate) fn joined(alloc: Global, first: &[u32], second: &[u32]) -> Result<Vec<u32>, NoMemory>
    ensures { IfOk result (λ all. all.items ≡ first.now ++ second.now) }
{
    let mut all = Vec::from_slice(alloc, first)?;
    all.extend_from_slice(second)?;
    Ok(all)
}
