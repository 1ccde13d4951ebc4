ghost use Rattle.std.specs.Prelude.{◌≡◌, ◌<◌, ◌≤◌, ◌-◌, ◌^◌, ◌==◌, ℕ, List, Some, None, if◌then◌else◌, bytes_eq, length, IfSome, OnOk, OnErr};
ghost use Rattle.vcd_reader.specs.Places.{is_short, code_number, place_at, place_under};

use crate::letters::is_printable;
use cov_host::NoMemory;
use std::alloc::Global;
use std::collections::BTreeMap;

/// The greatest number of bytes of a code.
const PRINTABLE: usize = 94;

/// The place of each code in the order of all codes. A short code, of one to three bytes, is found at its number, any
/// other by its bytes.
#[derive(Drop)]
pub(crate) struct Places {
    pub(crate) short: Vec<Option<u32>>,
    pub(crate) long: BTreeMap<Vec<u8>, u32>,
}

impl Places {
    ghost use Rattle.vcd_reader.specs.Places.{place_in};

    /// No code has a place.
    pub(crate) fn new(alloc: Global) -> Self
        ensures { (text : List ℕ) → place_in result text ≡ None }
    {
        Places {
            short: Vec::new(alloc),
            long: BTreeMap::new(alloc),
        }
    }

    /// The place of the code of these bytes.
    #[inline(always)]
    pub(crate) fn get(&self, bytes: &[u8]) -> Option<u32>
        ensures { result ≡ place_in self.now bytes.now }
    {
        match short_number(bytes) {
            Some(number) => get_short(self.short.as_slice(), number),
            None => get_long(&self.long, bytes),
        }
    }

    /// Sets the place of the code of these bytes. An `Err` changes nothing.
    pub(crate) fn set(&mut self, alloc: Global, bytes: &[u8], place: u32) -> Result<(), NoMemory>
        ensures set { OnOk result ((text : List ℕ) → place_in self.new text ≡ (if bytes_eq text bytes.now then Some place else place_in self.old text)) }
        ensures same { OnErr result ((text : List ℕ) → place_in self.new text ≡ place_in self.old text) }
    {
        match short_number(bytes) {
            Some(number) => set_short(&mut self.short, number, place),
            None => set_long(&mut self.long, Vec::from_slice(alloc, bytes)?, place),
        }
    }
}

/// The number of a short code.
#[inline(always)]
fn short_number(code: &[u8]) -> Option<usize>
    ensures number { result ≡ (if is_short code.now then Some (code_number code.now) else None) }
    ensures few { IfSome result (λ number. number < 2 ^ 32) }
{
    match code {
        [] => Some(0),
        [first] if is_printable(*first) => Some(digit(*first)),
        [first, second] if is_printable(*first) && is_printable(*second) => {
            Some(digit(*first) + PRINTABLE * digit(*second))
        }
        [first, second, third]
            if is_printable(*first) && is_printable(*second) && is_printable(*third) => {
            Some(digit(*first) + PRINTABLE * (digit(*second) + PRINTABLE * digit(*third)))
        }
        _ => None,
    }
}

/// The digit that a printable byte is in the number of a code.
fn digit(byte: u8) -> usize
    ensures digit { result ≡ byte - 32 }
    ensures small { result ≤ 255 }
{
    usize::from(byte.saturating_sub(32))
}

/// The place of the short code of this number.
fn get_short(table: &[Option<u32>], number: usize) -> Option<u32>
    ensures { result ≡ place_at table.now number }
{
    match table.get(number) {
        Some(place) => *place,
        None => None,
    }
}

/// The place of the code of these bytes.
#[cold]
fn get_long(table: &BTreeMap<Vec<u8>, u32>, bytes: &[u8]) -> Option<u32>
    ensures { result ≡ place_under table.now.entries bytes.now }
{
    table.get(bytes).copied()
}

/// Sets the place of the short code of this number. An `Err` changes nothing.
fn set_short(table: &mut Vec<Option<u32>>, number: usize, place: u32) -> Result<(), NoMemory>
    requires { number < 2 ^ 32 }
    ensures set { OnOk result ((other : ℕ) → place_at table.new.items other ≡ (if other == number then Some place else place_at table.old.items other)) }
    ensures same { OnErr result (table.new.items ≡ table.old.items) }
{
    make_room(table, number + 1)?;
    table[number] = Some(place);
    Ok(())
}

/// Makes room for `count` numbers, of which the new ones have no place. An `Err` changes nothing.
fn make_room(table: &mut Vec<Option<u32>>, count: usize) -> Result<(), NoMemory>
    ensures room { OnOk result (count ≤ length table.new.items) }
    ensures kept { OnOk result ((number : ℕ) → place_at table.new.items number ≡ place_at table.old.items number) }
    ensures same { OnErr result (table.new.items ≡ table.old.items) }
{
    if table.len() < count {
        table.resize(count, None)?;
    }
    Ok(())
}

/// Sets the place of the code of a key's bytes. An `Err` changes nothing.
fn set_long(table: &mut BTreeMap<Vec<u8>, u32>, key: Vec<u8>, place: u32) -> Result<(), NoMemory>
    ensures set { OnOk result ((text : List ℕ) → place_under table.new.entries text ≡ (if bytes_eq text key.items then Some place else place_under table.old.entries text)) }
    ensures same { OnErr result (table.new.entries ≡ table.old.entries) }
{
    let _ = table.insert(key, place)?;
    Ok(())
}
