ghost use Rattle.std.specs.Prelude.{◌≡◌, ◌++◌, ◌∷◌, [], List, None, IfErr, IfOk, OnOk, length, slice_index_or};
ghost use Rattle.design_model.specs.declared.design.Alias.{Alias as SpecAlias};
ghost use Rattle.signal_binding.specs.Binding.{HasInstance, IsBindFault, codes_of};
ghost use Rattle.signal_binding.specs.Table.{AreCodesAmong, code_in_instance};

use crate::BindFault;
use crate::scope::{below_top, has_instance};
use crate::table::{Key, Table};
use cov_host::{Name, NoMemory};
use design_model::{Alias, Design};
use std::alloc::Global;
use std::marker::Model;
use vcd_reader::{Var, Vars};

/// For each signal of a design the code of the variable to which it is bound.
#[derive(Drop)]
pub struct Binding {
    codes: Vec<Option<u32>>,
}

impl Model for Binding {
    ghost use Rattle.std.specs.Prelude.{ℕ, List, Option};

    ghost Value = { List (Option ℕ) };

    ghost view = { λ b. b.codes.items };
}

impl Binding {
    /// The code of the variable to which the signal with this number is bound. It takes no memory.
    pub fn code_of(&self, signal: u32) -> Option<u32>
        ensures { result ≡ slice_index_or self.now signal None }
    {
        match self.codes.get(signal as usize) {
            Some(code) => *code,
            None => None,
        }
    }
}

/// Binds the signals of a design, of which the instance is the top, to the variables of a dump. An input that has no variable has no code.
///
/// It takes a time near the sum of the lengths of the names.
pub fn bind(
    alloc: Global,
    design: &Design,
    vars: &Vars,
    instance: &str,
) -> Result<Binding, BindFault>
    ensures codes { IfOk result (λ binding. binding ≡ codes_of design.now vars.now instance.now) }
    ensures instance { OnOk result (HasInstance vars.now instance.now) }
    ensures fault { IfErr result (IsBindFault design.now vars.now instance.now) }
{
    if !has_instance(vars.as_slice(), instance) {
        return Err(BindFault::NoInstance);
    }
    let codes = codes_of(alloc, design, vars.as_slice(), instance)?;
    Ok(Binding { codes })
}

/// The codes of the signals in order.
fn codes_of<'a>(
    alloc: Global,
    design: &'a Design,
    vars: &'a [Var],
    instance: &str,
) -> Result<Vec<Option<u32>>, NoMemory>
    ensures { IfOk result (λ codes. codes.items ≡ codes_of design.now vars.now instance.now) }
{
    let table = Table::new(alloc, vars, instance)?;
    let mut codes = own_codes(alloc, design, &table)?;
    add_aliases(design, &table, codes.as_mut_slice());
    Ok(codes)
}

/// The codes of the signals under their own names.
fn own_codes<'a>(
    alloc: Global,
    design: &'a Design,
    table: &Table<'a>,
) -> Result<Vec<Option<u32>>, NoMemory>
    ensures { IfOk result (λ codes. AreCodesAmong table.now design.now [] codes.items) }
{
    let mut codes = Vec::new(alloc);
    for signal in design.signals.as_slice() {
        codes.push(code_under(design, table, signal.instance, &signal.name, signal.width))?;
    }
    Ok(codes)
}

/// Gives each signal that has no code the code under the first of its aliases that has one.
fn add_aliases<'a>(design: &'a Design, table: &Table<'a>, codes: &mut [Option<u32>])
    requires { AreCodesAmong table.now design.now [] codes.old }
    ensures { AreCodesAmong table.now design.now design.now.aliases codes.new }
{
    for alias in design.aliases.as_slice() {
        add_alias(design, table, codes, alias);
    }
}

/// Gives the signal of an alias the code under the alias, if it has no code.
fn add_alias<'a>(design: &'a Design, table: &Table<'a>, codes: &mut [Option<u32>], alias: &'a Alias)
    requires { length codes.old ≡ length design.now.signals }
    ensures { (aliases : List SpecAlias) → AreCodesAmong table.now design.now aliases codes.old → AreCodesAmong table.now design.now (aliases ++ alias.now ∷ []) codes.new }
{
    let place = alias.signal as usize;
    let Some(signal) = design.signals.get(place) else {
        return;
    };
    if codes[place].is_none() {
        codes[place] = code_under(design, table, alias.instance, &alias.name, signal.width);
    }
}

/// The code under a name in an instance.
fn code_under<'a>(
    design: &'a Design,
    table: &Table<'a>,
    instance: u32,
    name: &'a Name,
    width: u8,
) -> Option<u32>
    ensures { result ≡ code_in_instance table.now design.now instance name.now width }
{
    table.get(&Key {
        below: below_top(design, instance),
        name: name.as_slice(),
        size: u32::from(width),
    })
}
