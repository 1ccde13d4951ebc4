//! Modules and their items.

ghost use Rattle.std.specs.Prelude.{◌≡◌, ◌==◌, false};
ghost use Rattle.grammar_rules.specs.Rule.{first, member, next};
ghost use Rattle.grammar_rules.specs.Grammar.{reads, whole};
ghost use Rattle.verilog_tree.specs.View.{items_view, module_view, modules_view};
ghost use Rattle.verilog_grammar.specs.declared.kind.Kind.TheVariants as k;
ghost use Rattle.verilog_grammar.specs.Kind.{code};
ghost use Rattle.verilog_grammar.specs.Language.{verilog};
ghost use Rattle.verilog_grammar.specs.Verilog.{grammar, begins};
ghost use Rattle.verilog_grammar.specs.Modules.{item_rule, items_rule, module_rule, source_rule};
ghost use Rattle.verilog_expressions.specs.Gives.{Gives, GivesAll};
ghost use Rattle.verilog_expressions.specs.Views.{one_item_view};

use crate::process::{always_item, continuous_items, initial_item};
use cov_host::Sequence;
use std::alloc::Global;
use verilog_expressions::{Cursor, ReadFault};
use verilog_grammar::Kind;
use verilog_items::{
    Ports, begins_port, header_params, header_ports, instance_item, integer_item, name, net_item,
    parameter_item, port_item, variable_item,
};
use verilog_tree::{Item, Module};

/// Whether the next token begins an item.
#[tactic(auto, unfolding(verilog_grammar::specs::Modules::item_rule, verilog_grammar::specs::Modules::port_item_rule, verilog_grammar::specs::Modules::port_rule, verilog_grammar::specs::Modules::direction_rule, verilog_grammar::specs::Modules::net_item_rule, verilog_grammar::specs::Modules::variable_item_rule, verilog_grammar::specs::Modules::integer_item_rule, verilog_grammar::specs::Modules::parameter_item_rule, verilog_grammar::specs::Modules::continuous_item_rule, verilog_grammar::specs::Modules::always_item_rule, verilog_grammar::specs::Modules::initial_item_rule, verilog_grammar::specs::Modules::instance_item_rule))]
fn begins_item(cursor: &Cursor<'_, '_>) -> bool
    ensures { result ≡ member (next verilog cursor.now) (first verilog begins item_rule) }
{
    begins_port(cursor)
        || cursor.sees(Kind::Wire)
        || cursor.sees(Kind::Reg)
        || cursor.sees(Kind::Integer)
        || cursor.sees(Kind::Parameter)
        || cursor.sees(Kind::Localparam)
        || cursor.sees(Kind::Assign)
        || cursor.sees(Kind::Always)
        || cursor.sees(Kind::Initial)
        || cursor.sees(Kind::Identifier)
}

/// An item that is one in the tree too.
#[tactic(auto, unfolding(verilog_grammar::specs::Modules::item_rule, verilog_grammar::specs::Modules::port_item_rule, verilog_grammar::specs::Modules::port_rule, verilog_grammar::specs::Modules::direction_rule, verilog_grammar::specs::Modules::net_item_rule, verilog_grammar::specs::Modules::variable_item_rule, verilog_grammar::specs::Modules::integer_item_rule, verilog_grammar::specs::Modules::parameter_item_rule, verilog_grammar::specs::Modules::continuous_item_rule, verilog_grammar::specs::Modules::always_item_rule, verilog_grammar::specs::Modules::initial_item_rule))]
fn single_item(alloc: Global, cursor: &mut Cursor<'_, '_>, depth: u32) -> Result<Item, ReadFault>
    requires { (next verilog cursor.old == code k.Assign) ≡ false }
    ensures { Gives one_item_view (reads verilog grammar depth item_rule cursor.old) result cursor.new }
{
    if begins_port(cursor) {
        port_item(alloc, cursor, depth)
    } else if cursor.sees(Kind::Wire) {
        net_item(alloc, cursor, depth)
    } else if cursor.sees(Kind::Reg) {
        variable_item(alloc, cursor, depth)
    } else if cursor.sees(Kind::Integer) {
        integer_item(alloc, cursor, depth)
    } else if cursor.sees(Kind::Parameter) || cursor.sees(Kind::Localparam) {
        parameter_item(alloc, cursor, depth)
    } else if cursor.sees(Kind::Always) {
        always_item(alloc, cursor, depth)
    } else if cursor.sees(Kind::Initial) {
        initial_item(alloc, cursor, depth)
    } else {
        instance_item(alloc, cursor, depth)
    }
}

/// The items that the next item of the text gives.
#[tactic(auto, unfolding(verilog_grammar::specs::Modules::item_rule, verilog_grammar::specs::Modules::port_item_rule, verilog_grammar::specs::Modules::port_rule, verilog_grammar::specs::Modules::direction_rule, verilog_grammar::specs::Modules::net_item_rule, verilog_grammar::specs::Modules::variable_item_rule, verilog_grammar::specs::Modules::integer_item_rule, verilog_grammar::specs::Modules::parameter_item_rule, verilog_grammar::specs::Modules::continuous_item_rule, verilog_grammar::specs::Modules::always_item_rule, verilog_grammar::specs::Modules::initial_item_rule))]
fn item(alloc: Global, cursor: &mut Cursor<'_, '_>, depth: u32) -> Result<Vec<Item>, ReadFault>
    ensures { Gives (λ v. items_view v.items) (reads verilog grammar depth item_rule cursor.old) result cursor.new }
{
    if cursor.sees(Kind::Assign) {
        return continuous_items(alloc, cursor, depth);
    }
    let item = single_item(alloc, cursor, depth)?;
    let mut items = Vec::new(alloc);
    items.push(item)?;
    Ok(items)
}

/// The items of a module.
fn items(alloc: Global, cursor: &mut Cursor<'_, '_>, depth: u32) -> Result<Vec<Item>, ReadFault>
    ensures { Gives (λ v. items_view v.items) (reads verilog grammar depth items_rule cursor.old) result cursor.new }
{
    let mut all = Vec::new(alloc);
    'more: while begins_item(cursor) {
        let mut next = item(alloc, cursor, depth)?;
        all.append(&mut next)?;
    }
    Ok(all)
}

#[tactic(auto, unfolding(verilog_grammar::specs::Modules::module_rule))]
fn module(alloc: Global, cursor: &mut Cursor<'_, '_>, depth: u32) -> Result<Module, ReadFault>
    ensures { Gives module_view (reads verilog grammar depth module_rule cursor.old) result cursor.new }
{
    cursor.take(Kind::Module)?;
    let name = name(alloc, cursor)?;
    let params = header_params(alloc, cursor, depth)?;
    let Ports {
        names,
        items: mut all,
    } = header_ports(alloc, cursor, depth)?;
    cursor.take(Kind::Semicolon)?;
    let mut others = items(alloc, cursor, depth)?;
    cursor.take(Kind::Endmodule)?;
    all.append(&mut others)?;
    Ok(Module {
        name,
        params: Sequence::from_vec(params),
        ports: Sequence::from_vec(names),
        items: Sequence::from_vec(all),
    })
}

/// Modules, as far as they go.
#[tactic(auto, unfolding(verilog_grammar::specs::Modules::source_rule, verilog_grammar::specs::Modules::module_rule))]
fn each_module(
    alloc: Global,
    cursor: &mut Cursor<'_, '_>,
    depth: u32,
) -> Result<Vec<Module>, ReadFault>
    ensures { Gives (λ ms. modules_view ms.items) (reads verilog grammar depth source_rule cursor.old) result cursor.new }
{
    let mut all = Vec::new(alloc);
    'more: while cursor.sees(Kind::Module) {
        let next = module(alloc, cursor, depth)?;
        all.push(next)?;
    }
    Ok(all)
}

/// All modules, up to the end of the tokens.
#[tactic(auto, unfolding(grammar_rules::specs::Grammar::whole))]
pub(crate) fn modules(
    alloc: Global,
    cursor: &mut Cursor<'_, '_>,
    depth: u32,
) -> Result<Vec<Module>, ReadFault>
    ensures { GivesAll (λ ms. modules_view ms.items) (whole verilog grammar depth cursor.old) result }
{
    let all = each_module(alloc, cursor, depth)?;
    if cursor.left() != 0 {
        return Err(cursor.refuse());
    }
    Ok(all)
}
