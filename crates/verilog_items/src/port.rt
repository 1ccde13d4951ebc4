//! Ports, and the port lists of headers.

ghost use Rattle.std.specs.Prelude.{◌≡◌, ◌==◌, ◌||◌, List, [], ◌∷◌, IfOk};
ghost use Rattle.grammar_rules.specs.Rule.{empty, either, made, next};
ghost use Rattle.grammar_rules.specs.Grammar.{reads};
ghost use Rattle.verilog_tree.specs.View.{item_view};
ghost use Rattle.verilog_grammar.specs.declared.kind.Kind.TheVariants as k;
ghost use Rattle.verilog_grammar.specs.Kind.{code};
ghost use Rattle.verilog_grammar.specs.Language.{verilog};
ghost use Rattle.verilog_grammar.specs.Verilog.{grammar};
ghost use Rattle.verilog_grammar.specs.Parts.{name_rule, after, only, present as present_rule};
ghost use Rattle.verilog_grammar.specs.Modules.{Entry as AnyEntry, direction_rule, is_wire, plist_rule, no_ports, port_rule, port_item_rule, port_item_of, entry_rule, entries_rule, declared_ports as declared_ports_of, header_ports_rule};
ghost use Rattle.verilog_expressions.specs.Gives.{Gives, same};
ghost use Rattle.verilog_expressions.specs.Views.{one_item_view};
ghost use Rattle.verilog_items.specs.Declarations.{direction_view, head_view, entry_view, ports_view, with_entries};

use crate::declaration::{Shape, copied, name, names, names_behind, present, read_shape};
use cov_host::{NoMemory, Place, Sequence};
use std::alloc::Global;
use verilog_expressions::{Cursor, ReadFault};
use verilog_grammar::Kind;
use verilog_tree::{Item, ItemForm, Named};

/// Whether it is an input, and whether it is a `reg`.
#[derive(Clone, Copy)]
pub(crate) struct Direction {
    place: Place,
    input: bool,
    reg: bool,
}

/// A port with its name.
#[derive(Drop)]
pub(crate) struct PortHead {
    direction: Direction,
    shape: Shape,
    name: Named,
}

/// Whether the next token begins a port.
pub fn begins_port(cursor: &Cursor<'_, '_>) -> bool
    ensures { result ≡ (next verilog cursor.now == code k.Input || next verilog cursor.now == code k.Output) }
{
    cursor.sees(Kind::Input) || cursor.sees(Kind::Output)
}

/// Whether an output is a `reg`.
fn output_is_reg(cursor: &mut Cursor<'_, '_>) -> Result<bool, ReadFault>
    ensures { Gives same (reads verilog grammar 0 (either (made is_wire (only k.Wire)) (present_rule k.Reg)) cursor.old) result cursor.new }
{
    if cursor.sees(Kind::Wire) {
        cursor.take(Kind::Wire)?;
        return Ok(false);
    }
    present(cursor, Kind::Reg)
}

#[tactic(auto, unfolding(verilog_grammar::specs::Modules::direction_rule))]
fn read_direction(cursor: &mut Cursor<'_, '_>) -> Result<Direction, ReadFault>
    ensures { Gives direction_view (reads verilog grammar 0 direction_rule cursor.old) result cursor.new }
{
    if cursor.sees(Kind::Input) {
        let place = cursor.take(Kind::Input)?.place;
        present(cursor, Kind::Wire)?;
        return Ok(Direction {
            place,
            input: true,
            reg: false,
        });
    }
    let place = cursor.take(Kind::Output)?.place;
    let reg = output_is_reg(cursor)?;
    Ok(Direction {
        place,
        input: false,
        reg,
    })
}

#[tactic(auto, unfolding(verilog_grammar::specs::Modules::port_rule, verilog_grammar::specs::Modules::direction_rule))]
fn port(alloc: Global, cursor: &mut Cursor<'_, '_>, depth: u32) -> Result<PortHead, ReadFault>
    ensures { Gives head_view (reads verilog grammar depth port_rule cursor.old) result cursor.new }
{
    let direction = read_direction(cursor)?;
    let shape = read_shape(alloc, cursor, depth)?;
    let name = name(alloc, cursor)?;
    Ok(PortHead {
        direction,
        shape,
        name,
    })
}

impl PortHead {
    /// The item of the port and the plain names after it.
    fn into_item(self, alloc: Global, others: Vec<Named>) -> Result<Item, NoMemory>
        ensures { IfOk result (λ i. item_view i ≡ port_item_of (head_view self) others.items) }
    {
        let PortHead {
            direction,
            shape: Shape { signed, range },
            name,
        } = self;
        let mut others = others;
        let mut names = Vec::new(alloc);
        names.push(name)?;
        names.append(&mut others)?;
        Ok(Item {
            place: direction.place,
            form: ItemForm::Port {
                input: direction.input,
                reg: direction.reg,
                signed,
                range,
                names: Sequence::from_vec(names),
            },
        })
    }
}

/// A port, and plain names after it.
#[tactic(auto, unfolding(verilog_grammar::specs::Modules::port_item_rule))]
pub fn port_item(alloc: Global, cursor: &mut Cursor<'_, '_>, depth: u32) -> Result<Item, ReadFault>
    ensures { Gives one_item_view (reads verilog grammar depth port_item_rule cursor.old) result cursor.new }
{
    let head = port(alloc, cursor, depth)?;
    let others = names_behind(alloc, cursor)?;
    cursor.take(Kind::Semicolon)?;
    Ok(head.into_item(alloc, others)?)
}

/// What follows a comma in a list of ports.
#[derive(Drop)]
pub(crate) enum Entry {
    Port(PortHead),
    Name(Named),
}

#[tactic(auto, unfolding(verilog_grammar::specs::Modules::entry_rule, verilog_grammar::specs::Modules::port_rule, verilog_grammar::specs::Modules::direction_rule))]
fn read_entry(alloc: Global, cursor: &mut Cursor<'_, '_>, depth: u32) -> Result<Entry, ReadFault>
    ensures { Gives entry_view (reads verilog grammar depth entry_rule cursor.old) result cursor.new }
{
    if begins_port(cursor) {
        return Ok(Entry::Port(port(alloc, cursor, depth)?));
    }
    Ok(Entry::Name(name(alloc, cursor)?))
}

/// The names of a port list, and the items of the ports that it declares.
#[derive(Drop)]
pub struct Ports {
    pub names: Vec<Named>,
    pub items: Vec<Item>,
}

/// The ports of a list so far. Plain names may still follow after the last of them.
#[derive(Drop)]
pub(crate) struct OpenPorts {
    names: Vec<Named>,
    items: Vec<Item>,
    head: PortHead,
    others: Vec<Named>,
}

impl OpenPorts {
    /// The first port.
    fn first(alloc: Global, head: PortHead) -> Result<OpenPorts, NoMemory>
        ensures { IfOk result (λ p. (es : List AnyEntry) → with_entries p es ≡ declared_ports_of (head_view head, es)) }
    {
        let mut names = Vec::new(alloc);
        names.push(copied(alloc, &head.name)?)?;
        Ok(OpenPorts {
            names,
            items: Vec::new(alloc),
            head,
            others: Vec::new(alloc),
        })
    }

    /// Takes up the entry that follows.
    fn with(self, alloc: Global, entry: Entry) -> Result<OpenPorts, NoMemory>
        ensures { IfOk result (λ p. (es : List AnyEntry) → with_entries self (entry_view entry ∷ es) ≡ with_entries p es) }
    {
        let OpenPorts {
            mut names,
            mut items,
            head,
            mut others,
        } = self;
        match entry {
            Entry::Port(next) => {
                names.push(copied(alloc, &next.name)?)?;
                items.push(head.into_item(alloc, others)?)?;
                Ok(OpenPorts {
                    names,
                    items,
                    head: next,
                    others: Vec::new(alloc),
                })
            }
            Entry::Name(next) => {
                names.push(copied(alloc, &next)?)?;
                others.push(next)?;
                Ok(OpenPorts {
                    names,
                    items,
                    head,
                    others,
                })
            }
        }
    }

    /// The names and the items of all ports.
    fn close(self, alloc: Global) -> Result<Ports, NoMemory>
        ensures { IfOk result (λ p. with_entries self [] ≡ ports_view p) }
    {
        let OpenPorts {
            names,
            mut items,
            head,
            others,
        } = self;
        items.push(head.into_item(alloc, others)?)?;
        Ok(Ports { names, items })
    }
}

/// Ports, with plain names after them.
#[tactic(auto, unfolding(verilog_grammar::specs::Modules::entries_rule))]
fn declared_ports(
    alloc: Global,
    cursor: &mut Cursor<'_, '_>,
    depth: u32,
) -> Result<Ports, ReadFault>
    ensures { Gives ports_view (reads verilog grammar depth (made declared_ports_of entries_rule) cursor.old) result cursor.new }
{
    let head = port(alloc, cursor, depth)?;
    let mut ports = OpenPorts::first(alloc, head)?;
    'more: while cursor.sees(Kind::Comma) {
        cursor.take(Kind::Comma)?;
        let next = read_entry(alloc, cursor, depth)?;
        ports = ports.with(alloc, next)?;
    }
    Ok(ports.close(alloc)?)
}

/// What is between the parentheses of a port list.
#[tactic(auto, unfolding(verilog_grammar::specs::Modules::plist_rule, verilog_grammar::specs::Modules::entries_rule, verilog_grammar::specs::Modules::port_rule, verilog_grammar::specs::Modules::direction_rule))]
fn port_list(alloc: Global, cursor: &mut Cursor<'_, '_>, depth: u32) -> Result<Ports, ReadFault>
    ensures { Gives ports_view (reads verilog grammar depth (either plist_rule (made no_ports empty)) cursor.old) result cursor.new }
{
    if cursor.sees(Kind::Identifier) {
        return Ok(Ports {
            names: names(alloc, cursor)?,
            items: Vec::new(alloc),
        });
    }
    if begins_port(cursor) {
        return declared_ports(alloc, cursor, depth);
    }
    Ok(Ports {
        names: Vec::new(alloc),
        items: Vec::new(alloc),
    })
}

/// The port list of a header, which may be left out or empty.
#[tactic(auto, unfolding(verilog_grammar::specs::Modules::header_ports_rule))]
pub fn header_ports(
    alloc: Global,
    cursor: &mut Cursor<'_, '_>,
    depth: u32,
) -> Result<Ports, ReadFault>
    ensures { Gives ports_view (reads verilog grammar depth header_ports_rule cursor.old) result cursor.new }
{
    if !cursor.sees(Kind::OpenParen) {
        return Ok(Ports {
            names: Vec::new(alloc),
            items: Vec::new(alloc),
        });
    }
    cursor.take(Kind::OpenParen)?;
    let ports = port_list(alloc, cursor, depth)?;
    cursor.take(Kind::CloseParen)?;
    Ok(ports)
}
