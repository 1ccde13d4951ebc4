//! Names, ranges, nets and variables.

ghost use Rattle.std.specs.Prelude.{◌≡◌, IfOk};
ghost use Rattle.grammar_rules.specs.Rule.{many};
ghost use Rattle.grammar_rules.specs.Grammar.{reads};
ghost use Rattle.verilog_tree.specs.View.{range_view, range_option_view, expr_view, expr_option_view, declared_view, declareds_view};
ghost use Rattle.verilog_grammar.specs.declared.kind.Kind.TheVariants as k;
ghost use Rattle.verilog_grammar.specs.Language.{verilog};
ghost use Rattle.verilog_grammar.specs.Verilog.{grammar};
ghost use Rattle.verilog_grammar.specs.Parts.{name_rule, range_rule, an_expression, after, listed, optional, present as present_rule};
ghost use Rattle.verilog_grammar.specs.Modules.{shape_rule, net_rule, net_item_rule, variable_rule, variable_item_rule, integer_item_rule};
ghost use Rattle.verilog_expressions.specs.Gives.{Gives, same};
ghost use Rattle.verilog_expressions.specs.Views.{one_item_view};
ghost use Rattle.verilog_items.specs.Declarations.{shape_view};

use cov_host::{Name, NoMemory, Sequence};
use std::alloc::Global;
use verilog_expressions::{Cursor, ReadFault, expression};
use verilog_grammar::Kind;
use verilog_tree::{Declared, Expr, Item, ItemForm, Named, Range};

/// An identifier with its place.
pub fn name(alloc: Global, cursor: &mut Cursor<'_, '_>) -> Result<Named, ReadFault>
    ensures { Gives same (reads verilog grammar 0 name_rule cursor.old) result cursor.new }
{
    let token = cursor.take(Kind::Identifier)?;
    Ok(Named {
        name: Name::from_vec(Vec::from_slice(alloc, token.text)?),
        place: token.place,
    })
}

/// A copy of the name.
pub(crate) fn copied(alloc: Global, named: &Named) -> Result<Named, NoMemory>
    ensures { IfOk result (λ copy. copy ≡ named.now) }
{
    Ok(Named {
        name: Name::from_vec(Vec::from_slice(alloc, named.name.as_slice())?),
        place: named.place,
    })
}

/// Names with commas between.
pub(crate) fn names(alloc: Global, cursor: &mut Cursor<'_, '_>) -> Result<Vec<Named>, ReadFault>
    ensures { Gives (λ v. v.items) (reads verilog grammar 0 (listed name_rule) cursor.old) result cursor.new }
{
    let first = name(alloc, cursor)?;
    let mut all = Vec::new(alloc);
    all.push(first)?;
    'more: while cursor.sees(Kind::Comma) {
        cursor.take(Kind::Comma)?;
        let next = name(alloc, cursor)?;
        all.push(next)?;
    }
    Ok(all)
}

/// The names that follow after commas.
pub(crate) fn names_behind(
    alloc: Global,
    cursor: &mut Cursor<'_, '_>,
) -> Result<Vec<Named>, ReadFault>
    ensures { Gives (λ v. v.items) (reads verilog grammar 0 (many (after k.Comma name_rule)) cursor.old) result cursor.new }
{
    let mut all = Vec::new(alloc);
    'more: while cursor.sees(Kind::Comma) {
        cursor.take(Kind::Comma)?;
        let next = name(alloc, cursor)?;
        all.push(next)?;
    }
    Ok(all)
}

/// A word that may be next, and whether it is.
pub(crate) fn present(cursor: &mut Cursor<'_, '_>, kind: Kind) -> Result<bool, ReadFault>
    ensures { Gives same (reads verilog grammar 0 (present_rule kind) cursor.old) result cursor.new }
{
    if !cursor.sees(kind) {
        return Ok(false);
    }
    cursor.take(kind)?;
    Ok(true)
}

/// `[high:low]`.
#[tactic(auto, unfolding(verilog_grammar::specs::Parts::range_rule))]
pub(crate) fn range(
    alloc: Global,
    cursor: &mut Cursor<'_, '_>,
    depth: u32,
) -> Result<Range, ReadFault>
    ensures { Gives range_view (reads verilog grammar depth range_rule cursor.old) result cursor.new }
{
    let bracket = cursor.take(Kind::OpenBracket)?.place;
    let high = expression(alloc, cursor, depth)?.into_expr();
    cursor.take(Kind::Colon)?;
    let low = expression(alloc, cursor, depth)?.into_expr();
    cursor.take(Kind::CloseBracket)?;
    Ok(Range { high, low, bracket })
}

/// A range that may be left out.
#[tactic(auto, unfolding(verilog_grammar::specs::Parts::range_rule))]
pub(crate) fn optional_range(
    alloc: Global,
    cursor: &mut Cursor<'_, '_>,
    depth: u32,
) -> Result<Option<Range>, ReadFault>
    ensures { Gives range_option_view (reads verilog grammar depth (optional range_rule) cursor.old) result cursor.new }
{
    if !cursor.sees(Kind::OpenBracket) {
        return Ok(None);
    }
    Ok(Some(range(alloc, cursor, depth)?))
}

/// The value after an equals sign.
pub(crate) fn value(
    alloc: Global,
    cursor: &mut Cursor<'_, '_>,
    depth: u32,
) -> Result<Expr, ReadFault>
    ensures { Gives expr_view (reads verilog grammar depth (after k.Equals an_expression) cursor.old) result cursor.new }
{
    cursor.take(Kind::Equals)?;
    Ok(expression(alloc, cursor, depth)?.into_expr())
}

/// The value after an equals sign, which may be left out.
fn optional_value(
    alloc: Global,
    cursor: &mut Cursor<'_, '_>,
    depth: u32,
) -> Result<Option<Expr>, ReadFault>
    ensures { Gives expr_option_view (reads verilog grammar depth (optional (after k.Equals an_expression)) cursor.old) result cursor.new }
{
    if !cursor.sees(Kind::Equals) {
        return Ok(None);
    }
    Ok(Some(value(alloc, cursor, depth)?))
}

/// Whether `signed` is next, and the range.
#[derive(Drop)]
pub(crate) struct Shape {
    /// Whether `signed` is there.
    pub signed: bool,
    /// The range, if there is one.
    pub range: Option<Range>,
}

#[tactic(auto, unfolding(verilog_grammar::specs::Modules::shape_rule))]
pub(crate) fn read_shape(
    alloc: Global,
    cursor: &mut Cursor<'_, '_>,
    depth: u32,
) -> Result<Shape, ReadFault>
    ensures { Gives shape_view (reads verilog grammar depth shape_rule cursor.old) result cursor.new }
{
    let signed = present(cursor, Kind::Signed)?;
    let range = optional_range(alloc, cursor, depth)?;
    Ok(Shape { signed, range })
}

/// A net or an integer, with its value if it has one.
#[tactic(auto, unfolding(verilog_grammar::specs::Modules::net_rule))]
fn net(alloc: Global, cursor: &mut Cursor<'_, '_>, depth: u32) -> Result<Declared, ReadFault>
    ensures { Gives declared_view (reads verilog grammar depth net_rule cursor.old) result cursor.new }
{
    let name = name(alloc, cursor)?;
    let value = optional_value(alloc, cursor, depth)?;
    Ok(Declared {
        name,
        value,
        words: None,
    })
}

/// Nets or integers with commas between.
fn nets(alloc: Global, cursor: &mut Cursor<'_, '_>, depth: u32) -> Result<Vec<Declared>, ReadFault>
    ensures { Gives (λ v. declareds_view v.items) (reads verilog grammar depth (listed net_rule) cursor.old) result cursor.new }
{
    let first = net(alloc, cursor, depth)?;
    let mut all = Vec::new(alloc);
    all.push(first)?;
    'more: while cursor.sees(Kind::Comma) {
        cursor.take(Kind::Comma)?;
        let next = net(alloc, cursor, depth)?;
        all.push(next)?;
    }
    Ok(all)
}

#[tactic(auto, unfolding(verilog_grammar::specs::Modules::net_item_rule))]
pub fn net_item(alloc: Global, cursor: &mut Cursor<'_, '_>, depth: u32) -> Result<Item, ReadFault>
    ensures { Gives one_item_view (reads verilog grammar depth net_item_rule cursor.old) result cursor.new }
{
    let word = cursor.take(Kind::Wire)?;
    let Shape { signed, range } = read_shape(alloc, cursor, depth)?;
    let names = nets(alloc, cursor, depth)?;
    cursor.take(Kind::Semicolon)?;
    Ok(Item {
        place: word.place,
        form: ItemForm::Net {
            signed,
            range,
            names: Sequence::from_vec(names),
        },
    })
}

#[tactic(auto, unfolding(verilog_grammar::specs::Modules::integer_item_rule))]
pub fn integer_item(
    alloc: Global,
    cursor: &mut Cursor<'_, '_>,
    depth: u32,
) -> Result<Item, ReadFault>
    ensures { Gives one_item_view (reads verilog grammar depth integer_item_rule cursor.old) result cursor.new }
{
    let word = cursor.take(Kind::Integer)?;
    let names = nets(alloc, cursor, depth)?;
    cursor.take(Kind::Semicolon)?;
    Ok(Item {
        place: word.place,
        form: ItemForm::Integer(Sequence::from_vec(names)),
    })
}

/// A variable with its initial value, or a memory.
#[tactic(auto, unfolding(verilog_grammar::specs::Modules::variable_rule, verilog_grammar::specs::Parts::range_rule))]
fn variable(alloc: Global, cursor: &mut Cursor<'_, '_>, depth: u32) -> Result<Declared, ReadFault>
    ensures { Gives declared_view (reads verilog grammar depth variable_rule cursor.old) result cursor.new }
{
    let name = name(alloc, cursor)?;
    if cursor.sees(Kind::Equals) {
        let value = value(alloc, cursor, depth)?;
        return Ok(Declared {
            name,
            value: Some(value),
            words: None,
        });
    }
    let words = optional_range(alloc, cursor, depth)?;
    Ok(Declared {
        name,
        value: None,
        words,
    })
}

/// Variables with commas between.
fn variables(
    alloc: Global,
    cursor: &mut Cursor<'_, '_>,
    depth: u32,
) -> Result<Vec<Declared>, ReadFault>
    ensures { Gives (λ v. declareds_view v.items) (reads verilog grammar depth (listed variable_rule) cursor.old) result cursor.new }
{
    let first = variable(alloc, cursor, depth)?;
    let mut all = Vec::new(alloc);
    all.push(first)?;
    'more: while cursor.sees(Kind::Comma) {
        cursor.take(Kind::Comma)?;
        let next = variable(alloc, cursor, depth)?;
        all.push(next)?;
    }
    Ok(all)
}

#[tactic(auto, unfolding(verilog_grammar::specs::Modules::variable_item_rule))]
pub fn variable_item(
    alloc: Global,
    cursor: &mut Cursor<'_, '_>,
    depth: u32,
) -> Result<Item, ReadFault>
    ensures { Gives one_item_view (reads verilog grammar depth variable_item_rule cursor.old) result cursor.new }
{
    let word = cursor.take(Kind::Reg)?;
    let Shape { signed, range } = read_shape(alloc, cursor, depth)?;
    let names = variables(alloc, cursor, depth)?;
    cursor.take(Kind::Semicolon)?;
    Ok(Item {
        place: word.place,
        form: ItemForm::Var {
            signed,
            range,
            names: Sequence::from_vec(names),
        },
    })
}
