//! Parameters.

ghost use Rattle.std.specs.Prelude.{◌≡◌, List, [], ◌∷◌, map, IfOk};
ghost use Rattle.grammar_rules.specs.Rule.{made, take_one};
ghost use Rattle.verilog_lexer.specs.TokenView.{lexeme};
ghost use Rattle.verilog_grammar.specs.Kind.{kind_of};
ghost use Rattle.grammar_rules.specs.Grammar.{reads};
ghost use Rattle.verilog_tree.specs.View.{param_view, params_view, expr_view};
ghost use Rattle.verilog_grammar.specs.declared.kind.Kind.TheVariants as k;
ghost use Rattle.verilog_grammar.specs.Language.{verilog};
ghost use Rattle.verilog_grammar.specs.Verilog.{grammar};
ghost use Rattle.verilog_grammar.specs.Parts.{listed, optional, after};
ghost use Rattle.verilog_grammar.specs.Modules.{HeaderParam as AnyHeaderParam, is_local as is_local_word, type_rule, valued_rule, param_of, plain_type, header_param_rule, header_params as header_params_from, header_params_rule, parameter_item_rule};
ghost use Rattle.verilog_expressions.specs.Gives.{Gives, same};
ghost use Rattle.verilog_expressions.specs.Views.{one_item_view};
ghost use Rattle.verilog_items.specs.Declarations.{type_word_rule, parameter_words, type_view, type_option_view, valued_view, header_param_view, param_valueds, with_params};

use crate::declaration::{name, optional_range, value};
use cov_host::{NoMemory, Sequence};
use std::alloc::Global;
use verilog_expressions::{Cursor, ReadFault};
use verilog_grammar::Kind;
use verilog_lexer::Token;
use verilog_tree::{Expr, Item, ItemForm, Named, Param, Range};

/// Whether `signed` or `integer` is next, and the range.
#[derive(Drop)]
pub(crate) struct ParamType {
    signed: bool,
    integer: bool,
    range: Option<Range>,
}

impl ParamType {
    /// No word and no range.
    fn plain() -> ParamType
        ensures { type_view result ≡ plain_type }
    {
        ParamType {
            signed: false,
            integer: false,
            range: None,
        }
    }

    /// The parameter with this type.
    fn param(&self, alloc: Global, local: bool, name: Named, value: Expr) -> Result<Param, NoMemory>
        ensures { IfOk result (λ p. param_view p ≡ param_of local (type_view self.now) (name, expr_view value)) }
    {
        let range = match &self.range {
            None => None,
            Some(range) => Some(range.try_copy(alloc)?),
        };
        Ok(Param {
            name,
            local,
            signed: self.signed,
            integer: self.integer,
            range,
            value,
        })
    }
}

/// Whether `signed` or `integer` is next.
fn type_word(cursor: &mut Cursor<'_, '_>) -> Result<(bool, bool), ReadFault>
    ensures { Gives same (reads verilog grammar 0 type_word_rule cursor.old) result cursor.new }
{
    if cursor.sees(Kind::Signed) {
        cursor.take(Kind::Signed)?;
        return Ok((true, false));
    }
    if cursor.sees(Kind::Integer) {
        cursor.take(Kind::Integer)?;
        return Ok((false, true));
    }
    Ok((false, false))
}

#[tactic(auto, unfolding(verilog_grammar::specs::Modules::type_rule))]
fn param_type(
    alloc: Global,
    cursor: &mut Cursor<'_, '_>,
    depth: u32,
) -> Result<ParamType, ReadFault>
    ensures { Gives type_view (reads verilog grammar depth type_rule cursor.old) result cursor.new }
{
    let (signed, integer) = type_word(cursor)?;
    let range = optional_range(alloc, cursor, depth)?;
    Ok(ParamType {
        signed,
        integer,
        range,
    })
}

/// A name and its value.
#[tactic(auto, unfolding(verilog_grammar::specs::Modules::valued_rule))]
fn valued(
    alloc: Global,
    cursor: &mut Cursor<'_, '_>,
    depth: u32,
) -> Result<(Named, Expr), ReadFault>
    ensures { Gives valued_view (reads verilog grammar depth valued_rule cursor.old) result cursor.new }
{
    let name = name(alloc, cursor)?;
    let value = value(alloc, cursor, depth)?;
    Ok((name, value))
}

/// Parameters of one type with commas between.
fn params(
    alloc: Global,
    cursor: &mut Cursor<'_, '_>,
    depth: u32,
    local: bool,
    kind: &ParamType,
) -> Result<Vec<Param>, ReadFault>
    ensures read { Gives (λ v. param_valueds v.items) (reads verilog grammar depth (listed valued_rule) cursor.old) result cursor.new }
    ensures typed { IfOk result (λ v. params_view v.items ≡ map (param_of local (type_view kind.now)) (param_valueds v.items)) }
{
    let (first, its) = valued(alloc, cursor, depth)?;
    let mut all = Vec::new(alloc);
    all.push(kind.param(alloc, local, first, its)?)?;
    'more: while cursor.sees(Kind::Comma) {
        cursor.take(Kind::Comma)?;
        let (next, its) = valued(alloc, cursor, depth)?;
        all.push(kind.param(alloc, local, next, its)?)?;
    }
    Ok(all)
}

/// Whether the word of parameters says that they are local.
fn is_local(kind: Kind) -> bool
    ensures { result ≡ is_local_word kind }
{
    matches!(kind, Kind::Localparam)
}

/// The word of parameters, and whether it says that they are local.
#[tactic(auto, using(verilog_expressions::proofs::Taken::any_taken, verilog_expressions::proofs::Taken::any_refused))]
fn parameter_word<'a>(cursor: &mut Cursor<'_, 'a>) -> Result<(Token<'a>, bool), ReadFault>
    ensures reads { Gives (λ p. lexeme p.0) (take_one verilog parameter_words cursor.old) result cursor.new }
    ensures local { IfOk result (λ p. p.1 ≡ is_local_word (kind_of (lexeme p.0))) }
{
    if !cursor.sees(Kind::Parameter) && !cursor.sees(Kind::Localparam) {
        return Err(cursor.refuse());
    }
    let local = is_local(cursor.kind());
    let word = cursor.take_next()?;
    Ok((word, local))
}

#[tactic(auto, unfolding(verilog_grammar::specs::Modules::parameter_item_rule))]
pub fn parameter_item(
    alloc: Global,
    cursor: &mut Cursor<'_, '_>,
    depth: u32,
) -> Result<Item, ReadFault>
    ensures { Gives one_item_view (reads verilog grammar depth parameter_item_rule cursor.old) result cursor.new }
{
    let (word, local) = parameter_word(cursor)?;
    let kind = param_type(alloc, cursor, depth)?;
    let params = params(alloc, cursor, depth, local, &kind)?;
    cursor.take(Kind::Semicolon)?;
    Ok(Item {
        place: word.place,
        form: ItemForm::Params(Sequence::from_vec(params)),
    })
}

/// The type of a parameter of a header, which may be left out.
#[tactic(auto, unfolding(verilog_grammar::specs::Modules::type_rule))]
fn header_type(
    alloc: Global,
    cursor: &mut Cursor<'_, '_>,
    depth: u32,
) -> Result<Option<ParamType>, ReadFault>
    ensures { Gives type_option_view (reads verilog grammar depth (optional (after k.Parameter type_rule)) cursor.old) result cursor.new }
{
    if !cursor.sees(Kind::Parameter) {
        return Ok(None);
    }
    cursor.take(Kind::Parameter)?;
    Ok(Some(param_type(alloc, cursor, depth)?))
}

/// A parameter of a header, with its type if there is one.
#[derive(Drop)]
pub(crate) struct HeaderParam {
    kind: Option<ParamType>,
    name: Named,
    value: Expr,
}

#[tactic(auto, unfolding(verilog_grammar::specs::Modules::header_param_rule))]
fn header_param(
    alloc: Global,
    cursor: &mut Cursor<'_, '_>,
    depth: u32,
) -> Result<HeaderParam, ReadFault>
    ensures { Gives header_param_view (reads verilog grammar depth header_param_rule cursor.old) result cursor.new }
{
    let kind = header_type(alloc, cursor, depth)?;
    let (name, value) = valued(alloc, cursor, depth)?;
    Ok(HeaderParam { kind, name, value })
}

/// The parameters of a header so far, and the type of the last of them.
#[derive(Drop)]
pub(crate) struct TypedParams {
    all: Vec<Param>,
    kind: ParamType,
}

impl TypedParams {
    /// No parameters yet.
    fn new(alloc: Global) -> TypedParams
        ensures { (ps : List AnyHeaderParam) → with_params result ps ≡ header_params_from plain_type ps }
    {
        TypedParams {
            all: Vec::new(alloc),
            kind: ParamType::plain(),
        }
    }

    /// Takes up the parameter that follows. Without a type it has that of the one before it.
    fn with(self, alloc: Global, param: HeaderParam) -> Result<TypedParams, NoMemory>
        ensures { IfOk result (λ t. (ps : List AnyHeaderParam) → with_params self (header_param_view param ∷ ps) ≡ with_params t ps) }
    {
        let TypedParams {
            mut all,
            kind: before,
        } = self;
        let HeaderParam { kind, name, value } = param;
        let kind = kind.unwrap_or(before);
        all.push(kind.param(alloc, false, name, value)?)?;
        Ok(TypedParams { all, kind })
    }
}

/// Parameters of a header with commas between.
fn typed_params(
    alloc: Global,
    cursor: &mut Cursor<'_, '_>,
    depth: u32,
) -> Result<Vec<Param>, ReadFault>
    ensures { Gives (λ v. params_view v.items) (reads verilog grammar depth (made (header_params_from plain_type) (listed header_param_rule)) cursor.old) result cursor.new }
{
    let first = header_param(alloc, cursor, depth)?;
    let mut params = TypedParams::new(alloc).with(alloc, first)?;
    'more: while cursor.sees(Kind::Comma) {
        cursor.take(Kind::Comma)?;
        let next = header_param(alloc, cursor, depth)?;
        params = params.with(alloc, next)?;
    }
    Ok(params.all)
}

/// The parameters of a header, which may be left out.
#[tactic(auto, unfolding(verilog_grammar::specs::Modules::header_params_rule))]
pub fn header_params(
    alloc: Global,
    cursor: &mut Cursor<'_, '_>,
    depth: u32,
) -> Result<Vec<Param>, ReadFault>
    ensures { Gives (λ v. params_view v.items) (reads verilog grammar depth header_params_rule cursor.old) result cursor.new }
{
    if !cursor.sees(Kind::Hash) {
        return Ok(Vec::new(alloc));
    }
    cursor.take(Kind::Hash)?;
    cursor.take(Kind::OpenParen)?;
    let params = typed_params(alloc, cursor, depth)?;
    cursor.take(Kind::CloseParen)?;
    Ok(params)
}
