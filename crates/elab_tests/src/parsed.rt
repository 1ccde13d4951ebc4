//! Sources that are parsed, and what is in their one item.
use cov_host::{Bytes, NoMemory, Sequence};
use std::alloc::Global;
use verilog_lexer::{Defines, Sources, lex};
use verilog_parser::parse;
use verilog_tree::{Expr, For, Item, ItemForm, Module, Statement, StatementForm};

/// The text of a module with one item, of which this is a part.
fn source_of(alloc: Global, front: &str, text: &str) -> Result<Bytes, NoMemory> {
    let mut all = Vec::from_slice(alloc, front.as_bytes())?;
    all.extend_from_slice(text.as_bytes())?;
    all.extend_from_slice(b"; endmodule")?;
    Ok(Bytes::from_vec(all))
}

/// The modules of a source.
fn modules_of(alloc: Global, source: Bytes) -> Option<Sequence<Module>> {
    let mut sources = Sources::new(alloc);
    sources.add_root("m.v", source).ok()?;
    let defines = Defines::new(alloc);
    let tokens = lex(alloc, &sources, &defines).ok()?;
    parse(alloc, &tokens).ok()
}

/// What comes before an expression.
const ASSIGN: &str = "module m; assign y = ";

/// What comes before a statement.
const INITIAL: &str = "module m; initial ";

/// The column after what comes before an expression.
pub(crate) const EXPRESSION: u32 = 21;

/// The column of a statement.
pub(crate) const STATEMENT: u32 = 19;

/// The module that assigns an expression.
pub(crate) fn assigning(alloc: Global, expression: &str) -> Option<Sequence<Module>> {
    modules_of(alloc, source_of(alloc, ASSIGN, expression).ok()?)
}

/// The module that has a statement, which ends without a semicolon.
pub(crate) fn executing(alloc: Global, statement: &str) -> Option<Sequence<Module>> {
    modules_of(alloc, source_of(alloc, INITIAL, statement).ok()?)
}

/// The one item of one module.
fn item_of(modules: &Sequence<Module>) -> Option<&Item> {
    match modules.as_slice() {
        [module] => module.items.as_slice().first(),
        _ => None,
    }
}

/// The expression that the module assigns.
pub(crate) fn expression_of(modules: &Sequence<Module>) -> Option<&Expr> {
    match &item_of(modules)?.form {
        ItemForm::Assign { value, .. } => Some(value),
        _ => None,
    }
}

/// The statement that the module has.
pub(crate) fn statement_of(modules: &Sequence<Module>) -> Option<&Statement> {
    match &item_of(modules)?.form {
        ItemForm::Initial(body) => Some(body),
        _ => None,
    }
}

/// The loop of a statement.
fn header_of(form: &StatementForm) -> Option<&For> {
    match form {
        StatementForm::For(header) => Some(header),
        _ => None,
    }
}

/// The loop that the module has.
pub(crate) fn loop_of(modules: &Sequence<Module>) -> Option<&For> {
    header_of(&statement_of(modules)?.form)
}
