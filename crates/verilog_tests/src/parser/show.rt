//! Trees as texts, for the tests.

use cov_host::Place;
use four_state::{Binary, Bit, CaseKind, Edge, Four, Unary};
use std::alloc::Global;
use verilog_tree::{
    Arm, Declared, Expr, ExprForm, For, Given, Item, ItemForm, Module, Named, One, Param, Range,
    Statement, StatementForm, When,
};

/// A text that grows.
#[derive(Drop)]
pub(crate) struct Shown {
    alloc: Global,
    bytes: Vec<u8>,
    is_whole: bool,
}

impl Shown {
    pub(crate) fn new(alloc: Global) -> Shown {
        Shown {
            alloc,
            bytes: Vec::new(alloc),
            is_whole: true,
        }
    }

    /// Whether it is this text.
    pub(crate) fn is(&self, text: &str) -> bool {
        self.is_whole && self.bytes.as_slice() == text.as_bytes()
    }

    /// Appends bytes. Where there is no memory for them they are missing, which a test finds.
    fn push(&mut self, bytes: &[u8]) {
        self.is_whole = self.is_whole && self.bytes.extend_from_slice(bytes).is_ok();
    }

    fn put(&mut self, text: &str) {
        self.push(text.as_bytes());
    }

    fn number(&mut self, value: u128) {
        match format!(in self.alloc; "{value}") {
            Ok(digits) => self.put(digits.as_str()),
            Err(_) => self.is_whole = false,
        }
    }

    fn named(&mut self, named: &Named) {
        self.push(named.name.as_slice());
    }

    fn flag(&mut self, there: bool, text: &str) {
        if there {
            self.put(text);
        }
    }

    /// The column of a place.
    fn place(&mut self, place: Place) {
        self.put("@");
        self.number(place.column as u128)
    }

    fn four(&mut self, value: &Four) {
        self.number(value.width() as u128);
        self.put(if value.is_signed() { "s" } else { "u" });
        if value.is_known() {
            self.number(value.ones());
            return;
        }
        let width = value.width();
        for above in 0..width {
            self.put(bit_text(value.bit(width - 1 - above)));
        }
    }

    /// Expressions, each after a space.
    #[cycle(expression_text)]
    fn list(&mut self, exprs: &[Expr]) {
        for expr in exprs {
            self.after(" ", expr);
        }
    }

    fn tagged(&mut self, tag: &str, exprs: &[&Expr]) {
        self.put("(");
        self.put(tag);
        for expr in exprs {
            self.after(" ", expr);
        }
        self.put(")")
    }

    pub(crate) fn expr(&mut self, expr: &Expr) {
        self.after("", expr)
    }

    /// An expression after a text.
    #[cycle(expression_text)]
    fn after(&mut self, front: &str, expr: &Expr) {
        self.put(front);
        self.put(opening(&expr.form));
        self.put(tag(&expr.form));
        self.parts(&expr.form);
        self.put(closing(&expr.form))
    }

    /// What is in an expression of this form.
    #[cycle(expression_text)]
    fn parts(&mut self, form: &ExprForm) {
        match form {
            ExprForm::Number(value) => self.four(value),
            ExprForm::Name(name) => self.push(name.as_slice()),
            ExprForm::Unary(_, a) | ExprForm::Sign(_, a) | ExprForm::Paren(a) => {
                self.after(" ", a)
            }
            ExprForm::Bit { of: a, index: b } | ExprForm::Binary(_, a, b) => {
                self.after(" ", a);
                self.after(" ", b);
            }
            ExprForm::Part { of, high, low, .. } => {
                self.after(" ", of);
                self.after(" ", high);
                self.after(" ", low);
            }
            ExprForm::Slide {
                of,
                base,
                width,
                ..
            } => {
                self.after(" ", of);
                self.after(" ", base);
                self.after(" ", width);
            }
            ExprForm::Choice { test, yes, no } => {
                self.after(" ", test);
                self.after(" ", yes);
                self.after(" ", no);
            }
            ExprForm::Concat(parts) => self.list(parts.as_slice()),
            ExprForm::Repeat(count, parts) => {
                self.after("", count);
                self.list(parts.as_slice());
            }
        }
    }

    #[cycle(statement_text)]
    fn arm(&mut self, arm: &Arm) {
        self.put(" [");
        self.list(arm.labels.as_slice());
        self.put(" : ");
        self.statement(&arm.body);
        self.put("]")
    }

    #[cycle(statement_text)]
    pub(crate) fn statement(&mut self, statement: &Statement) {
        match &*statement.form {
            StatementForm::Block(parts) => {
                self.put("begin");
                for part in parts {
                    self.put(" ");
                    self.statement(part);
                }
                self.put(" end")
            }
            StatementForm::If { test, yes, no } => {
                self.tagged("if", &[test]);
                self.put(" ");
                self.statement(yes);
                if let Some(no) = no {
                    self.put(" else ");
                    self.statement(no);
                }
            }
            StatementForm::Case { kind, on, arms } => {
                self.tagged(case_text(*kind), &[on]);
                for arm in arms {
                    self.arm(arm);
                }
            }
            StatementForm::For(turns) => {
                self.header(turns);
                self.put(" ");
                self.statement(&turns.body)
            }
            StatementForm::Set {
                target,
                blocking,
                value,
            } => {
                self.tagged(if *blocking { "=" } else { "<=" }, &[target, value]);
                self.place(statement.place)
            }
            StatementForm::Task => self.put("task"),
            StatementForm::Empty => self.put(";"),
        }
    }

    /// The header of a loop.
    fn header(&mut self, turns: &For) {
        let header = [
            &turns.name,
            &turns.first,
            &turns.test,
            &turns.target,
            &turns.step,
        ];
        self.tagged("for", &header)
    }

    fn range(&mut self, range: &Option<Range>) {
        match range {
            None => {}
            Some(range) => {
                self.put(" ");
                self.tagged("range", &[&range.high, &range.low])
            }
        }
    }

    fn names(&mut self, names: &[Named]) {
        for name in names {
            self.put(" ");
            self.named(name);
        }
    }

    fn value(&mut self, value: &Option<Expr>) {
        match value {
            None => {}
            Some(value) => {
                self.put("=");
                self.expr(value)
            }
        }
    }

    fn declared(&mut self, all: &[Declared]) {
        for each in all {
            self.put(" ");
            self.named(&each.name);
            self.value(&each.value);
            self.range(&each.words);
        }
    }

    fn params(&mut self, params: &[Param]) {
        for param in params {
            self.flag(param.local, " local");
            self.flag(param.signed, " signed");
            self.flag(param.integer, " integer");
            self.range(&param.range);
            self.put(" ");
            self.named(&param.name);
            self.put("=");
            self.expr(&param.value);
        }
    }

    fn given(&mut self, all: &[Given]) {
        for each in all {
            self.put(" ");
            if let Some(name) = &each.name {
                self.put(".");
                self.named(name);
            }
            self.value(&each.value);
            self.flag(each.name.is_none() && each.value.is_none(), "-");
        }
    }

    fn when(&mut self, when: &When) {
        match when {
            When::Star => self.put("*"),
            When::Names(names) => self.names(names.as_slice()),
            When::Edges(edges) => {
                for (edge, name) in edges.as_slice() {
                    self.put(match edge {
                        Edge::Pos => " pos ",
                        Edge::Neg => " neg ",
                    });
                    self.named(name);
                }
            }
        }
    }

    fn item(&mut self, item: &Item) {
        self.put("\n");
        self.place(item.place);
        self.put(" ");
        match &item.form {
            ItemForm::Port {
                input,
                reg,
                signed,
                range,
                names,
            } => {
                self.put(if *input { "input" } else { "output" });
                self.flag(*reg, " reg");
                self.vector(*signed, range);
                self.names(names.as_slice())
            }
            ItemForm::Net {
                signed,
                range,
                names,
            } => {
                self.put("net");
                self.vector(*signed, range);
                self.declared(names.as_slice())
            }
            ItemForm::Var {
                signed,
                range,
                names,
            } => {
                self.put("var");
                self.vector(*signed, range);
                self.declared(names.as_slice())
            }
            _ => self.other_item(&item.form),
        }
    }

    /// The sign and the range of what is declared.
    fn vector(&mut self, signed: bool, range: &Option<Range>) {
        self.flag(signed, " signed");
        self.range(range)
    }

    /// An item that declares no port, net or variable with a range.
    fn other_item(&mut self, form: &ItemForm) {
        match form {
            ItemForm::Port { .. } | ItemForm::Net { .. } | ItemForm::Var { .. } => {}
            ItemForm::Integer(names) => {
                self.put("integer");
                self.declared(names.as_slice())
            }
            ItemForm::Params(params) => {
                self.put("params");
                self.params(params.as_slice())
            }
            ItemForm::Assign { target, value } => self.tagged("assign", &[target, value]),
            ItemForm::Always { when, body } => {
                self.put("always ");
                self.when(when);
                self.put(" : ");
                self.statement(body)
            }
            ItemForm::Initial(body) => {
                self.put("initial ");
                self.statement(body)
            }
            ItemForm::Instance {
                module,
                overrides,
                ones,
            } => {
                self.put("instance ");
                self.named(module);
                self.put(" #");
                self.given(overrides.as_slice());
                self.ones(ones.as_slice())
            }
        }
    }

    fn ones(&mut self, ones: &[One]) {
        for one in ones {
            self.put(" ; ");
            self.named(&one.name);
            self.given(one.given.as_slice());
        }
    }

    pub(crate) fn module(&mut self, module: &Module) {
        self.named(&module.name);
        self.params(module.params.as_slice());
        self.put(" (");
        self.names(module.ports.as_slice());
        self.put(" )");
        for item in module.items.as_slice() {
            self.item(item);
        }
        self.put("\n")
    }
}

fn bit_text(bit: Bit) -> &'static str {
    match bit {
        Bit::Zero => "0",
        Bit::One => "1",
        Bit::X => "x",
        Bit::Z => "z",
    }
}

fn unary_text(op: Unary) -> &'static str {
    match op {
        Unary::Positive => "+",
        Unary::Negative => "-",
        Unary::LogicalNot => "!",
        Unary::BitwiseNot => "~",
        Unary::ReduceAnd => "&",
        Unary::ReduceNand => "~&",
        Unary::ReduceOr => "|",
        Unary::ReduceNor => "~|",
        Unary::ReduceXor => "^",
        Unary::ReduceXnor => "~^",
        Unary::ReduceNxor => "^~",
    }
}

fn binary_text(op: Binary) -> &'static str {
    match op {
        Binary::Multiply => "*",
        Binary::Divide => "/",
        Binary::Modulus => "%",
        Binary::Add => "+",
        Binary::Subtract => "-",
        Binary::ShiftLeft => "<<",
        Binary::ShiftRight => ">>",
        Binary::ArithmeticShiftLeft => "<<<",
        Binary::ArithmeticShiftRight => ">>>",
        Binary::LessThan => "<",
        Binary::LessOrEqual => "<=",
        Binary::GreaterThan => ">",
        Binary::GreaterOrEqual => ">=",
        Binary::Equal => "==",
        Binary::NotEqual => "!=",
        Binary::CaseEqual => "===",
        Binary::CaseNotEqual => "!==",
        Binary::BitwiseAnd => "&",
        Binary::BitwiseXor => "^",
        Binary::BitwiseXnor => "~^",
        Binary::BitwiseNxor => "^~",
        Binary::BitwiseOr => "|",
        Binary::LogicalAnd => "&&",
        Binary::LogicalOr => "||",
    }
}

fn case_text(kind: CaseKind) -> &'static str {
    match kind {
        CaseKind::Exact => "case",
        CaseKind::AnyZ => "casez",
        CaseKind::AnyXZ => "casex",
    }
}

fn opening(form: &ExprForm) -> &'static str {
    match form {
        ExprForm::Number(_) | ExprForm::Name(_) => "",
        ExprForm::Concat(_) => "{",
        ExprForm::Repeat(..) => "{*",
        _ => "(",
    }
}

fn closing(form: &ExprForm) -> &'static str {
    match form {
        ExprForm::Number(_) | ExprForm::Name(_) => "",
        ExprForm::Concat(_) | ExprForm::Repeat(..) => "}",
        _ => ")",
    }
}

fn tag(form: &ExprForm) -> &'static str {
    match form {
        ExprForm::Bit { .. } => "bit",
        ExprForm::Part { .. } => "part",
        ExprForm::Slide { up, .. } => if *up { "up" } else { "down" },
        ExprForm::Unary(op, _) => unary_text(*op),
        ExprForm::Binary(op, _, _) => binary_text(*op),
        ExprForm::Choice { .. } => "?",
        ExprForm::Sign(signed, _) => if *signed { "signed" } else { "unsigned" },
        _ => "",
    }
}
