ghost use Rattle.std.specs.Prelude.{◌≡◌, ◌-◌};
ghost use Rattle.tree_sizes.specs.Sizes.{declared_size, form_size, given_size, item_size, module_size, name_option_size, named_size, one_size, option_size, param_size, range_size, total, when_size};
ghost use Rattle.verilog_tree.specs.View.{declareds_view, expr_option_view, givens_view, item_form_view, items_view, module_view, ones_view, params_view, range_option_view};

use crate::room::Room;
use four_state::Edge;
use verilog_tree::{Declared, Expr, Given, Item, ItemForm, Module, Named, One, Param, Range, When};

impl Room {
    /// Takes a module (IEEE 1364-2001 clause 12.1).
    pub fn module(&mut self, module: &Module)
        ensures { self.new.left ≡ self.old.left - module_size (module_view «module».now) }
    {
        self.name(module.name.name.as_slice());
        self.params(module.params.as_slice());
        self.names(module.ports.as_slice());
        self.items(module.items.as_slice());
    }

    fn items(&mut self, items: &[Item])
        ensures { self.new.left ≡ self.old.left - total item_size (items_view items.now) }
    {
        for item in items {
            self.take(1);
            self.form(&item.form);
        }
    }

    fn form(&mut self, form: &ItemForm)
        ensures { self.new.left ≡ self.old.left - form_size (item_form_view form.now) }
    {
        match form {
            ItemForm::Port { range, names, .. } => {
                self.range(range);
                self.names(names.as_slice());
            }
            ItemForm::Net { range, names, .. } | ItemForm::Var { range, names, .. } => {
                self.range(range);
                self.declared(names.as_slice());
            }
            ItemForm::Integer(names) => self.declared(names.as_slice()),
            ItemForm::Params(params) => self.params(params.as_slice()),
            ItemForm::Assign { target, value } => {
                self.expression(target);
                self.expression(value);
            }
            ItemForm::Always { when, body } => {
                self.when(when);
                self.statement(body);
            }
            ItemForm::Initial(body) => self.statement(body),
            ItemForm::Instance {
                module,
                overrides,
                ones,
            } => {
                self.name(module.name.as_slice());
                self.given(overrides.as_slice());
                self.ones(ones.as_slice());
            }
        }
    }

    fn when(&mut self, when: &When)
        ensures { self.new.left ≡ self.old.left - when_size when.now }
    {
        match when {
            When::Star => self.take(1),
            When::Names(names) => self.names(names.as_slice()),
            When::Edges(edges) => self.edges(edges.as_slice()),
        }
    }

    fn edges(&mut self, edges: &[(Edge, Named)])
        ensures { self.new.left ≡ self.old.left - total (λ e. named_size e.1) edges.now }
    {
        for edge in edges {
            self.name(edge.1.name.as_slice());
        }
    }

    fn names(&mut self, names: &[Named])
        ensures { self.new.left ≡ self.old.left - total named_size names.now }
    {
        for name in names {
            self.name(name.name.as_slice());
        }
    }

    fn params(&mut self, params: &[Param])
        ensures { self.new.left ≡ self.old.left - total param_size (params_view params.now) }
    {
        for param in params {
            self.name(param.name.name.as_slice());
            self.range(&param.range);
            self.expression(&param.value);
        }
    }

    fn declared(&mut self, names: &[Declared])
        ensures { self.new.left ≡ self.old.left - total declared_size (declareds_view names.now) }
    {
        for one in names {
            self.name(one.name.name.as_slice());
            self.option(&one.value);
            self.range(&one.words);
        }
    }

    fn ones(&mut self, ones: &[One])
        ensures { self.new.left ≡ self.old.left - total one_size (ones_view ones.now) }
    {
        for one in ones {
            self.name(one.name.name.as_slice());
            self.given(one.given.as_slice());
        }
    }

    fn given(&mut self, given: &[Given])
        ensures { self.new.left ≡ self.old.left - total given_size (givens_view given.now) }
    {
        for one in given {
            self.take(1);
            self.name_option(&one.name);
            self.option(&one.value);
        }
    }

    fn name_option(&mut self, name: &Option<Named>)
        ensures { self.new.left ≡ self.old.left - name_option_size name.now }
    {
        if let Some(name) = name {
            self.name(name.name.as_slice());
        }
    }

    fn option(&mut self, expr: &Option<Expr>)
        ensures { self.new.left ≡ self.old.left - option_size (expr_option_view expr.now) }
    {
        if let Some(expr) = expr {
            self.expression(expr);
        }
    }

    fn range(&mut self, range: &Option<Range>)
        ensures { self.new.left ≡ self.old.left - range_size (range_option_view range.now) }
    {
        if let Some(range) = range {
            self.expression(&range.high);
            self.expression(&range.low);
        }
    }
}
