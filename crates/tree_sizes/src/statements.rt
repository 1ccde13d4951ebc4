ghost use Rattle.std.specs.Prelude.{◌≡◌, ◌-◌, ◌*◌, ◌≤◌};
ghost use Rattle.tree_sizes.specs.Sizes.{header_size, items_size, labels_size, statement_size, statements_size};
ghost use Rattle.verilog_tree.specs.Tree.{arms_of, statements_of};
ghost use Rattle.verilog_tree.specs.View.{arms_view, loop_view, statement_view, statements_view};

use crate::room::Room;
use verilog_tree::{Arm, For, Statement, StatementForm};

impl Room {
    /// Takes a statement with all statements in it (IEEE 1364-2001 clause 9).
    #[cycle(statement)]
    pub fn statement(&mut self, statement: &Statement)
        ensures { self.new.left ≡ self.old.left - statement_size (statement_view statement.now) }
    {
        self.take(1);
        match &*statement.form {
            StatementForm::Block(parts) => self.statements(parts),
            StatementForm::If { test, yes, no } => {
                self.expression(test);
                self.statement(yes);
                if let Some(no) = no {
                    self.statement(no);
                }
            }
            StatementForm::Case { on, arms, .. } => {
                self.expression(on);
                self.arms(arms);
            }
            StatementForm::For(header) => {
                self.header(header);
                self.statement(&header.body);
            }
            StatementForm::Set { target, value, .. } => {
                self.expression(target);
                self.expression(value);
            }
            StatementForm::Task | StatementForm::Empty => {}
        }
    }

    /// Takes statements.
    #[cycle(statement)]
    fn statements(&mut self, statements: &[Statement])
        ensures { self.new.left ≡ self.old.left - statements_size (statements_of (statements_view statements.now)) }
    {
        for statement in statements {
            self.statement(statement);
        }
    }

    /// Takes the arms of a case with their labels.
    #[cycle(statement)]
    fn arms(&mut self, arms: &[Arm])
        ensures { self.new.left ≡ self.old.left - items_size (arms_of (arms_view arms.now)) }
    {
        for arm in arms {
            self.expressions(&arm.labels);
            self.statement(&arm.body);
        }
    }

    /// Takes the labels of a case alone.
    pub fn labels(&mut self, arms: &[Arm])
        ensures { self.new.left ≡ self.old.left - labels_size (arms_of (arms_view arms.now)) }
    {
        for arm in arms {
            self.expressions(&arm.labels);
        }
    }

    /// Takes the header of a loop.
    pub fn header(&mut self, header: &For)
        ensures { self.new.left ≡ self.old.left - header_size (loop_view header.now).0 }
    {
        self.expression(&header.name);
        self.expression(&header.first);
        self.expression(&header.test);
        self.expression(&header.target);
        self.expression(&header.step);
    }

    /// Takes the header of a loop so many times.
    pub fn turns(&mut self, header: &For, count: usize)
        requires { 1 ≤ count }
        ensures { self.new.left ≡ self.old.left - header_size (loop_view header.now).0 * count }
    {
        let before = self.left;
        self.header(header);
        let once = before - self.left;
        self.left = before.saturating_sub(once.saturating_mul(count));
    }
}
