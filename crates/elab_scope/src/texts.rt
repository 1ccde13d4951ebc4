//! The text that is gone through: of modules once for each instance, and of statements once for each turn of a loop.

ghost use Rattle.std.specs.Prelude.{◌≡◌, ◌+◌, ◌*◌, ◌≤◌};
ghost use Rattle.elab_scope.specs.Tally as spec;
ghost use Rattle.flat_design.specs.Bodies.{met_text};
ghost use Rattle.tree_sizes.specs.Sizes.{header_size, labels_size, module_size, size};
ghost use Rattle.verilog_tree.specs.Tree.{arms_of};
ghost use Rattle.verilog_tree.specs.View.{arms_view, expr_view, loop_view, module_view};

use crate::tally::Tally;
use cov_host::Place;
use verilog_tree::{Arm, Expr, For, Module};

impl<'a> Tally<'a> {
    /// Counts the text of an expression, in a statement at this place.
    pub fn expression(&mut self, place: Place, expr: &Expr)
        ensures { self.new ≡ spec.after self.old (met_text place (size (expr_view expr.now))) }
    {
        let mut room = self.room();
        room.expression(expr);
        self.text(place, room);
    }

    /// Counts the text of the selector and the labels of a case at this place.
    pub fn case(&mut self, place: Place, on: &Expr, arms: &[Arm])
        ensures { self.new ≡ spec.after self.old (met_text place (size (expr_view on.now) + labels_size (arms_of (arms_view arms.now)))) }
    {
        let mut room = self.room();
        room.expression(on);
        room.labels(arms);
        self.text(place, room);
    }

    /// Counts the text of an assignment at this place.
    pub fn assignment(&mut self, place: Place, target: &Expr, value: &Expr)
        ensures { self.new ≡ spec.after self.old (met_text place (size (expr_view target.now) + size (expr_view value.now))) }
    {
        let mut room = self.room();
        room.expression(target);
        room.expression(value);
        self.text(place, room);
    }

    /// Counts the text of the header of a loop, which is gone through so many times.
    pub fn turns(&mut self, header: &For, count: usize)
        requires { 1 ≤ count }
        ensures { self.new ≡ spec.after self.old (met_text (loop_view header.now).0.place (header_size (loop_view header.now).0 * count)) }
    {
        let mut room = self.room();
        room.turns(header, count);
        self.text(header.place, room);
    }

    /// Counts the text of a module, of which an item at this place is an instance.
    pub fn module(&mut self, place: Place, module: &Module)
        ensures { self.new ≡ spec.after self.old (met_text place (module_size (module_view «module».now))) }
    {
        let mut room = self.room();
        room.module(module);
        self.text(place, room);
    }
}
