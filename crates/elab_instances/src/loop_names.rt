//! The variables of loops.

ghost use Rattle.std.specs.Prelude.{◌≡◌, OnOk};
ghost use Rattle.elab_instances.specs.Names.{with_names};
ghost use Rattle.elab_scope.specs.NameSet.{has};
ghost use Rattle.flat_design.specs.Identifiers as spec;
ghost use Rattle.verilog_tree.specs.Tree.{arms_of, statements_of};
ghost use Rattle.verilog_tree.specs.View.{arms_view, item_form_view, statement_view, statements_view};

use crate::identifiers::add_name;
use cov_host::NoMemory;
use elab_scope::{NameSet, base_name};
use verilog_tree::{Arm, ItemForm, Statement, StatementForm};

/// Adds the names over which a statement loops.
#[cycle(add_loops)]
fn add_loops<'a>(names: &mut NameSet<'a>, statement: &'a Statement) -> Result<(), NoMemory>
    ensures { OnOk result (has names.new ≡ with_names (spec.loop_names (statement_view statement.now)) (has names.old)) }
{
    match &*statement.form {
        StatementForm::Block(parts) => add_all_loops(names, parts),
        StatementForm::If { yes, no, .. } => {
            add_loops(names, yes)?;
            match no {
                Some(no) => add_loops(names, no),
                None => Ok(()),
            }
        }
        StatementForm::Case { arms, .. } => add_arm_loops(names, arms),
        StatementForm::For(header) => {
            add_name(names, base_name(&header.name))?;
            add_loops(names, &header.body)
        }
        StatementForm::Set { .. } | StatementForm::Task | StatementForm::Empty => Ok(()),
    }
}

/// Adds the names over which several statements loop.
#[cycle(add_loops)]
fn add_all_loops<'a>(names: &mut NameSet<'a>, statements: &'a [Statement]) -> Result<(), NoMemory>
    ensures { OnOk result (has names.new ≡ with_names (spec.loops_names (statements_of (statements_view statements.now))) (has names.old)) }
{
    for statement in statements {
        add_loops(names, statement)?;
    }
    Ok(())
}

/// Adds the names over which the arms of a case loop.
#[cycle(add_loops)]
fn add_arm_loops<'a>(names: &mut NameSet<'a>, arms: &'a [Arm]) -> Result<(), NoMemory>
    ensures { OnOk result (has names.new ≡ with_names (spec.items_loop_names (arms_of (arms_view arms.now))) (has names.old)) }
{
    for arm in arms {
        add_loops(names, &arm.body)?;
    }
    Ok(())
}

/// Adds the names over which an item loops.
pub(crate) fn add_item_loops<'a>(
    names: &mut NameSet<'a>,
    form: &'a ItemForm,
) -> Result<(), NoMemory>
    ensures { OnOk result (has names.new ≡ with_names (spec.item_loops (item_form_view form.now)) (has names.old)) }
{
    match form {
        ItemForm::Always { body, .. } => add_loops(names, body),
        _ => Ok(()),
    }
}
