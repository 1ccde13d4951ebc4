#![tactic(auto, using(crate::proofs::Taking::names_then, crate::proofs::Taking::names_none))]
//! What the indexes in targets mention.

ghost use Rattle.std.specs.Prelude.{map};
ghost use Rattle.design_model.specs.View.{target_view, targets_of};
ghost use Rattle.process_names.specs.Names.{all_index_names, index_names};
ghost use Rattle.body_names.specs.Taken.{TakesNames};

use crate::Names;
use crate::terms::name_term;
use design_model::Target;

/// Names what the indexes in a target mention.
#[cycle(targets)]
pub(crate) fn name_target<N: Names>(target: &Target, names: &mut N)
    requires { N.ready names.old }
    ensures ready { N.ready names.new }
    ensures named { TakesNames N.named names.old (index_names (target_view target.now)) names.new }
{
    match target {
        Target::Whole(_) => {}
        Target::Part { low, .. } => name_term(low, names),
        Target::Word { index, .. } => name_term(index, names),
        Target::Several(parts) => name_targets(parts, names),
    }
}

/// Names what the indexes in targets mention.
#[cycle(targets)]
fn name_targets<N: Names>(targets: &[Target], names: &mut N)
    requires { N.ready names.old }
    ensures ready { N.ready names.new }
    ensures named { TakesNames N.named names.old (all_index_names (targets_of (map target_view targets.now))) names.new }
{
    for target in targets {
        name_target(target, names);
    }
}
