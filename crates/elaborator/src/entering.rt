//! An instance is entered: what is found in its declarations, its own parts in the design, and what its names mean.

ghost use Rattle.std.specs.Prelude.{◌≡◌, ◌≤◌, MatchOption, Some, false, true, is_some, length, IfOk, OnOk};
ghost use Rattle.design_model.specs.View.{design_view};
ghost use Rattle.design_model.specs.declared.design.Design as the;
ghost use Rattle.elab_instances.specs.Entering.{AreFew, IsInside, numbers_after};
ghost use Rattle.elab_instances.specs.InstanceView.{instantiation_view};
ghost use Rattle.elab_instances.specs.Opening.{AreCounted};
ghost use Rattle.elab_instances.specs.declared.instantiation.Numbers.{Numbers as FirstNumbers};
ghost use Rattle.elab_scope.specs.Tally.{after_all};
ghost use Rattle.elaborator.specs.Entered.{IsEntered, IsPassed};
ghost use Rattle.elaborator.specs.Walk.{IsClean, opened_design};
ghost use Rattle.flat_design.specs.Instances.{opening_met};

use crate::opening::add_instance;
use crate::walk::{Numbers, Walk};
use cov_host::NoMemory;
use elab_declarations::Declarations;
use elab_instances::{Inside, Instantiation, Opened, open_instance};
use elab_scope::{Scope, Tally};
use std::alloc::Global;

/// The declared names of an instance, what they mean, and the first numbers of its items.
#[derive(Drop)]
pub(crate) struct Entered<'a> {
    pub(crate) declared: Declarations<'a>,
    pub(crate) scope: Scope,
    pub(crate) numbers: Numbers,
}

/// Adds an opened instance to the design, if one is built, in which this number is the next of an instance.
fn add_opened(alloc: Global, opened: &Opened, number: u32, walk: &mut Walk) -> Result<(), NoMemory>
    ensures tally { OnOk result (walk.new.tally ≡ walk.old.tally) }
    ensures memories { OnOk result (walk.new.memories ≡ walk.old.memories) }
    ensures drafted { OnOk result (is_some walk.new.draft ≡ is_some walk.old.draft) }
    ensures draft { OnOk result ((d : the.Design) → walk.new.draft ≡ Some d → IsClean walk.old.tally → (o : the.Design) × (walk.old.draft ≡ Some o) × (number ≡ length (design_view o).instances → design_view d ≡ opened_design (instantiation_view opened.now.given.now) (design_view o))) }
{
    if !walk.builds() {
        return Ok(());
    }
    match &mut walk.draft {
        Some(draft) => add_instance(alloc, opened, number, draft),
        None => unreachable!(),
    }
}

/// An instance that is opened, in a box.
fn boxed_opened<'b, 'a>(
    alloc: Global,
    given: &'b Instantiation<'a>,
    tally: &mut Tally<'a>,
) -> Result<Box<Opened<'b, 'a>>, NoMemory>
    ensures given { IfOk result (λ opened. opened.value.given.now ≡ given.now) }
    ensures met { OnOk result (tally.new ≡ after_all tally.old (opening_met (instantiation_view given.now))) }
    ensures counted { OnOk result ((first : FirstNumbers) → AreCounted tally.old first → AreCounted tally.new (numbers_after (instantiation_view given.now) first)) }
{
    let opened = open_instance(alloc, given, tally)?;
    Ok(Box::new(alloc, opened)?)
}

/// What the names of an opened instance mean, in a box.
fn boxed_inside(
    alloc: Global,
    opened: &Opened,
    first: elab_instances::Numbers,
) -> Result<Box<Inside>, NoMemory>
    requires { AreFew (numbers_after (instantiation_view opened.now.given.now) first) }
    ensures { IfOk result (λ inside. IsInside (instantiation_view opened.now.given.now) first inside.value) }
{
    let inside = opened.enter(alloc, first)?;
    Ok(Box::new(alloc, inside)?)
}

/// Enters an instance. None where a limit is passed with it.
pub(crate) fn enter<'a>(
    alloc: Global,
    given: &Instantiation<'a>,
    walk: &mut Walk<'a>,
) -> Result<Option<Entered<'a>>, NoMemory>
    requires few { walk.old.tally.ended ≡ false → walk.old.memories ≤ walk.old.tally.counts.words }
    ensures { IfOk result (λ found. MatchOption found (IsPassed walk.old walk.new (instantiation_view given.now)) (λ entered. IsEntered walk.old walk.new (instantiation_view given.now) entered)) }
{
    let counts = walk.tally.counts();
    let first = elab_instances::Numbers {
        signal: counts.signals,
        memory: walk.memories,
    };
    let opened = boxed_opened(alloc, given, &mut walk.tally)?;
    if walk.tally.is_ended() {
        return Ok(None);
    }
    let inside = boxed_inside(alloc, &opened, first)?;
    add_opened(alloc, &opened, counts.instances, walk)?;
    walk.memories = inside.next.memory;
    Ok(Some(Entered {
        declared: Box::into_inner(opened).into_declared(),
        scope: Box::into_inner(inside).into_scope(),
        numbers: Numbers {
            instance: counts.instances,
            line: 1,
            node: 1,
        },
    }))
}
