//! The names that items declare, with the faults of their ranges.

ghost use Rattle.std.specs.Prelude.{◌≡◌, ◌++◌, None, Some, true, false, map, flat_map, IfOk, OnOk};
ghost use Rattle.elab_declarations.specs.DeclarationView.{declaration_view, declarations_view, sort_view};
ghost use Rattle.elab_declarations.specs.declared.declaration.Sort.TheVariants.{Integer};
ghost use Rattle.elab_declarations.specs.ItemKind.{kind_sort, memory_of, of_kind};
ghost use Rattle.elab_scope.specs.Tally.{after_faults};
ghost use Rattle.flat_design.specs.Declarations as spec;
ghost use Rattle.flat_design.specs.Instances.{range_faults};
ghost use Rattle.flat_design.specs.Scope.{binding_of};
ghost use Rattle.verilog_tree.specs.View.{declared_view, declareds_view, item_form_view, items_view, module_view, ones_view, params_view, range_option_view};

use crate::declaration::{Declaration, Sort};
use crate::range::{VectorRange, vector_range, words_range};
use cov_host::{NoMemory, Place};
use design_model::Range;
use elab_scope::{Scope, Tally};
use std::alloc::Global;
use verilog_tree::{Declared, Item, ItemForm, Module, Named, One, Param, Range as RangeExpr};

/// What the names of one item have in common.
#[derive(Clone, Copy, Drop)]
struct Kind {
    item: Place,
    sort: Sort,
    range: Option<Range>,
    signed: bool,
    direction: Option<bool>,
}

impl Kind {
    /// Of names that are neither ports, nets nor variables.
    fn plain(item: Place, sort: Sort) -> Kind
        ensures { result ≡ record { item = item; sort = sort; range = None; signed = false; direction = None } }
    {
        Kind {
            item,
            sort,
            range: None,
            signed: false,
            direction: None,
        }
    }

    /// Of integers: 32 bits with a sign (IEEE 1364-2001 clause 3.9).
    fn integer(item: Place) -> Kind
        ensures { result ≡ record { item = item; sort = Integer; range = Some (record { high = 31; low = 0 }); signed = true; direction = None } }
    {
        Kind {
            item,
            sort: Sort::Integer,
            range: Some(Range { high: 31, low: 0 }),
            signed: true,
            direction: None,
        }
    }

    /// Of ports, nets or variables.
    fn of_vector(
        item: Place,
        sort: Sort,
        vector: VectorRange,
        signed: bool,
        direction: Option<bool>,
    ) -> Kind
        ensures { result ≡ record { item = item; sort = kind_sort vector.sound sort; range = vector.range; signed = signed; direction = direction } }
    {
        Kind {
            item,
            sort: sort_if(vector.sound, sort),
            range: vector.range,
            signed,
            direction,
        }
    }

    /// With another sort, which is that without a fault of the range.
    fn with_sort(&self, sound: bool, sort: Sort) -> Kind
        ensures { result ≡ record (self.now) { sort = kind_sort sound sort } }
    {
        Kind {
            sort: sort_if(sound, sort),
            ..*self
        }
    }

    /// A name of this kind.
    fn named<'a>(&self, name: &'a Named) -> Declaration<'a>
        ensures { declaration_view result ≡ of_kind self.now name.now }
    {
        Declaration {
            name,
            item: self.item,
            sort: self.sort,
            range: self.range,
            signed: self.signed,
            direction: self.direction,
            twice: false,
        }
    }
}

/// The sort, if the range has no fault.
fn sort_if(sound: bool, sort: Sort) -> Sort
    ensures { result ≡ kind_sort sound sort }
{
    if sound { sort } else { sort.with_fault() }
}

/// Adds names of one kind.
fn push_named<'a>(
    list: &mut Vec<Declaration<'a>>,
    kind: &Kind,
    names: &'a [Named],
) -> Result<(), NoMemory>
    ensures { OnOk result (declarations_view list.new.items ≡ declarations_view list.old.items ++ map (of_kind kind.now) names.now) }
{
    for name in names {
        list.push(kind.named(name))?;
    }
    Ok(())
}

/// Adds declared names of one kind.
fn push_declared<'a>(
    list: &mut Vec<Declaration<'a>>,
    kind: &Kind,
    names: &'a [Declared],
) -> Result<(), NoMemory>
    ensures { OnOk result (declarations_view list.new.items ≡ declarations_view list.old.items ++ map (λ d. of_kind kind.now d.name) (declareds_view names.now)) }
{
    for declared in names {
        list.push(kind.named(&declared.name))?;
    }
    Ok(())
}

/// Adds the names of parameters.
fn push_params<'a>(
    list: &mut Vec<Declaration<'a>>,
    kind: &Kind,
    params: &'a [Param],
) -> Result<(), NoMemory>
    ensures { OnOk result (declarations_view list.new.items ≡ declarations_view list.old.items ++ map (λ d. of_kind kind.now d.name) (params_view params.now)) }
{
    for param in params {
        list.push(kind.named(&param.name))?;
    }
    Ok(())
}

/// Adds the names of instances.
fn push_ones<'a>(
    list: &mut Vec<Declaration<'a>>,
    kind: &Kind,
    ones: &'a [One],
) -> Result<(), NoMemory>
    ensures { OnOk result (declarations_view list.new.items ≡ declarations_view list.old.items ++ map (λ d. of_kind kind.now d.name) (ones_view ones.now)) }
{
    for one in ones {
        list.push(kind.named(&one.name))?;
    }
    Ok(())
}

/// Adds variables, of which those with a range of words are memories (IEEE 1364-2001 clause 3.10).
fn push_variables<'a>(
    alloc: Global,
    scope: &Scope,
    list: &mut Vec<Declaration<'a>>,
    kind: &Kind,
    sound: bool,
    names: &'a [Declared],
    tally: &mut Tally<'a>,
) -> Result<(), NoMemory>
    ensures names { OnOk result (declarations_view list.new.items ≡ declarations_view list.old.items ++ map (λ d. spec.declaration kind.now.item (spec.sort_if sound (spec.words_sort (binding_of scope.now) kind.now.item d.words spec.a_variable)) kind.now.range kind.now.signed kind.now.direction d.name) (declareds_view names.now)) }
    ensures met { OnOk result (tally.new ≡ after_faults tally.old (flat_map (λ d. spec.declared_words_faults (binding_of scope.now) kind.now.item d.words) (declareds_view names.now))) }
{
    for declared in names {
        let sort = variable_sort(alloc, scope, kind.item, &declared.words, tally);
        let own = kind.with_sort(sound, sort);
        list.push(own.named(&declared.name))?;
    }
    Ok(())
}

/// A variable, or a memory where it has a range of words.
fn variable_sort<'a>(
    alloc: Global,
    scope: &Scope,
    item: Place,
    words: &'a Option<RangeExpr>,
    tally: &mut Tally<'a>,
) -> Sort
    ensures met { tally.new ≡ after_faults tally.old (spec.declared_words_faults (binding_of scope.now) item (range_option_view words.now)) }
    ensures value { sort_view result ≡ spec.words_sort (binding_of scope.now) item (range_option_view words.now) spec.a_variable }
{
    let Some(words) = words else {
        return Sort::Variable;
    };
    memory_sort(words_range(alloc, scope, item, words, tally))
}

/// A memory, if its words have no fault.
fn memory_sort(words: Option<Range>) -> Sort
    ensures { sort_view result ≡ memory_of words }
{
    match words {
        Some(words) => Sort::Memory(words),
        None => Sort::FaultyMemory,
    }
}

/// Adds the names that an item declares (IEEE 1364-2001 clause 3), and reports the faults of its ranges.
fn declare_item<'a>(
    alloc: Global,
    scope: &Scope,
    item: &'a Item,
    list: &mut Vec<Declaration<'a>>,
    tally: &mut Tally<'a>,
) -> Result<(), NoMemory>
    ensures names { OnOk result (declarations_view list.new.items ≡ declarations_view list.old.items ++ spec.item_declarations (binding_of scope.now) item.now.place (item_form_view item.now.form)) }
    ensures met { OnOk result (tally.new ≡ after_faults tally.old (spec.item_range_faults (binding_of scope.now) item.now.place (item_form_view item.now.form))) }
{
    let place = item.place;
    match &item.form {
        ItemForm::Port {
            input,
            reg,
            signed,
            range,
            names,
        } => {
            let sort = if *reg { Sort::Variable } else { Sort::Net };
            let vector = vector_range(alloc, scope, range, tally);
            let kind = Kind::of_vector(place, sort, vector, *signed, Some(*input));
            push_named(list, &kind, names.as_slice())
        }
        ItemForm::Net {
            signed,
            range,
            names,
        } => {
            let vector = vector_range(alloc, scope, range, tally);
            let kind = Kind::of_vector(place, Sort::Net, vector, *signed, None);
            push_declared(list, &kind, names.as_slice())
        }
        ItemForm::Var {
            signed,
            range,
            names,
        } => {
            let vector = vector_range(alloc, scope, range, tally);
            let kind = Kind::of_vector(place, Sort::Variable, vector, *signed, None);
            push_variables(
                alloc,
                scope,
                list,
                &kind,
                vector.sound,
                names.as_slice(),
                tally,
            )
        }
        ItemForm::Integer(names) => push_declared(list, &Kind::integer(place), names.as_slice()),
        ItemForm::Params(params) => {
            push_params(
                list,
                &Kind::plain(place, Sort::Parameter),
                params.as_slice(),
            )
        }
        ItemForm::Instance { ones, .. } => {
            push_ones(list, &Kind::plain(place, Sort::Instance), ones.as_slice())
        }
        _ => Ok(()),
    }
}

/// Adds the names of the parameters of a header.
fn push_header<'a>(list: &mut Vec<Declaration<'a>>, params: &'a [Param]) -> Result<(), NoMemory>
    ensures { OnOk result (declarations_view list.new.items ≡ declarations_view list.old.items ++ map (λ p. spec.declaration p.name.place spec.a_parameter None false None p.name) (params_view params.now)) }
{
    for param in params {
        list.push(Kind::plain(param.name.place, Sort::Parameter).named(&param.name))?;
    }
    Ok(())
}

/// All names that a module declares, in order of text and those of the header first, with the faults of the ranges of
/// its items.
pub(crate) fn all_declarations<'a>(
    alloc: Global,
    scope: &Scope,
    definition: &'a Module,
    tally: &mut Tally<'a>,
) -> Result<Vec<Declaration<'a>>, NoMemory>
    ensures names { IfOk result (λ list. declarations_view list.items ≡ spec.all_declarations (binding_of scope.now) (module_view definition.now)) }
    ensures met { OnOk result (tally.new ≡ after_faults tally.old (range_faults (binding_of scope.now) (module_view definition.now))) }
{
    let mut list = Vec::new(alloc);
    push_header(&mut list, definition.params.as_slice())?;
    for item in definition.items.as_slice() {
        declare_item(alloc, scope, item, &mut list, tally)?;
    }
    Ok(list)
}
