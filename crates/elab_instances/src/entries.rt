//! What each declared name of an instance means.

ghost use Rattle.std.specs.Prelude.{◌≡◌, ◌≤◌, [], ◌∷◌, All, IfOk, OnOk};
ghost use Rattle.elab_declarations.specs.Constants.{bindings_view, bound_view};
ghost use Rattle.elab_declarations.specs.DeclarationBounds.{IsInBounds};
ghost use Rattle.elab_declarations.specs.DeclarationView.{declaration_view, declarations_view};
ghost use Rattle.elab_instances.specs.Behind.{or_bound};
ghost use Rattle.elab_instances.specs.Entering as spec;
ghost use Rattle.elab_instances.specs.Linked.{links_view};
ghost use Rattle.elab_instances.specs.Roles as kind;
ghost use Rattle.elab_scope.specs.Entries.{IsEntry, IsVectorRange};
ghost use Rattle.flat_design.specs.Instances as of;
ghost use Rattle.flat_design.specs.Scope.{binding_of, no_names};

use crate::instantiation::Numbers;
use crate::roles::{Links, Role};
use cov_host::{Name, NoMemory};
use elab_declarations::{BoundParam, Constants, Declaration, Declarations, Sort};
use elab_scope::Scope;
use flat_design::{Entry, MemoryEntry, SignalEntry};
use std::alloc::Global;

/// What the names of an instance mean, and the numbers that follow those of its signals and memories.
#[derive(Drop)]
pub struct Inside {
    /// The meanings of its names.
    pub scope: Scope,
    /// The numbers of the next signal and the next memory.
    pub next: Numbers,
}

/// The scope of an instance whose first signal and memory have these numbers. Of two declarations of a name the first
/// counts.
pub(crate) fn enter(
    alloc: Global,
    links: &Links,
    constants: &Constants,
    declared: &Declarations,
    first: Numbers,
) -> Result<Inside, NoMemory>
    requires constants { All (λ p. IsEntry p.entry) constants.now.found.items }
    requires within { All IsInBounds declared.now }
    requires few { spec.AreFew (spec.numbers_past (links_view links.now) first declared.now) }
    ensures scope { IfOk result (λ inside. binding_of inside.scope ≡ or_bound (or_bound no_names (spec.own_bindings declared.now (bindings_view constants.now.found.items))) (spec.role_entries (links_view links.now) first declared.now)) }
    ensures next { IfOk result (λ inside. inside.next ≡ spec.numbers_past (links_view links.now) first declared.now) }
{
    let mut scope = Scope::new(alloc);
    bind_constants(&mut scope, declared, &constants.found)?;
    let next = bind_declared(&mut scope, links, declared.as_slice(), first)?;
    Ok(Inside { scope, next })
}

impl Inside {
    /// The scope alone.
    pub fn into_scope(self) -> Scope
        ensures { binding_of result ≡ binding_of self.scope }
    {
        self.scope
    }
}

/// Gives parameters their values as their meanings.
fn bind_constants(
    scope: &mut Scope,
    declared: &Declarations,
    constants: &[BoundParam],
) -> Result<(), NoMemory>
    requires { All (λ p. IsEntry p.entry) constants.now }
    ensures { OnOk result (binding_of scope.new ≡ or_bound (binding_of scope.old) (spec.own_bindings declared.now (bindings_view constants.now))) }
{
    for constant in constants {
        bind_constant(scope, declared, constant)?;
    }
    Ok(())
}

/// Gives a parameter its value as its meaning, unless its name is declared before as something else.
fn bind_constant(
    scope: &mut Scope,
    declared: &Declarations,
    constant: &BoundParam,
) -> Result<(), NoMemory>
    requires { IsEntry constant.now.entry }
    ensures { OnOk result (binding_of scope.new ≡ or_bound (binding_of scope.old) (spec.own_bindings declared.now (bound_view constant.now ∷ []))) }
{
    if !declared.is_parameter(&constant.name) {
        return Ok(());
    }
    bind(scope, &constant.name, constant.entry)
}

/// Gives declared names their meanings, and gives the numbers that follow.
fn bind_declared(
    scope: &mut Scope,
    links: &Links,
    declared: &[Declaration],
    first: Numbers,
) -> Result<Numbers, NoMemory>
    requires within { All IsInBounds (declarations_view declared.now) }
    requires few { spec.AreFew (spec.numbers_past (links_view links.now) first (declarations_view declared.now)) }
    ensures scope { OnOk result (binding_of scope.new ≡ or_bound (binding_of scope.old) (spec.role_entries (links_view links.now) first (declarations_view declared.now))) }
    ensures next { IfOk result (λ next. next ≡ spec.numbers_past (links_view links.now) first (declarations_view declared.now)) }
{
    let mut numbers = first;
    for declaration in declared {
        let role = links.role(declaration);
        bind(
            scope,
            &declaration.name.name,
            role_entry(role, declaration, numbers),
        )?;
        numbers = numbers.behind(role);
    }
    Ok(numbers)
}

/// Gives a name this meaning, unless it has one.
fn bind(scope: &mut Scope, name: &Name, entry: Entry) -> Result<(), NoMemory>
    requires { IsEntry entry }
    ensures { OnOk result (binding_of scope.new ≡ or_bound (binding_of scope.old) ((name.now, entry) ∷ [])) }
{
    if scope.get(name.as_slice()).is_some() {
        return Ok(());
    }
    scope.insert(name, entry)
}

/// What a name of this role means.
fn role_entry(role: Role, declaration: &Declaration, numbers: Numbers) -> Entry
    requires bits { IsVectorRange declaration.now.range }
    requires words { kind.IsFewWords role }
    requires few { numbers.memory ≤ 262144 }
    ensures value { result ≡ kind.role_entry role numbers.signal numbers.memory (declaration_view declaration.now) }
    ensures within { IsEntry result }
{
    match role {
        Role::Own => signal_entry(declaration, numbers.signal),
        Role::Joined(signal) => signal_entry(declaration, signal),
        Role::Memory(words) => Entry::Memory(MemoryEntry {
            number: numbers.memory,
            words,
            range: declaration.range,
            signed: declaration.signed,
        }),
        Role::LoopVariable => Entry::LoopVariable,
        Role::Instance => Entry::Instance,
        Role::Faulty => Entry::Faulty,
    }
}

/// The signal of this number, as a declared name sees it.
fn signal_entry(declaration: &Declaration, number: u32) -> Entry
    ensures { result ≡ of.signal_entry number (declaration_view declaration.now) }
{
    Entry::Signal(SignalEntry {
        number,
        range: declaration.range,
        signed: declaration.signed,
        net: matches!(declaration.sort, Sort::Net),
        input: declaration.direction.unwrap_or(false),
    })
}

impl Numbers {
    /// The numbers that follow a name of this role.
    fn behind(self, role: Role) -> Numbers
        requires { spec.AreFew (spec.numbers_behind role self) }
        ensures { result ≡ spec.numbers_behind role self }
    {
        match role {
            Role::Own => Numbers {
                signal: self.signal + 1,
                ..self
            },
            Role::Memory(_) => Numbers {
                memory: self.memory + 1,
                ..self
            },
            _ => self,
        }
    }
}
