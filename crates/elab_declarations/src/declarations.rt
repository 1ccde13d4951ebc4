ghost use Rattle.std.specs.Prelude.{◌≡◌, ◌++◌, [], All, IfOk, OnOk};
ghost use Rattle.std.specs.Option.{option_map};
ghost use Rattle.elab_declarations.specs.DeclarationBounds.{IsInBounds};
ghost use Rattle.elab_declarations.specs.DeclarationView.{declaration_view, declarations_view};
ghost use Rattle.elab_scope.specs.Tally.{after_faults};
ghost use Rattle.flat_design.specs.Connections.{declaration_of};
ghost use Rattle.flat_design.specs.Declarations as spec;
ghost use Rattle.flat_design.specs.Instances.{range_faults};
ghost use Rattle.flat_design.specs.Scope.{binding_of};
ghost use Rattle.verilog_tree.specs.View.{module_view};

use crate::declaration::Declaration;
use crate::items::all_declarations;
use cov_host::{Name, NoMemory};
use elab_scope::{FoundFault, NameAt, NameSet, Scope, Tally};
use flat_design::ElabKind;
use indexmap::IndexMap;
use std::alloc::Global;
use std::marker::Model;
use verilog_tree::{Module, Named};

/// The declared names of a module, each once, in order of declaration.
#[derive(Drop)]
pub struct Declarations<'a> {
    found: IndexMap<&'a [u8], Declaration<'a>>,
}

impl<'a> Model for Declarations<'a> {
    ghost use Rattle.std.specs.Prelude.{List};
    ghost use Rattle.elab_declarations.specs.DeclarationTable.{declarations_in, AreByName};
    ghost use Rattle.flat_design.specs.Declarations.{Declaration};

    ghost Value = { List Declaration };

    ghost view = { λ d. declarations_in d.found.entries };

    ghost invariant = { λ d. AreByName d.found.entries };
}

impl<'a> Declarations<'a> {
    /// No names yet. It takes no memory.
    pub(crate) fn new(alloc: Global) -> Declarations<'a>
        ensures { result ≡ [] }
    {
        Declarations {
            found: IndexMap::new(alloc),
        }
    }

    /// The declaration of a name.
    pub fn find(&self, name: &[u8]) -> Option<&Declaration<'a>>
        ensures { option_map (λ found. declaration_view found.now) result ≡ declaration_of self.now name.now }
    {
        self.found.get(name)
    }

    /// Adds a declaration. A name that is there keeps its place.
    pub(crate) fn add(&mut self, declaration: Declaration<'a>) -> Result<(), NoMemory>
        ensures { OnOk result (self.new ≡ spec.add_declaration self.old (declaration_view declaration.entry)) }
    {
        let name = declaration.name.name.as_slice();
        let whole = match self.found.get(name) {
            Some(first) => first.with(&declaration),
            None => declaration,
        };
        let _ = self.found.insert(name, whole)?;
        Ok(())
    }

    /// The names in their order.
    pub fn as_slice(&self) -> &[Declaration<'a>]
        ensures { declarations_view result.now ≡ self.now }
    {
        self.found.values().as_slice()
    }

    /// Whether a name is declared again, other than as the net or variable of a port.
    pub(crate) fn declares_again(&self, declaration: &Declaration) -> bool
        ensures { result ≡ spec.is_declared_again self.now (declaration_view declaration.now) }
    {
        match self.found.get(declaration.name.name.as_slice()) {
            Some(first) => !first.completes(declaration),
            None => false,
        }
    }

    /// Whether a name is declared as a parameter.
    pub fn is_parameter(&self, name: &Name) -> bool
        ensures { result ≡ spec.names_parameter self.now name.now }
    {
        match self.found.get(name.as_slice()) {
            Some(declaration) => declaration.sort.is_parameter(),
            None => false,
        }
    }

    /// Whether a name has a direction.
    pub(crate) fn is_port(&self, name: &Name) -> bool
        ensures { result ≡ spec.is_port self.now name.now }
    {
        match self.found.get(name.as_slice()) {
            Some(declaration) => declaration.has_direction(),
            None => false,
        }
    }
}

/// The declared names, each once, with the faults of those that are declared again.
pub(crate) fn declare_all<'a>(
    alloc: Global,
    all: &[Declaration<'a>],
    tally: &mut Tally<'a>,
) -> Result<Declarations<'a>, NoMemory>
    ensures names { IfOk result (λ d. d ≡ spec.declarations_from [] (declarations_view all.now)) }
    ensures met { OnOk result (tally.new ≡ after_faults tally.old (spec.twice_faults [] (declarations_view all.now))) }
{
    let mut sofar = Declarations::new(alloc);
    for declaration in all {
        if sofar.declares_again(declaration) {
            tally.fault(FoundFault::at(ElabKind::TwiceDeclared, NameAt::of(declaration.name)));
        }
        sofar.add(*declaration)?;
    }
    Ok(sofar)
}

/// The names that the header lists twice.
pub(crate) fn check_listed<'a>(
    alloc: Global,
    ports: &'a [Named],
    tally: &mut Tally<'a>,
) -> Result<(), NoMemory>
    ensures { OnOk result (tally.new ≡ after_faults tally.old (spec.listed_twice [] ports.now)) }
{
    let mut sofar = NameSet::new(alloc);
    for port in ports {
        if !sofar.add(port.name.as_slice())? {
            tally.fault(FoundFault::at(ElabKind::TwiceDeclared, NameAt::of(port)));
        }
    }
    Ok(())
}

/// The listed ports without a direction (IEEE 1364-2001 clause 12.3.3).
pub(crate) fn check_directions<'a>(
    declarations: &Declarations,
    ports: &'a [Named],
    tally: &mut Tally<'a>,
)
    ensures { tally.new ≡ after_faults tally.old (spec.direction_faults declarations.now ports.now) }
{
    for port in ports {
        if !declarations.is_port(&port.name) {
            tally.fault(FoundFault::at(ElabKind::PortMismatch, NameAt::of(port)));
        }
    }
}

/// The declared names of a module, each once, with the faults of its ranges, of names that are declared again, and of
/// its port list (IEEE 1364-2001 clauses 3.12 and 12.3.3).
pub fn check_declarations<'a>(
    alloc: Global,
    scope: &Scope,
    definition: &'a Module,
    tally: &mut Tally<'a>,
) -> Result<Declarations<'a>, NoMemory>
    ensures names { IfOk result (λ d. d ≡ spec.declarations (binding_of scope.now) (module_view definition.now)) }
    ensures within { IfOk result (All IsInBounds) }
    ensures met { OnOk result (tally.new ≡ after_faults tally.old (range_faults (binding_of scope.now) (module_view definition.now) ++ spec.twice_faults [] (spec.all_declarations (binding_of scope.now) (module_view definition.now)) ++ spec.listed_twice [] definition.now.ports ++ spec.direction_faults (spec.declarations (binding_of scope.now) (module_view definition.now)) definition.now.ports)) }
{
    let all = all_declarations(alloc, scope, definition, tally)?;
    let declared = declare_all(alloc, &all, tally)?;
    check_listed(alloc, definition.ports.as_slice(), tally)?;
    check_directions(&declared, definition.ports.as_slice(), tally);
    Ok(declared)
}
