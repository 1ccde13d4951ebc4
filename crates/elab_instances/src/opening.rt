//! An instance of a module is opened: what is found in its declarations, and what its names mean.

ghost use Rattle.std.specs.Prelude.{◌≡◌, ◌∷◌, flat_map, length, nat_lt, All, IfOk, OnOk};
ghost use Rattle.elab_declarations.specs.Constants.{bindings_view, overrides_view};
ghost use Rattle.elab_declarations.specs.DeclarationBounds.{IsInBounds};
ghost use Rattle.elab_declarations.specs.DeclarationView.{declaration_view, declarations_view};
ghost use Rattle.elab_instances.specs.Entering.{AreFew, IsInside, numbers_after};
ghost use Rattle.elab_instances.specs.InstanceView.{instantiation_view};
ghost use Rattle.elab_instances.specs.Linked.{linked_of, links_view};
ghost use Rattle.elab_instances.specs.Opening.{AreCounted};
ghost use Rattle.elab_instances.specs.Roles.{IsFewWords, role_met, role_of};
ghost use Rattle.elab_scope.specs.Tally.{after_all};
ghost use Rattle.flat_design.specs.Bodies.{met_faults, met_instance, met_text};
ghost use Rattle.flat_design.specs.Fault.{fault_if, limit_fault};
ghost use Rattle.flat_design.specs.Instances as of;
ghost use Rattle.flat_design.specs.declared.fault.DesignLimit.TheVariants.{Path};
ghost use Rattle.tree_sizes.specs.Sizes.{module_size};
ghost use Rattle.verilog_tree.specs.View.{module_view};

use crate::entries::{Inside, enter};
use crate::instantiation::{Instantiation, Numbers};
use crate::roles::{Links, Role};
use cov_host::{Name, NoMemory, Place};
use elab_declarations::{
    Constants, Declaration, Declarations, check_constants, check_declarations,
};
use elab_scope::{FoundFault, Tally, span};
use flat_design::DesignLimit;
use std::alloc::Global;

/// An instance with its parameters, its declared names, and what decides which of these are signals of its own.
#[derive(Drop)]
pub struct Opened<'b, 'a> {
    /// The instance.
    pub given: &'b Instantiation<'a>,
    /// Its parameters.
    pub constants: Constants<'a>,
    /// Its declared names.
    pub declared: Declarations<'a>,
    /// Which of its names are signals of its own.
    pub links: Links<'a>,
    pub ghost parameters: { bindings_view constants.found.items ≡ of.constants (overrides_view given.now.overrides.items) (module_view given.now.module.now) },
    pub ghost names: { declared ≡ of.declared (overrides_view given.now.overrides.items) (module_view given.now.module.now) },
    pub ghost linked: { links_view links ≡ linked_of (instantiation_view given.now) },
}

/// Opens an instance: its own signals and memories, and the faults of its path, its parameters and its declarations are
/// reported (IEEE 1364-2001 clauses 3 and 12). Numbers that were counted before, with those of the instance, are
/// counted then.
pub fn open_instance<'b, 'a>(
    alloc: Global,
    given: &'b Instantiation<'a>,
    tally: &mut Tally<'a>,
) -> Result<Opened<'b, 'a>, NoMemory>
    ensures given { IfOk result (λ opened. opened.given.now ≡ given.now) }
    ensures met { OnOk result (tally.new ≡ after_all tally.old (of.opening_met (instantiation_view given.now))) }
    ensures counted { OnOk result ((first : Numbers) → AreCounted tally.old first → AreCounted tally.new (numbers_after (instantiation_view given.now) first)) }
{
    meet_instance(given, tally);
    let constants = check_constants(alloc, &given.overrides, given.module, tally)?;
    let declared = check_declarations(alloc, &constants.scope, given.module, tally)?;
    let links = Links::new(alloc, given)?;
    meet_declared(given, &links, declared.as_slice(), tally);
    Ok(Opened {
        given,
        constants,
        declared,
        links,
    })
}

impl<'b, 'a> Opened<'b, 'a> {
    /// The scope of the instance, whose first signal and memory have these numbers.
    pub fn enter(&self, alloc: Global, first: Numbers) -> Result<Inside, NoMemory>
        requires { AreFew (numbers_after (instantiation_view self.now.given.now) first) }
        ensures { IfOk result (IsInside (instantiation_view self.now.given.now) first) }
    {
        enter(alloc, &self.links, &self.constants, &self.declared, first)
    }

    /// The declared names alone.
    pub fn into_declared(self) -> Declarations<'a>
        ensures { result ≡ of.declared (overrides_view self.entry.given.now.overrides.items) (module_view self.entry.given.now.module.now) }
    {
        self.declared
    }
}

/// An instance, the text of its module, and whether its path is too long.
fn meet_instance(given: &Instantiation, tally: &mut Tally)
    ensures { tally.new ≡ after_all tally.old (met_instance given.now.item ∷ met_text given.now.item (module_size (module_view given.now.module.now)) ∷ met_faults (of.path_faults given.now.item given.now.path)) }
{
    tally.instance(given.item);
    tally.module(given.item, given.module);
    meet_path(given.path.len() > 256, given.item, tally);
}

/// The signals and memories of an instance.
fn meet_declared(given: &Instantiation, links: &Links, declared: &[Declaration], tally: &mut Tally)
    requires { All IsInBounds (declarations_view declared.now) }
    ensures { tally.new ≡ after_all tally.old (flat_map (λ d. role_met (role_of (links_view links.now) d) (instantiation_view given.now) d) (declarations_view declared.now)) }
{
    for declaration in declared {
        meet_name(given, links.role(declaration), declaration, tally);
    }
}

/// A signal or memory, and whether its path is too long.
fn meet_name(given: &Instantiation, role: Role, declaration: &Declaration, tally: &mut Tally)
    requires { IsFewWords role }
    ensures { tally.new ≡ after_all tally.old (role_met role (instantiation_view given.now) (declaration_view declaration.now)) }
{
    let long = is_long(&given.path, &declaration.name.name);
    match role {
        Role::Own => {
            tally.signal(declaration.item);
            meet_path(long, declaration.item, tally);
        }
        Role::Memory(words) => {
            tally.words(declaration.item, span(words));
            meet_path(long, declaration.item, tally);
        }
        Role::Joined(_) | Role::LoopVariable | Role::Instance | Role::Faulty => {}
    }
}

/// A path of more than 256 bytes.
fn meet_path(long: bool, item: Place, tally: &mut Tally)
    ensures { tally.new ≡ after_all tally.old (met_faults (fault_if long (limit_fault Path item))) }
{
    if long {
        tally.fault(FoundFault::limit(DesignLimit::Path, item));
    }
}

/// Whether a path with one more name has more than 256 bytes.
fn is_long(path: &Name, name: &Name) -> bool
    ensures { result ≡ nat_lt 256 (length (of.dotted path.now name.now)) }
{
    name.len() >= 256_usize.saturating_sub(path.len())
}
