//! What a name in an instance is.

ghost use Rattle.std.specs.Prelude.{◌≡◌, ◌↔◌, ℕ, IfNone, IfSome, IsTrue};
ghost use Rattle.state_machines.specs.Lookups.{IsAliasAt, IsConstantAt, IsSignalAt};

use cov_host::Name;
use design_model::{Alias, Constant, Signal};

/// The place of the signal with a name in an instance.
pub(crate) fn signal_place(signals: &[Signal], instance: u32, name: &[u8]) -> Option<usize>
    ensures some { IfSome result (IsSignalAt signals.now instance name.now) }
    ensures none { IfNone result ((k : ℕ) → IsSignalAt signals.now instance name.now k → ⊥) }
{
    for (place, signal) in signals.iter().enumerate() {
        if is_named(signal.instance, &signal.name, instance, name) {
            return Some(place);
        }
    }
    None
}

/// The place of the first alias with a name in an instance.
pub(crate) fn alias_place(aliases: &[Alias], instance: u32, name: &[u8]) -> Option<usize>
    ensures some { IfSome result (IsAliasAt aliases.now instance name.now) }
    ensures none { IfNone result ((k : ℕ) → IsAliasAt aliases.now instance name.now k → ⊥) }
{
    for (place, alias) in aliases.iter().enumerate() {
        if is_named(alias.instance, &alias.name, instance, name) {
            return Some(place);
        }
    }
    None
}

/// The place of the parameter with a name in an instance.
pub(crate) fn constant_place(constants: &[Constant], instance: u32, name: &[u8]) -> Option<usize>
    ensures some { IfSome result (IsConstantAt constants.now instance name.now) }
    ensures none { IfNone result ((k : ℕ) → IsConstantAt constants.now instance name.now k → ⊥) }
{
    for (place, constant) in constants.iter().enumerate() {
        if is_named(constant.instance, &constant.name, instance, name) {
            return Some(place);
        }
    }
    None
}

/// Whether what has this name in an instance is the one that is looked for.
fn is_named(own: u32, own_name: &Name, instance: u32, name: &[u8]) -> bool
    ensures { IsTrue result ↔ ((own ≡ instance) × (own_name.now ≡ name.now)) }
{
    own == instance && own_name.as_slice() == name
}
