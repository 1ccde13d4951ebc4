ghost use Rattle.std.specs.Prelude.{◌≡◌, ◌++◌, ℕ, List, false, drop, length, slice_index_or, IfSome, IfNone};
ghost use Rattle.std.specs.List.{list_any};
ghost use Rattle.std.specs.Str.{bytes_eq};
ghost use Rattle.design_model.specs.Design.{no_instance};
ghost use Rattle.signal_binding.specs.Names.{is_below, stands_in};

use design_model::Design;
use vcd_reader::Var;

/// Whether some variable is in the scope of the instance or below it.
pub(crate) fn has_instance(vars: &[Var], instance: &str) -> bool
    ensures { result ≡ list_any (stands_in instance.now) vars.now }
{
    vars.iter().any(|var| stands_in(var, instance))
}

/// Whether the variable is in the scope of the instance or below it.
fn stands_in(var: &Var, instance: &str) -> bool
    ensures { result ≡ stands_in instance.now var.now }
{
    let scope = var.scope.as_slice();
    scope == instance.as_bytes() || is_below(scope, instance.as_bytes())
}

/// Whether the path begins with the outer one and goes on with a dot.
fn is_below(path: &[u8], outer: &[u8]) -> bool
    ensures { result ≡ is_below outer.now path.now }
{
    path.len() > outer.len() && &path[..outer.len()] == outer && path[outer.len()] == b'.'
}

/// What the path of the instance with this number has after that of the top.
pub(crate) fn below_top(design: &Design, instance: u32) -> &[u8]
    ensures { result.now ≡ drop (length design.now.top) (slice_index_or design.now.instances instance no_instance).path }
{
    match design.instances.get(instance as usize) {
        Some(found) => behind(found.path.as_slice(), design.top.len()),
        None => &[],
    }
}

/// The bytes without the first `count`.
fn behind(bytes: &[u8], count: usize) -> &[u8]
    ensures { result.now ≡ drop count bytes.now }
{
    if count > bytes.len() {
        return &[];
    }
    &bytes[count..]
}

/// What the bytes have after these first ones, if they begin with them.
pub(crate) fn behind_front<'a>(bytes: &'a [u8], front: &[u8]) -> Option<&'a [u8]>
    ensures begins { IfSome result (λ rest. (below : List ℕ) → bytes_eq bytes.now (front.now ++ below) ≡ bytes_eq rest.now below) }
    ensures other { IfNone result ((below : List ℕ) → bytes_eq bytes.now (front.now ++ below) ≡ false) }
{
    if bytes.len() < front.len() {
        return None;
    }
    let (head, tail) = bytes.split_at(front.len());
    if head == front { Some(tail) } else { None }
}
