//! The inputs of a design, by whether the dump gives them.

ghost use Rattle.std.specs.Prelude.{◌≡◌, ◌<◌, ◌≤◌, ◌^◌, ◌↔◌, ℕ, IfOk, true, length};
ghost use Rattle.std.specs.List.{Contains};
ghost use Rattle.design_model.specs.Design.{signal_at};
ghost use Rattle.design_model.specs.View.{design_view};
ghost use Rattle.step_wakes.specs.Step.{flag_at, is_given as given_by, is_missing as missing_by};

use cov_host::NoMemory;
use design_model::Design;
use std::alloc::Global;

/// For so many signals and memories of a design whether each is an input that the dump gives.
pub(crate) fn given_inputs(
    alloc: Global,
    design: &Design,
    bound: &[bool],
    things: usize,
) -> Result<Vec<bool>, NoMemory>
    ensures count { IfOk result (λ flags. length flags.items ≡ things) }
    ensures flags { IfOk result (λ flags. (x : ℕ) → x < things → flag_at flags.items x ≡ given_by (design_view design.now) bound.now x) }
{
    let mut flags = Vec::new(alloc);
    for thing in 0..things {
        flags.push(is_given(design, bound, thing))?;
    }
    Ok(flags)
}

/// The inputs that the dump does not give.
pub(crate) fn missing_inputs(
    alloc: Global,
    design: &Design,
    bound: &[bool],
) -> Result<Vec<u32>, NoMemory>
    requires { length design.now.signals ≤ 2 ^ 32 }
    ensures { IfOk result (λ missing. (x : ℕ) → Contains missing.items x ↔ (missing_by (design_view design.now) bound.now x ≡ true)) }
{
    let mut missing = Vec::new(alloc);
    for signal in 0..design.signals.len() {
        if is_missing(design, bound, signal) {
            missing.push(signal as u32)?;
        }
    }
    Ok(missing)
}

/// Whether the number is that of an input that the dump gives.
fn is_given(design: &Design, bound: &[bool], thing: usize) -> bool
    ensures { result ≡ given_by (design_view design.now) bound.now thing }
{
    is_input(design, thing) && is_bound(bound, thing)
}

/// Whether the number is that of an input that the dump does not give.
fn is_missing(design: &Design, bound: &[bool], thing: usize) -> bool
    ensures { result ≡ missing_by (design_view design.now) bound.now thing }
{
    is_input(design, thing) && !is_bound(bound, thing)
}

/// Whether the number is that of an input.
fn is_input(design: &Design, thing: usize) -> bool
    ensures { result ≡ (signal_at (design_view design.now) thing).input }
{
    let signals = design.signals.as_slice();
    thing < signals.len() && signals[thing].input
}

/// Whether the dump gives a signal.
fn is_bound(bound: &[bool], signal: usize) -> bool
    ensures { result ≡ flag_at bound.now signal }
{
    signal < bound.len() && bound[signal]
}
