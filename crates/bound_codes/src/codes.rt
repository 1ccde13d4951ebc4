ghost use Rattle.std.specs.Prelude.{◌≡◌, ◌<◌, ◌↔◌, ◌⊎◌, ◌^◌, ℕ, true, false, Some, IfOk, OnOk, length, slice_index_or, vec_len};
ghost use Rattle.vcd_reader.specs.Wanted.{is_wanted};
ghost use Rattle.bound_codes.specs.Codes.{AreWanted};

use cov_host::NoMemory;
use signal_binding::Binding;
use std::alloc::Global;

/// The codes of so many signals, in order.
pub fn signal_codes(
    alloc: Global,
    binding: &Binding,
    count: u32,
) -> Result<Vec<Option<u32>>, NoMemory>
    requires { count ≡ length binding.now }
    ensures { IfOk result (λ codes. codes.items ≡ binding.now) }
{
    let mut codes = Vec::new(alloc);
    for signal in 0..count {
        codes.push(binding.code_of(signal))?;
    }
    Ok(codes)
}

/// By code, whether a signal has it, of which these are the codes in order.
pub fn coded_flags(alloc: Global, codes: &[Option<u32>]) -> Result<Vec<bool>, NoMemory>
    ensures { IfOk result (λ flags. AreWanted codes.now flags.items) }
{
    let mut flags = Vec::new(alloc);
    for code in codes {
        set_code(&mut flags, *code)?;
    }
    Ok(flags)
}

/// The flag of a code is true from now on, if there is one.
fn set_code(flags: &mut Vec<bool>, code: Option<u32>) -> Result<(), NoMemory>
    ensures { OnOk result ((other : ℕ) → (is_wanted flags.new.items other ≡ true) ↔ ((is_wanted flags.old.items other ≡ true) ⊎ (code ≡ Some other))) }
{
    if let Some(code) = code {
        let place = code as usize;
        make_room(flags, place)?;
        flags[place] = true;
    }
    Ok(())
}

/// Makes room for the flag at a place, which is false where there was none.
fn make_room(flags: &mut Vec<bool>, place: usize) -> Result<(), NoMemory>
    requires { place < 2 ^ 32 }
    ensures room { OnOk result (place < vec_len flags.new) }
    ensures same { OnOk result ((other : ℕ) → is_wanted flags.new.items other ≡ is_wanted flags.old.items other) }
{
    if flags.len() <= place {
        flags.resize(place + 1, false)?;
    }
    Ok(())
}
