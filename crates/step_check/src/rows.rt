//! The signals that each process has a step checked for.

ghost use Rattle.std.specs.Prelude.{◌≡◌, IfOk, length};
ghost use Rattle.step_check.specs.Checks.{AreCheckRows, checked, is_checked as checks};

use cov_host::NoMemory;
use index_sets::Rows;
use process_targets::Bits;
use std::alloc::Global;

/// For each of so many processes the signals with a code of which it may write some bit. `targets` has the bits that each process
/// may write, and `codes` the code of each signal. It takes time for these.
pub fn check_rows(
    alloc: Global,
    processes: usize,
    targets: &Rows<Bits>,
    codes: &[Option<u32>],
) -> Result<Rows<u32>, NoMemory>
    requires { length targets.now ≡ processes }
    ensures { IfOk result (λ rows. AreCheckRows codes.now targets.now rows) }
{
    let mut lists = Vec::new(alloc);
    for process in 0..processes {
        let list = check_list(alloc, targets.row(process), codes)?;
        lists.push(list)?;
    }
    Rows::from_lists(alloc, lists.as_slice())
}

/// The signals with a code of which a row has some bit.
fn check_list(alloc: Global, row: &[Bits], codes: &[Option<u32>]) -> Result<Vec<u32>, NoMemory>
    ensures { IfOk result (λ list. list.items ≡ checked codes.now row.now) }
{
    let mut list = Vec::new(alloc);
    for bits in row {
        if is_checked(codes, bits) {
            list.push(bits.signal)?;
        }
    }
    Ok(list)
}

/// Whether there are some bits, of a signal with a code.
fn is_checked(codes: &[Option<u32>], bits: &Bits) -> bool
    ensures { result ≡ checks codes.now bits.now }
{
    match codes.get(bits.signal as usize) {
        Some(Some(_)) => bits.mask != 0,
        _ => false,
    }
}
