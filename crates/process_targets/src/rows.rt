//! The bits that each process may write.

ghost use Rattle.std.specs.Prelude.{◌≡◌, IfOk, OnOk, length, map, true};
ghost use Rattle.std.specs.List.{All};
ghost use Rattle.design_model.specs.Design.{body};
ghost use Rattle.design_model.specs.Lawful.{IsLawfulDesign};
ghost use Rattle.design_model.specs.View.{design_view, process_view};
ghost use Rattle.design_targets.specs.Leaves.{leaf_view, leaves};
ghost use Rattle.process_targets.specs.Placed.{ArePlaced};
ghost use Rattle.process_targets.specs.Rows.{AddsLeaf, AreTargetRows, HasLeaves};
ghost use Rattle.process_targets.specs.Targets.{IsOnce, IsRightLeaf};

use crate::bits::{Bits, add_bits};
use crate::parts::leaf_places;
use cov_host::NoMemory;
use design_model::{Design, Process};
use design_targets::{Leaf, push_leaves};
use index_sets::Rows;
use std::alloc::Global;

/// For each process the bits of signals that its blocking assignments may write, each signal once, in order of the text.
/// An Assign counts as one blocking assignment. A signal of which a part is written by an index with an x or z alone is
/// in the row without bits. It takes the time of the design's text.
pub fn target_rows(alloc: Global, design: &Design) -> Result<Rows<Bits>, NoMemory>
    requires { IsLawfulDesign (design_view design.now) }
    ensures { IfOk result (λ rows. AreTargetRows (design_view design.now) rows) }
{
    let mut places = vec![in alloc; 0; design.signals.len()]?;
    let mut lists = Vec::new(alloc);
    for process in design.processes.as_slice() {
        let list = targets(alloc, design, process, &mut places)?;
        lists.push(list)?;
    }
    Rows::from_lists(alloc, lists.as_slice())
}

/// The bits of signals that the blocking assignments of a process may write.
fn targets(
    alloc: Global,
    design: &Design,
    process: &Process,
    places: &mut [usize],
) -> Result<Vec<Bits>, NoMemory>
    requires lawful { IsLawfulDesign (design_view design.now) }
    requires right { All (IsRightLeaf (design_view design.now)) (leaves true (body (process_view process.now))) }
    requires size { length places.old ≡ length design.now.signals }
    ensures size { length places.new ≡ length places.old }
    ensures once { IfOk result (λ row. IsOnce row.items) }
    ensures row { IfOk result (λ row. HasLeaves (design_view design.now) (leaves true (body (process_view process.now))) row.items) }
{
    let mut leaves = Vec::new(alloc);
    push_leaves(true, process, &mut leaves)?;
    bits_of(alloc, design, leaves.as_slice(), places)
}

/// The bits of signals that parts of targets may write.
fn bits_of(
    alloc: Global,
    design: &Design,
    leaves: &[Leaf],
    places: &mut [usize],
) -> Result<Vec<Bits>, NoMemory>
    requires lawful { IsLawfulDesign (design_view design.now) }
    requires right { All (IsRightLeaf (design_view design.now)) (map leaf_view leaves.now) }
    requires size { length places.old ≡ length design.now.signals }
    ensures size { length places.new ≡ length places.old }
    ensures once { IfOk result (λ row. IsOnce row.items) }
    ensures row { IfOk result (λ row. HasLeaves (design_view design.now) (map leaf_view leaves.now) row.items) }
{
    let mut row = Vec::new(alloc);
    for leaf in leaves {
        add_leaf(design, leaf, &mut row, places)?;
    }
    Ok(row)
}

/// Adds the bits that a part of a target may write. A word of a memory has no such bits.
fn add_leaf(
    design: &Design,
    leaf: &Leaf,
    row: &mut Vec<Bits>,
    places: &mut [usize],
) -> Result<(), NoMemory>
    requires lawful { IsLawfulDesign (design_view design.now) }
    requires right { IsRightLeaf (design_view design.now) (leaf_view leaf.now) }
    requires placed { ArePlaced row.old.items places.old }
    requires size { length places.old ≡ length design.now.signals }
    ensures size { length places.new ≡ length places.old }
    ensures placed { OnOk result (ArePlaced row.new.items places.new) }
    ensures row { OnOk result (AddsLeaf (design_view design.now) (leaf_view leaf.now) row.old.items row.new.items) }
{
    if leaf.thing as usize >= design.signals.len() {
        return Ok(());
    }
    let mask = leaf_places(design, leaf);
    add_bits(
        row,
        places,
        Bits {
            signal: leaf.thing,
            mask,
        },
    )
}
