ghost use Rattle.std.specs.Prelude.{◌≡◌, map, All, IfOk};
ghost use Rattle.std.proofs.Common.{refl};
ghost use Rattle.cov_report.specs.Points.{blocks, block_name as name_of};
ghost use Rattle.cov_report.specs.Views.{name_cmp, block_instance};
ghost use Rattle.cov_report.specs.OrderLaws.{name_total};

use crate::Options;
use crate::counted::block_name;
use crate::gather::{Ranked, gather};
use cov_host::{Name, NoMemory};
use coverage_db::DbInstance;
use std::alloc::Global;
use std::cmp::Ordering;

/// A block of a report.
#[derive(Clone, Copy)]
pub(crate) struct Block<'a> {
    /// The path of its instance, or the module of its instances.
    pub(crate) name: &'a Name,
    /// Its first instance.
    pub(crate) instance: &'a DbInstance,
}

impl Ranked for Block<'_> {
    ghost cmp = { name_cmp };

    ghost join = { λ first other. first };

    fn compare(&self, other: &Self) -> Ordering {
        self.name.as_slice().cmp(other.name.as_slice())
    }

    fn joined(&self, _: &Self) -> Self {
        *self
    }

    ghost total = { name_total };

    ghost stays = { λ a b c. refl };
}

/// The blocks of the instances, in byte order of their names.
pub(crate) fn blocks<'a>(
    alloc: Global,
    instances: &'a [DbInstance],
    options: &Options,
) -> Result<Vec<Block<'a>>, NoMemory>
    ensures blocks { IfOk result (λ found. map block_instance found.items ≡ blocks options.now instances.now) }
    ensures names { IfOk result (λ found. All (λ block. block.name.now ≡ name_of options.now block.instance.now) found.items) }
{
    let mut found = Vec::with_capacity(alloc, instances.len())?;
    for instance in instances {
        found.push(Block {
            name: block_name(instance, options),
            instance,
        })?;
    }
    gather(alloc, found)
}
