ghost use Rattle.std.specs.Prelude.{◌≤◌, length};
ghost use Rattle.selfrun_files.specs.Dump.{IsWithin};
ghost use Rattle.selfrun_files.specs.Source.{source_text};

use crate::dump::GeneratedDump;
use crate::input::Input;

/// A host with two files, the text of the design and the dump, that is made while it is read. It has no room for a file that is
/// written and for what is printed or warned, and so refuses these calls for want of memory. It takes no memory itself.
#[derive(Drop)]
pub struct SelfrunFiles {
    pub(crate) number: u32,
    pub(crate) steps: u32,
    pub(crate) input: Input,
    /// How many bytes of the text of the design were read.
    pub(crate) at: usize,
    pub(crate) dump: GeneratedDump,
    /// Whether a file is being written, which no call begins.
    pub(crate) is_writing: bool,
    pub(crate) absences: u64,
    pub(crate) mute: u64,
    ghost few_steps: { steps ≤ 1000000 },
    ghost source_is_within: { at ≤ length source_text },
    ghost dump_is_within: { IsWithin dump },
}
