ghost use Rattle.std.specs.Prelude.{◌≡◌, [], IfOk, map};
ghost use Rattle.command_line.specs.MachineWords.{names_left};
ghost use Rattle.command_line.specs.OptionValues.{defines_of, machines_of, sources_of};
ghost use Rattle.dump_score.specs.replay_core.wake_laws.Laws.{habit_of};
ghost use Rattle.covered_cli.specs.ScoreMachines.{habit_when, with_machines};
ghost use Rattle.covered_cli.specs.ScoreSources.{define_text};

use command_line::{GivenDefines, GivenMachines, SourceFiles, StateNames};
use cov_host::{NoMemory, Words};
use design_points::States;
use dump_score::Habit;
use std::alloc::Global;
use verilog_lexer::Defines;

/// The files of the words, in order.
pub(crate) fn files_of<'a>(
    alloc: Global,
    sources: SourceFiles<'a>,
) -> Result<Vec<&'a str>, NoMemory>
    ensures { IfOk result (λ files. map (λ file. file.now) files.items ≡ sources_of sources.entry) }
{
    let mut left = sources;
    let mut files = Vec::new(alloc);
    'files: while let Some(file) = left.next_file() {
        files.push(file)?;
    }
    Ok(files)
}

/// The macros that the words define, in order.
pub(crate) fn defines_of(alloc: Global, given: GivenDefines<'_>) -> Result<Defines, NoMemory>
    ensures { IfOk result (λ defines. defines ≡ map define_text (defines_of given.entry)) }
{
    let mut left = given;
    let mut defines = Defines::new(alloc);
    'defines: while let Some(define) = left.next_define() {
        defines.add(define.name, define.text)?;
    }
    Ok(defines)
}

/// The state machines that the words name. A later one of the same variable takes the place of the earlier.
pub(crate) fn states_of(alloc: Global, given: GivenMachines<'_>) -> Result<States, NoMemory>
    ensures named { IfOk result (λ states. states.named ≡ with_machines (machines_of given.entry) []) }
    ensures drawn { IfOk result (λ states. states.drawn ≡ []) }
{
    let mut left = given;
    let mut states = States::new(alloc);
    'machines: while let Some(machine) = left.next_machine() {
        let names = names_of(alloc, machine.names)?;
        states.add(machine.module, machine.variable, &names)?;
    }
    Ok(states)
}

/// The names of the states of a machine, in order.
fn names_of(alloc: Global, given: StateNames<'_>) -> Result<Words, NoMemory>
    ensures { IfOk result (λ names. names ≡ names_left given.entry) }
{
    let mut left = given;
    let mut names = Words::new(alloc);
    'names: while let Some(name) = left.next_name() {
        names.push(name)?;
    }
    Ok(names)
}

/// The habit by which the inputs move.
pub(crate) fn habit_when(late: bool) -> Habit
    ensures { habit_of result ≡ habit_when late }
{
    if late { Habit::Late } else { Habit::Free }
}
