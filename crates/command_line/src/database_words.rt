ghost use Rattle.std.specs.Prelude.{◌≡◌, false, [], ◌∷◌, ◌++◌, IfOk, IfErr, IfSome, IfNone, IsTrue, codes};
ghost use Rattle.command_line.specs.DatabaseFault.{HasDatabaseFault};
ghost use Rattle.command_line.specs.DatabaseOption.{takes_value};
ghost use Rattle.command_line.specs.DatabaseWords.{IsMerge, IsReport, command_text, merge_values, report_values, value_words};
ghost use Rattle.command_line.specs.GivenWords.{HasRead};
ghost use Rattle.command_line.specs.LcovWords.{IsLcov, lcov_values};
ghost use Rattle.command_line.specs.PointWords.{IsExclude, IsRestore, point_values};
ghost use Rattle.command_line.specs.RankWords.{IsRank, rank_values};
ghost use Rattle.command_line.specs.WordsLeft.{left_words};
ghost use Rattle.command_line.specs.declared.database_command.DatabaseCommand.TheVariants.{Exclude, Lcov, Merge, Rank, Report, Restore};

use crate::given_words::GivenWords;
use crate::value_form::is_database_name;
use crate::words_left::WordsLeft;
use crate::{
    DatabaseCommand, DatabaseOption, LcovWords, MergeWords, PointWords, RankWords, ReportWords,
    UsageFault,
};

/// Reads the words that are left after `merge`.
pub(crate) fn read_merge<'a>(left: &mut WordsLeft<'a>) -> Result<MergeWords<'a>, UsageFault<'a>>
    ensures merge { IfOk result (λ merge. IsMerge (codes "merge" ∷ left_words left.old) (merge_values merge)) }
    ensures fault { IfErr result (λ fault. HasDatabaseFault Merge (codes "merge" ∷ left_words left.old) fault) }
{
    let given = read_words(DatabaseCommand::Merge, left)?;
    match given.merge_words() {
        Ok(merge) => Ok(merge),
        Err(word) => Err(UsageFault::Missing(word)),
    }
}

/// Reads the words that are left after `report`.
pub(crate) fn read_report<'a>(left: &mut WordsLeft<'a>) -> Result<ReportWords<'a>, UsageFault<'a>>
    ensures report { IfOk result (λ report. IsReport (codes "report" ∷ left_words left.old) (report_values report)) }
    ensures fault { IfErr result (λ fault. HasDatabaseFault Report (codes "report" ∷ left_words left.old) fault) }
{
    let given = read_words(DatabaseCommand::Report, left)?;
    match given.report_words() {
        Ok(report) => Ok(report),
        Err(word) => Err(UsageFault::Missing(word)),
    }
}

/// Reads the words that are left after `lcov`.
pub(crate) fn read_lcov<'a>(left: &mut WordsLeft<'a>) -> Result<LcovWords<'a>, UsageFault<'a>>
    ensures lcov { IfOk result (λ lcov. IsLcov (codes "lcov" ∷ left_words left.old) (lcov_values lcov)) }
    ensures fault { IfErr result (λ fault. HasDatabaseFault Lcov (codes "lcov" ∷ left_words left.old) fault) }
{
    let given = read_words(DatabaseCommand::Lcov, left)?;
    match given.lcov_words() {
        Ok(lcov) => Ok(lcov),
        Err(word) => Err(UsageFault::Missing(word)),
    }
}

/// Reads the words that are left after `rank`.
pub(crate) fn read_rank<'a>(left: &mut WordsLeft<'a>) -> Result<RankWords<'a>, UsageFault<'a>>
    ensures rank { IfOk result (λ rank. IsRank (codes "rank" ∷ left_words left.old) (rank_values rank)) }
    ensures fault { IfErr result (λ fault. HasDatabaseFault Rank (codes "rank" ∷ left_words left.old) fault) }
{
    let given = read_words(DatabaseCommand::Rank, left)?;
    match given.rank_words() {
        Ok(rank) => Ok(rank),
        Err(word) => Err(UsageFault::Missing(word)),
    }
}

/// Reads the words that are left after `exclude`.
pub(crate) fn read_exclude<'a>(left: &mut WordsLeft<'a>) -> Result<PointWords<'a>, UsageFault<'a>>
    ensures exclude { IfOk result (λ points. IsExclude (codes "exclude" ∷ left_words left.old) (point_values points)) }
    ensures fault { IfErr result (λ fault. HasDatabaseFault Exclude (codes "exclude" ∷ left_words left.old) fault) }
{
    let given = read_words(DatabaseCommand::Exclude, left)?;
    match given.point_words() {
        Ok(points) => Ok(points),
        Err(word) => Err(UsageFault::Missing(word)),
    }
}

/// Reads the words that are left after `restore`.
pub(crate) fn read_restore<'a>(left: &mut WordsLeft<'a>) -> Result<PointWords<'a>, UsageFault<'a>>
    ensures restore { IfOk result (λ points. IsRestore (codes "restore" ∷ left_words left.old) (point_values points)) }
    ensures fault { IfErr result (λ fault. HasDatabaseFault Restore (codes "restore" ∷ left_words left.old) fault) }
{
    let given = read_words(DatabaseCommand::Restore, left)?;
    match given.point_words() {
        Ok(points) => Ok(points),
        Err(word) => Err(UsageFault::Missing(word)),
    }
}

/// Reads the words that are left after the name of the command.
fn read_words<'a>(
    command: DatabaseCommand,
    left: &mut WordsLeft<'a>,
) -> Result<GivenWords<'a>, UsageFault<'a>>
    ensures read { IfOk result (λ given. HasRead command (command_text command ∷ left_words left.old) [] given) }
    ensures fault { IfErr result (λ fault. HasDatabaseFault command (command_text command ∷ left_words left.old) fault) }
{
    let mut given = GivenWords::none(*left);
    while let Some(word) = left.next_word() {
        let Some(option) = command.option_named(word) else {
            if !is_database_name(word) || !command.has_room(given.has_no_file()) {
                return Err(UsageFault::UnknownWord(word));
            }
            given.add_file(word, *left);
            continue;
        };
        if !given.has_room_for(option) {
            return Err(UsageFault::GivenTwice(word));
        }
        let Some(value) = value_behind(option, left) else {
            return Err(UsageFault::NeedsValue(word));
        };
        if !option.accepts(value) {
            return Err(UsageFault::BadValue(value));
        }
        given.set(option, value);
    }
    Ok(given)
}

/// The value of an option that was read. One that takes no value has the empty one.
fn value_behind<'a>(option: DatabaseOption, left: &mut WordsLeft<'a>) -> Option<&'a str>
    ensures value { IfSome result (λ value. left_words left.old ≡ value_words option value.now ++ left_words left.new) }
    ensures empty { IfSome result (λ value. takes_value option ≡ false → value.now ≡ []) }
    ensures none { IfNone result (IsTrue (takes_value option) × (left_words left.old ≡ [])) }
{
    if option.takes_value() {
        left.next_word()
    } else {
        Some("")
    }
}
