ghost use Rattle.std.specs.Prelude.{◌≡◌, ◌≢◌, ◌++◌, [], ◌∷◌, All, IfErr, IfOk, None, OnErr, OnOk, length, map};
ghost use Rattle.command_line.specs.RankWords.{rank_values};
ghost use Rattle.cov_host.specs.Outside.{KeepsFiles};
ghost use Rattle.coverage_db.specs.Table.{IsTable};
ghost use Rattle.test_ranking.specs.Hits.{hits_of};
ghost use Rattle.test_ranking.specs.Print.{ranking_text};
ghost use Rattle.test_ranking.specs.Ranking.{IsRanking};
ghost use Rattle.whole_files.specs.Effects.{CountsUp, OnlyReads};
ghost use Rattle.database_commands.specs.Complete.{NoFaults};
ghost use Rattle.database_commands.specs.Faults.{IsEarly, IsTableFault};
ghost use Rattle.database_commands.specs.Files.{HoldsTable};
ghost use Rattle.database_commands.specs.Ranking.{AreHitsOf, IsGoodRank, IsJoined, IsRankFault, IsRankedIn, IsRankedText, IsTextOfRanking, ranked_files};
ghost use Rattle.database_commands.specs.Reporting.{LeavesFront};

use crate::CommandFault;
use crate::files::{print, read_table};
use crate::merge::join;
use command_line::RankWords;
use cov_host::{Host, NoMemory, Text};
use coverage_db::Db;
use std::alloc::Global;
use test_ranking::{HitSet, rank, ranking_text};

/// Prints the ranking of the databases of a `rank` command. All files are read, in the order of the words, before a
/// difference of their designs is reported.
pub fn run_rank<'a, H: Host>(
    alloc: Global,
    words: &RankWords<'a>,
    host: &mut H,
) -> Result<(), CommandFault<'a>>
    ensures done { OnOk result (IsRankedIn (rank_values words.now) (H.outside host.old) (H.outside host.new)) }
    ensures fault { IfErr result (IsRankFault (rank_values words.now) (H.outside host.old) (H.outside host.new)) }
    ensures complete { IfErr result (λ fault. IsGoodRank (rank_values words.now) (H.outside host.old) → NoFaults (H.outside host.old) (H.outside host.new) → fault ≡ CommandFault.Memory) }
    ensures left { OnErr result (LeavesFront (IsRankedText (rank_values words.now) (H.outside host.old)) None (H.outside host.old) (H.outside host.new)) }
    ensures unprinted { IfErr result (λ fault. IsEarly fault → (H.outside host.new).printed ≡ (H.outside host.old).printed) }
    ensures files { KeepsFiles (H.outside host.old) (H.outside host.new) }
    ensures warned { (H.outside host.new).warned ≡ (H.outside host.old).warned }
    ensures counts { CountsUp (H.outside host.old) (H.outside host.new) }
{
    let sets = read_sets(alloc, words, host)?;
    match text_of(alloc, words, &sets, sets[0].points()) {
        Ok(text) => print(host, &text),
        Err(NoMemory) => Err(CommandFault::Memory),
    }
}

/// The points of the tables of the files that are hit.
fn read_sets<'a, H: Host>(
    alloc: Global,
    words: &RankWords<'a>,
    host: &mut H,
) -> Result<Vec<HitSet>, CommandFault<'a>>
    ensures hits { IfOk result (λ sets. AreHitsOf (rank_values words.now) (H.outside host.old) sets.items) }
    ensures fault { IfErr result (IsRankFault (rank_values words.now) (H.outside host.old) (H.outside host.new)) }
    ensures effects { OnlyReads (H.outside host.old) (H.outside host.new) }
{
    let mut sets = Vec::new(alloc);
    let first = read_set(alloc, host, words.first, &mut sets)?;
    let mut joined = Ok(first);
    let mut others = words.others;
    while let Some(file) = others.next_file() {
        let other = read_set(alloc, host, file, &mut sets)?;
        joined = join_next(alloc, joined, &other, file);
    }
    match joined {
        Ok(_table) => Ok(sets),
        Err(fault) => Err(fault),
    }
}

/// Reads the table of a file, and adds the set of its points that are hit.
fn read_set<'a, H: Host>(
    alloc: Global,
    host: &mut H,
    file: &'a str,
    sets: &mut Vec<HitSet>,
) -> Result<Db, CommandFault<'a>>
    ensures table { IfOk result (HoldsTable (H.outside host.old) file.now) }
    ensures sets { IfOk result (λ table. sets.new.items ≡ sets.old.items ++ hits_of table ∷ []) }
    ensures fault { IfErr result (IsTableFault file.now (H.outside host.old) (H.outside host.new)) }
    ensures effects { OnlyReads (H.outside host.old) (H.outside host.new) }
{
    let table = read_table(alloc, host, file)?;
    match add_set(alloc, sets, &table) {
        Ok(()) => Ok(table),
        Err(NoMemory) => Err(CommandFault::Memory),
    }
}

/// Adds the set of the points of a table that are hit.
fn add_set(alloc: Global, sets: &mut Vec<HitSet>, table: &Db) -> Result<(), NoMemory>
    requires { IsTable table.now }
    ensures { OnOk result (sets.new.items ≡ sets.old.items ++ hits_of table.now ∷ []) }
{
    let set = HitSet::of(alloc, table)?;
    sets.push(set)?;
    Ok(())
}

/// The merge of the tables before this one with this one, unless one of those was of another design.
fn join_next<'a>(
    alloc: Global,
    joined: Result<Db, CommandFault<'a>>,
    other: &Db,
    file: &'a str,
) -> Result<Db, CommandFault<'a>>
    requires table { IfOk joined IsTable }
    requires other { IsTable other.now }
    ensures joined { IfOk joined.entry (λ table. IsJoined table other.now file.now result) }
    ensures kept { IfErr joined.entry (λ fault. result ≡ joined.entry) }
{
    match joined {
        Ok(table) => join(alloc, table, other, file),
        Err(fault) => Err(fault),
    }
}

/// The text of the ranking of tables of `points` points, where these are the sets of the points that are hit.
fn text_of(
    alloc: Global,
    words: &RankWords<'_>,
    sets: &[HitSet],
    points: u32,
) -> Result<Text, NoMemory>
    requires { All (λ set. length set ≡ points) sets.now }
    ensures { IfOk result (IsTextOfRanking (ranked_files (rank_values words.now)) points sets.now) }
{
    let files = files_of(alloc, words)?;
    let ranking = rank(alloc, sets, points)?;
    ranking_text(alloc, &files, &ranking)
}

/// The files of the words, in their order.
fn files_of<'a>(alloc: Global, words: &RankWords<'a>) -> Result<Vec<&'a str>, NoMemory>
    ensures { IfOk result (λ files. map (λ file. file.now) files.items ≡ ranked_files (rank_values words.now)) }
{
    let mut files = Vec::new(alloc);
    files.push(words.first)?;
    let mut others = words.others;
    while let Some(file) = others.next_file() {
        files.push(file)?;
    }
    Ok(files)
}
