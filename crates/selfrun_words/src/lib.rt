//! The words of the command that scores the two files of a selfrun.
//!
//! ```text
//! let words = score_words(alloc)?; // score -t selfrun -i selfrun -v selfrun.v -vcd selfrun.vcd -o selfrun.db
//! let score = score_of(&words);
//! ```
#![tactic(auto)]

ghost use Rattle.std.specs.Prelude.{◌≡◌, IfOk};
ghost use Rattle.command_line.specs.CommandWords.{HaveForms, IsScore, score_values};
ghost use Rattle.selfrun_words.specs.Score.{score_in_words, selfrun_score};

use command_line::{Command, ScoreWords, read_command};
use cov_host::{NoMemory, Words};
use selfrun_files::{DUMP_NAME, SOURCE_NAME};
use std::alloc::Global;

/// The words. The database that they name is not written.
pub fn score_words(alloc: Global) -> Result<Words, NoMemory>
    ensures { IfOk result (λ words. words ≡ score_in_words) }
{
    let mut words = Words::new(alloc);
    words.push("score")?;
    words.push("-t")?;
    words.push("selfrun")?;
    words.push("-i")?;
    words.push("selfrun")?;
    words.push("-v")?;
    words.push(SOURCE_NAME)?;
    words.push("-vcd")?;
    words.push(DUMP_NAME)?;
    words.push("-o")?;
    words.push("selfrun.db")?;
    Ok(words)
}

/// What the words say.
pub fn score_of<'a>(words: &'a Words) -> ScoreWords<'a>
    requires { words.now ≡ score_in_words }
    ensures values { score_values result ≡ selfrun_score }
    ensures forms { HaveForms (score_values result) }
{
    match read_command(words) {
        Ok(Command::Score(score)) => score,
        Ok(_) => unreachable!(),
        Err(_) => unreachable!(),
    }
}

/// They are words of a score.
pub fn score_law()
    ensures { IsScore score_in_words selfrun_score }
{}
