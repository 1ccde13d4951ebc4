//! Grammars as data: rules, what tokens they spell, how they are read, and the theorems of all grammars. There is no
//! code.
//!
//! A rule is a token, a sequence, a choice, a repetition, a phrase that nests, or a value that grows to the left
//! (`specs/Rule.antt`). A grammar that passes the tests of `proofs/Passes.antt`, which compute, has the theorems of
//! `specs/Laws.antt`: what is read is what is spelled, tokens spell at most one tree, each fault is at the first
//! token with which nothing goes on, and the first part that nests too deep is found. [`sums_are_exact`] states them
//! of a small grammar.
#![tactic(auto)]

ghost use Rattle.grammar_rules.specs.Laws.{IsExact};
ghost use Rattle.grammar_rules.specs.Example.{sums, grammar, ReadsTexts};

/// Reading finds exactly what the small grammar of sums spells, and each fault is at the token where it is found.
#[tactic(auto, using(crate::proofs::Example::example_exact, crate::proofs::Example::reads_texts))]
pub fn sums_are_exact()
    ensures laws { IsExact sums grammar }
    ensures texts { ReadsTexts }
{}
