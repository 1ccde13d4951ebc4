//! Theorems of the places in the modules that tokens spell, and of how many parts they have; there is no code.
//!
//! Each statement, and each node of an expression in a process, begins at a token ([`places_law`]). A module has no more
//! line points and counted nodes than there are tokens ([`counts_law`]), so that they can be numbered in 32 bits
//! ([`countable_law`]).
#![tactic(auto)]

ghost use Rattle.std.specs.Prelude.{◌≡◌, ◌≤◌, ◌+◌, List, length};
ghost use Rattle.design_model.specs.Design.{In};
ghost use Rattle.flat_design.specs.Scope.{Scope};
ghost use Rattle.parsed_modules.specs.Spelled.{AreModules};
ghost use Rattle.tree_places.specs.Counted.{AreCountable, joined_nodes, module_joined, module_lines, module_nodes};
ghost use Rattle.tree_places.specs.Example.{chosen, front, nothing, signals, test, whole};
ghost use Rattle.tree_places.specs.Placed.{ArePlacedModules, IsPlacedBody, IsTokenPlace};
ghost use Rattle.verilog_lexer.specs.Tokens.{Lexeme};
ghost use Rattle.verilog_tree.specs.Tree.{Module};

/// Each statement and each node of the processes of modules begins at one of the tokens that spell them.
pub fn places_law()
    ensures { (tokens : List Lexeme) (ms : List Module) → AreModules tokens ms → ArePlacedModules (IsTokenPlace tokens) ms }
{}

/// The line points and the counted nodes of a module, those of its connections too, are together no more than the
/// tokens, whatever its names mean.
pub fn counts_law()
    ensures { (tokens : List Lexeme) (ms : List Module) (m : Module) (g : Scope) → AreModules tokens ms → In m ms → module_lines m + module_nodes g m + module_joined g m ≤ length tokens }
{}

/// The line points and the counted nodes of modules of at most 4,194,304 tokens can be numbered in 32 bits.
pub fn countable_law()
    ensures { (tokens : List Lexeme) (ms : List Module) → AreModules tokens ms → length tokens ≤ 4194304 → AreCountable ms }
{}

/// A statement begins at the tokens of its text, and not at those before the last name alone.
pub fn places_example()
    ensures placed { IsPlacedBody (IsTokenPlace whole) test }
    ensures refused { IsPlacedBody (IsTokenPlace front) test → ⊥ }
{}

/// A port that is joined to `b ? b : b` has one counted node where `b` is a signal, and none where it means nothing.
pub fn joined_example()
    ensures counted { joined_nodes signals chosen ≡ 1 }
    ensures uncounted { joined_nodes nothing chosen ≡ 0 }
{}
