//! What is true of the files of any design.
ghost use Rattle.std.specs.Prelude.{◌≡◌, ℕ, List, IsSome, IsTrue, Option};
ghost use Rattle.cov_host.specs.Outside.{Outside};
ghost use Rattle.verilog_lexer.specs.Defines.{DefineText};
ghost use Rattle.verilog_lexer.specs.Piece.{is_file_name};
ghost use Rattle.verilog_lexer.specs.Sources.{SourceText};
ghost use Rattle.source_files.specs.Files.{AreSources, Lacks};

/// The name of an included file that sources lack has one or more bytes, from 32 to 126.
pub fn missing_names_are_printable()
    ensures { (sources : List SourceText) (defines : List DefineText) (name : List ℕ) → Lacks sources defines name → IsTrue (is_file_name name) }
{}

/// Where the files of the host are known, the files that words name have one list of sources.
pub fn one_list()
    ensures { (before : Outside) (names : List (List ℕ)) (folder : Option (List ℕ)) (defines : List DefineText) (sources others : List SourceText) → IsSome before.files → AreSources before names folder defines sources → AreSources before names folder defines others → sources ≡ others }
{}
