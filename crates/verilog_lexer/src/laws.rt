//! What is true of the tokens of any sources.
ghost use Rattle.std.specs.Prelude.{◌≡◌, List, [], Ok, All};
ghost use Rattle.verilog_lexer.specs.Defines.{DefineText};
ghost use Rattle.verilog_lexer.specs.Reading.{tokens_of};
ghost use Rattle.verilog_lexer.specs.Sources.{SourceText};
ghost use Rattle.verilog_lexer.specs.Spot.{PlacesRise, PlacesStay};
ghost use Rattle.verilog_lexer.specs.TokenPlaces.{AreReadInTurn};
ghost use Rattle.verilog_lexer.specs.TokenTexts.{IsTextOf, AreSound};
ghost use Rattle.verilog_lexer.specs.Tokens.{Lexeme};

/// Tokens that come from one reading of a source outside of macros have rising places, since each comes
/// after the bytes of those before it. What comes from a macro has the place where the outermost macro is used.
pub fn places_rise()
    ensures rise { PlacesRise }
    ensures stay { PlacesStay }
{}

/// The place of a token is that of its text in its source, after the text of the token before it in the same reading of
/// the file, or, if it comes from a macro, where the macro is used. An included file is a reading of its own.
pub fn tokens_stand()
    ensures { (sources : List SourceText) (defines : List DefineText) (tokens : List Lexeme) → tokens_of sources defines ≡ Ok tokens → AreReadInTurn sources 1 tokens }
{}

/// The text of each token is a part of a source, or of the text of a macro that was defined before.
pub fn texts_are_parts()
    ensures { (sources : List SourceText) (defines : List DefineText) (tokens : List Lexeme) → tokens_of sources defines ≡ Ok tokens → All (λ token. IsTextOf sources defines token.text) tokens }
{}

/// A name is an identifier, a keyword is reserved, and a number makes a literal that fits.
pub fn tokens_are_sound()
    ensures { (sources : List SourceText) (defines : List DefineText) (tokens : List Lexeme) → tokens_of sources defines ≡ Ok tokens → AreSound [] tokens }
{}
