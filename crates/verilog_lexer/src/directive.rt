ghost use Rattle.std.specs.Prelude.{◌≡◌};
ghost use Rattle.std.specs.Str.{bytes_eq};
ghost use Rattle.verilog_lexer.specs.Directive.{directive_of, is_passed_over, is_refused, is_use};

/// The compiler directives, and the use of a macro (IEEE 1364-2001 clause 19).
#[derive(Clone, Copy)]
pub(crate) enum Directive {
    Define,
    Undef,
    Ifdef,
    Ifndef,
    Elsif,
    Else,
    Endif,
    Include,
    PassedOver,
    Refused,
    Use,
}

/// Which directive has the name.
#[tactic(auto, unfolding(crate::specs::Directive::directive_of))]
pub(crate) fn directive_of(word: &[u8]) -> Directive
    ensures { result ≡ directive_of word.now }
{
    if is_named(word, "define") {
        Directive::Define
    } else if is_named(word, "undef") {
        Directive::Undef
    } else if is_named(word, "ifdef") {
        Directive::Ifdef
    } else if is_named(word, "ifndef") {
        Directive::Ifndef
    } else if is_named(word, "elsif") {
        Directive::Elsif
    } else if is_named(word, "else") {
        Directive::Else
    } else if is_named(word, "endif") {
        Directive::Endif
    } else if is_named(word, "include") {
        Directive::Include
    } else if is_passed_over(word) {
        Directive::PassedOver
    } else if is_refused(word) {
        Directive::Refused
    } else {
        Directive::Use
    }
}

/// Whether it is the use of a macro.
pub(crate) fn is_use(directive: Directive) -> bool
    ensures { result ≡ is_use directive }
{
    matches!(directive, Directive::Use)
}

/// Whether the directive is passed over to the end of its line.
fn is_passed_over(word: &[u8]) -> bool
    ensures { result ≡ is_passed_over word.now }
{
    is_named(word, "timescale")
        || is_named(word, "default_nettype")
        || is_named(word, "celldefine")
        || is_named(word, "endcelldefine")
        || is_named(word, "resetall")
        || is_named(word, "line")
}

/// Whether the directive changes the meaning of open ports, which is refused.
fn is_refused(word: &[u8]) -> bool
    ensures { result ≡ is_refused word.now }
{
    is_named(word, "unconnected_drive") || is_named(word, "nounconnected_drive")
}

/// Whether the word is the name.
fn is_named(word: &[u8], name: &str) -> bool
    ensures { result ≡ bytes_eq word.now name.now }
{
    word == name.as_bytes()
}
