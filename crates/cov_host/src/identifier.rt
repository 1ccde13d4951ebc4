ghost use Rattle.std.specs.Prelude.{◌≡◌};
ghost use Rattle.std.specs.List.{list_all, list_any};
ghost use Rattle.std.specs.Str.{bytes_eq};
ghost use Rattle.cov_host.specs.Identifier.{is_reserved, is_identifier, has_name_form, begins_name, continues_name};

/// The reserved words of the language that the profile knows (IEEE 1364-2001 annex B), in byte order.
#[rattlefmt::skip]
pub const KEYWORDS: [&str; 74] = [
    "always", "and", "assign", "begin", "buf", "bufif0", "bufif1", "case", "casex", "casez",
    "deassign", "default", "defparam", "disable", "else", "end", "endcase", "endfunction",
    "endgenerate", "endmodule", "endprimitive", "endspecify", "endtask", "event", "for",
    "force", "forever", "fork", "function", "generate", "genvar", "if", "initial", "inout",
    "input", "integer", "join", "localparam", "module", "nand", "negedge", "nor", "not",
    "notif0", "notif1", "or", "output", "parameter", "posedge", "primitive", "real", "realtime",
    "reg", "release", "repeat", "signed", "specify", "supply0", "supply1", "task", "time",
    "tri", "tri0", "tri1", "triand", "trior", "trireg", "wait", "wand", "while", "wire", "wor",
    "xnor", "xor",
];

/// The longest identifier, in bytes.
const LONGEST: usize = 255;

/// Whether the word is a reserved word of the language (IEEE 1364-2001 clause 2.7.3).
pub fn is_keyword(word: &[u8]) -> bool
    ensures { result ≡ is_reserved word.now }
{
    is_among(&KEYWORDS, word)
}

/// Whether the word is one of the texts.
fn is_among(texts: &[&str], word: &[u8]) -> bool
    ensures { result ≡ list_any (λ text. bytes_eq text.now word.now) texts.now }
{
    texts.iter().any(|text| text.as_bytes() == word)
}

/// Whether the word is an identifier of at most 255 bytes (IEEE 1364-2001 clause 2.7), and no keyword.
pub fn is_identifier(word: &[u8]) -> bool
    ensures { result ≡ is_identifier word.now }
{
    has_name_form(word) && word.len() <= LONGEST && !is_keyword(word)
}

/// Whether the word has the form of an identifier, keywords and long ones included.
pub fn has_name_form(word: &[u8]) -> bool
    ensures { result ≡ has_name_form word.now }
{
    match word {
        [] => false,
        [first, others @ ..] => begins_name(*first) && all_continue(others),
    }
}

/// Whether an identifier may go on with each of the bytes.
fn all_continue(bytes: &[u8]) -> bool
    ensures { result ≡ list_all continues_name bytes.now }
{
    bytes.iter().all(|byte| continues_name(*byte))
}

/// Whether an identifier may begin with the byte: a letter or an underscore.
pub fn begins_name(byte: u8) -> bool
    ensures { result ≡ begins_name byte }
{
    byte.is_ascii_alphabetic() || byte == b'_'
}

/// Whether an identifier may go on with the byte: a letter, a digit, an underscore or a dollar sign.
pub fn continues_name(byte: u8) -> bool
    ensures { result ≡ continues_name byte }
{
    begins_name(byte) || byte.is_ascii_digit() || byte == b'$'
}
