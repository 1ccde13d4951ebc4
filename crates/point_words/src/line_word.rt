ghost use Rattle.std.specs.Prelude.{◌≡◌};
ghost use Rattle.point_words.specs.Words.{line_word_text, line_word_of};

/// The kind of the statement of a line point (IEEE 1364-2001 clause 9).
#[derive(Clone, Copy, PartialEq, Eq)]
pub enum LineWord {
    If,
    /// `case`, `casez` or `casex`.
    Case,
    For,
    /// A blocking or nonblocking assignment.
    Assign,
}

impl LineWord {
    /// All kinds.
    pub const ALL: [LineWord; 4] = [
        LineWord::If,
        LineWord::Case,
        LineWord::For,
        LineWord::Assign,
    ];

    /// The word of the database text.
    pub fn text(self) -> &'static str
        ensures { result.now ≡ line_word_text self }
    {
        match self {
            LineWord::If => "if",
            LineWord::Case => "case",
            LineWord::For => "for",
            LineWord::Assign => "assign",
        }
    }

    /// The kind that a word of the database text names.
    #[tactic(auto, unfolding(crate::specs::Words::line_word_of))]
    pub fn of_text(text: &[u8]) -> Option<Self>
        ensures { result ≡ line_word_of text.now }
    {
        for word in &LineWord::ALL {
            if word.text().as_bytes() == text {
                return Some(*word);
            }
        }
        None
    }
}
