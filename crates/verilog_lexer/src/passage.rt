ghost use Rattle.std.specs.Prelude.{◌≡◌, ◌≤◌, true, false, length, drop, slice_index, is_none, IfSome};
ghost use Rattle.verilog_lexer.specs.Run.{none_closes};
ghost use Rattle.verilog_lexer.specs.Spot.{IsInRange};

use crate::condition::Conditions;
use crate::run::{front, line_length, tail, through_quote};
use crate::spot::Spot;
use cov_host::Place;

/// What is left of a text: where it begins, and, for a file, the open conditions of what is round it.
#[derive(Drop)]
pub(crate) struct Passage<'a> {
    pub(crate) text: &'a [u8],
    pub(crate) spot: Spot,
    pub(crate) ending: Option<Conditions>,
    /// So many bytes at the front are known to have no quote that is closed on its line.
    pub(crate) unclosed: usize,
    ghost in_range: { IsInRange spot (length text.now) },
    ghost none_closes: { none_closes unclosed text.now ≡ true },
}

impl<'a> Passage<'a> {
    ghost use Rattle.verilog_lexer.specs.ReadingView.{passage_view};
    ghost use Rattle.verilog_lexer.specs.Run.{through_quote};
    ghost use Rattle.verilog_lexer.specs.Stand.{advanced};

    /// Whether the text is that of a macro.
    pub(crate) fn is_macro_text(&self) -> bool
        ensures { result ≡ is_none (passage_view self.now).ending }
    {
        match &self.ending {
            Some(_) => false,
            None => true,
        }
    }

    /// Passes over the first bytes of the text.
    pub(crate) fn advance(&mut self, length: usize)
        ensures { passage_view self.new ≡ advanced length (passage_view self.old) }
    {
        let passed = front(self.text, length);
        let spot = self.spot.after_all(passed);
        let text = tail(self.text, length);
        self.spot = spot;
        self.text = text;
        self.unclosed = self.unclosed.saturating_sub(length);
    }

    /// How many bytes there are after the quote at the front up to the end of the one that closes it on its line. Where
    /// none does, no later quote of the line is closed either, and the line is not gone through again.
    pub(crate) fn through_quote(&mut self) -> Option<usize>
        requires { slice_index self.old.text.now 0 ≡ 34 }
        ensures value { result ≡ through_quote 0 false (drop 1 self.old.text.now) }
        ensures within { IfSome result (λ n. n ≤ length self.old.text.now) }
        ensures same { passage_view self.new ≡ passage_view self.old }
    {
        if self.unclosed > 0 {
            return None;
        }
        match through_quote(tail(self.text, 1)) {
            Some(length) => Some(length),
            None => {
                self.unclosed = line_length(self.text);
                None
            }
        }
    }
}

impl Default for Passage<'_> {
    fn default() -> Self {
        Passage {
            text: &[],
            spot: Spot {
                place: Place {
                    source: 0,
                    line: 0,
                    column: 0,
                },
                inside: true,
            },
            ending: None,
            unclosed: 0,
        }
    }
}
