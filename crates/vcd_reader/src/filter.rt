ghost use Rattle.std.specs.Prelude.{◌≡◌};
ghost use Rattle.vcd_reader.specs.Hearing.{hears};
ghost use Rattle.vcd_reader.specs.Wanted.{is_wanted};

/// Of which codes the changes are heard.
#[derive(Clone, Copy)]
pub(crate) enum Filter<'a> {
    All,
    /// Those whose number has a true here.
    Only(&'a [bool]),
}

impl Filter<'_> {
    /// Whether the changes of the code with this number are heard.
    pub(crate) fn hears(self, code: u32) -> bool
        ensures { result ≡ hears self.entry code }
    {
        match self {
            Filter::All => true,
            Filter::Only(wanted) => is_wanted(wanted, code as usize),
        }
    }
}

/// Whether there is a true at this place.
fn is_wanted(wanted: &[bool], place: usize) -> bool
    ensures { result ≡ is_wanted wanted.now place }
{
    match wanted.get(place) {
        Some(is_wanted) => *is_wanted,
        None => false,
    }
}
