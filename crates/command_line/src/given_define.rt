ghost use Rattle.std.specs.Prelude.{◌≡◌};
ghost use Rattle.command_line.specs.Define.{define_of, define_values};

/// A name that the words of a command define, and its text.
#[derive(Clone, Copy, PartialEq, Eq)]
pub struct GivenDefine<'a> {
    /// The name of a macro.
    pub name: &'a str,
    /// The text of the macro: `1` where the words give none.
    pub text: &'a str,
}

impl<'a> GivenDefine<'a> {
    /// The name and the text of a value: they are parted by the first `=`.
    pub(crate) fn new(value: &'a str) -> Self
        ensures { define_values result ≡ define_of value.now }
    {
        match value.split_once('=') {
            Some((name, text)) => GivenDefine { name, text },
            None => GivenDefine {
                name: value,
                text: "1",
            },
        }
    }
}
