use verilog_lexer::Defines;

/// What the words of a command say of its sources.
#[derive(Clone, Copy)]
pub struct SourceWords<'a, 'b> {
    /// The name of the top module.
    pub top: &'a str,
    /// The files, in the order in which they are read.
    pub files: &'b [&'a str],
    /// The folder in which included files lie.
    pub folder: Option<&'a str>,
    /// The macros that are defined before the first file.
    pub defines: &'b Defines,
}
