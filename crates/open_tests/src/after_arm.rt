use assignments::Progress;

/// Where the run of a case statement is after an arm (IEEE 1364-2001, clause 9.5).
pub enum AfterArm {
    /// The arm is sure to match, and its body has run. This is then the first read that was not wholly sure.
    Ran(Option<u32>),
    /// The arm is sure not to match, and the next one is asked.
    Next(Progress),
    /// It is not decided whether the arm matches. Its body has run as the first branch, and the next arm is asked in the
    /// second one.
    Open(Progress),
}
