//! An example of the points that are not hit; there is no code.

ghost use Rattle.cover_marks.specs.Open.{IsOpenExample};

/// How many points of each process are not hit, of three points of two processes and one more.
pub fn open_example()
    ensures { IsOpenExample }
{}
