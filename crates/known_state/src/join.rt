ghost use Rattle.std.specs.Prelude.{◌≡◌, length, IsTrue};
ghost use Rattle.four_state.specs.Vector.{Vector};
ghost use Rattle.known_state.specs.Partly.{allows, with_blame};
ghost use Rattle.known_state.specs.Agreed.{sure as sure_list};
ghost use Rattle.known_state.specs.Join.{joined, first_blame as first_to_blame};

use crate::Known;
use four_state::Four;

impl Known {
    /// What two vectors of equal widths have in common, with the sign of the first: sure where both are sure and
    /// agree. So all that one of them allows is allowed. The blame is for what is not sure then.
    pub fn join(&self, other: &Known, blame: u32) -> Known
        requires { length self.now.bits ≡ length other.now.bits }
        ensures value { result ≡ with_blame (joined self.now.bits other.now.bits) self.now.signed blame }
        ensures left { (v : Vector) → IsTrue (allows self.now v) → IsTrue (allows result v) }
        ensures right { self.now.signed ≡ other.now.signed → (v : Vector) → IsTrue (allows other.now v) → IsTrue (allows result v) }
    {
        let (a, b) = (self.value(), other.value());
        let different = (a.ones() ^ b.ones()) | (a.strange() ^ b.strange());
        Known::kept(&a, self.sure() & other.sure() & !different, blame)
    }

    /// What a vector has in common with one that is whole.
    pub(crate) fn narrowed(&self, other: Four, blame: u32) -> Known
        requires { length self.now.bits ≡ length other.bits }
        ensures { result ≡ with_blame (joined self.now.bits (sure_list other.bits)) self.now.signed blame }
    {
        self.join(&Known::whole(other), blame)
    }

    /// The blame of the first of two vectors that is not whole.
    pub(crate) fn first_blame(a: &Known, b: &Known) -> u32
        ensures { result ≡ first_to_blame a.now b.now }
    {
        if a.is_whole() { b.blame() } else { a.blame() }
    }
}
