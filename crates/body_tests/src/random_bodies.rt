//! Tests of bodies that look random. Each is run on all values too that the partly known ones allow, and what all of these
//! runs have in common is compared with what is said of the partly known ones.

mod bodies;
mod random;
mod spots;
mod starts;
mod tests;
mod trials;
