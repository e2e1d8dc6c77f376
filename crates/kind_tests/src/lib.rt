// Tests of tones, plans and quantisers on values worked by hand. They have a crate of their own, since a crate with tests is proved twice.
#![tactic(auto)]

#[cfg(test)]
mod plans;
#[cfg(test)]
mod quantisers;
#[cfg(test)]
mod tones;
