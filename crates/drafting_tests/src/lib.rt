// The whole way from a PGM to a PBM on small files, with answers worked by hand.
#![tactic(auto)]

#[cfg(test)]
mod tests;
