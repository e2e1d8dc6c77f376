// Read and Pack on small files and drafts, with answers worked by hand.
#![tactic(auto)]

#[cfg(test)]
mod tests;
