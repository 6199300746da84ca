// Tests of the streams, as another crate meets them.
#![tactic(auto)]

#[cfg(test)]
mod tests;
