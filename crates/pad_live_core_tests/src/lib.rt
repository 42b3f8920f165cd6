//! Whole runs of lane scripts on threads: tests of `pad_live_core` over its public calls. They stand apart from it, so
//! that they are proved without proving it once more.
#![tactic(auto)]

#[cfg(test)]
mod tests;
