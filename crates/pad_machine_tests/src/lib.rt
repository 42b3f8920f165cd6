//! Steps that are told twice, and commands that are run apart from the pad: tests of `pad_machine` over its public
//! calls. They stand apart from it, so that they are proved without proving it once more.
#![tactic(auto)]

#[cfg(test)]
mod tests;
