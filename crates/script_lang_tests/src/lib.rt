//! Lines in and outside the grammar, how a script is cut into them, and what is printed: tests of `script_lang` over its
//! public calls. They stand apart from it, so that they are proved without proving it once more.
#![tactic(auto)]

#[cfg(test)]
mod lanes;
#[cfg(test)]
mod lines;
#[cfg(test)]
mod words;
