//! A table of runs that are compared.

use crate::run::Outcome;
use std::alloc::{AllocError, Global};

/// A table of runs: its name, how many were compared, and what is told of those that ended otherwise than they must.
#[derive(Drop)]
pub struct Table {
    name: &'static str,
    count: u64,
    told: String,
}

impl Table {
    /// A table of no runs.
    pub fn named(alloc: Global, name: &'static str) -> Table {
        Table {
            name,
            count: 0,
            told: String::new(alloc),
        }
    }

    /// Counts a run, and tells how it ended where that is not as it must be.
    pub fn compare(
        &mut self,
        run: &str,
        is_wanted: bool,
        outcome: &Outcome,
    ) -> Result<(), AllocError> {
        self.count = self.count.saturating_add(1);
        if is_wanted {
            return Ok(());
        }
        let Outcome {
            status,
            line,
            strikes,
            ..
        } = outcome;
        let text = outcome.text();
        writeln!(
            self.told,
            "{run}: status {status}, line {line}, strikes {strikes}, prints\n{text}"
        )
    }

    /// Counts something other than a run, and tells it where it is not as it must be.
    pub fn check(&mut self, what: &str, is_wanted: bool) -> Result<(), AllocError> {
        self.count = self.count.saturating_add(1);
        if is_wanted {
            return Ok(());
        }
        writeln!(self.told, "{what}: not as it must be")
    }

    /// The table's name.
    pub fn name(&self) -> &'static str {
        self.name
    }

    /// How many runs were compared.
    pub fn count(&self) -> u64 {
        self.count
    }

    /// What is told of the runs that ended otherwise, which is nothing where there are none.
    pub fn told(&self) -> &str {
        self.told.as_str()
    }
}
