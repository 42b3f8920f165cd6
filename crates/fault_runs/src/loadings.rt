//! Calls of a loading that fail, and calls of an import over a disk that fails calls of its own.

use crate::run::{SOUND, run, run_anew};
use crate::table::Table;
use disk_core::{Calls, FlakyDisk, MemDisk};
use std::alloc::{AllocError, Global};

/// The first boot fails, and RESET loads.
const BOOT: &str = "\
boot
open 1
submit 1 0 init
auto
submit 1 0 reset
auto
";

const BOOT_PRINTED: &str = "\
> boot / failed 0
> open 1
< 1 told open
> submit 1 0 init
< 1 request 1
> begin
> finish
< 1 ended 1 HARDWAREERROR
> submit 1 0 reset
< 1 request 2
> begin
> finish / loaded 0 first
< 1 ended 2 OK
";

/// The calls that the flaky disk fails: the second of the first import, the first of the next one, and the read of the
/// second RESET.
const FAILS: [u32; 3] = [4, 7, 9];

/// Calls 1 and 2 are those of the boot, 5 and 6 those of the first RESET.
const IMPORTS: &str = "\
boot
open 1
submit 1 0 import PPK clear 0000000000000000 0002 none
auto
submit 1 0 reset
auto
submit 1 0 import PPK clear 0000000000000000 0002 none
auto
submit 1 0 reset
auto
submit 1 0 reset
auto
submit 1 0 import PPK clear 0000000000000000 0002 none
auto
";

const IMPORTS_PRINTED: &str = "\
> boot / loaded 0 first
> open 1
< 1 told open
> submit 1 0 import PPK clear 0000000000000000 0002 none
< 1 request 1
> begin
> finish / failed 0
< 1 ended 1 HARDWAREERROR
> submit 1 0 reset
< 1 request 2
> begin
> finish / loaded 0 old
< 1 ended 2 OK
> submit 1 0 import PPK clear 0000000000000000 0002 none
< 1 request 3
> begin
> finish / failed 0
< 1 ended 3 HARDWAREERROR
> submit 1 0 reset
< 1 request 4
> begin
> finish / failed 0
< 1 ended 4 HARDWAREERROR
> submit 1 0 reset
< 1 request 5
> begin
> finish / loaded 0 old
< 1 ended 5 OK
> submit 1 0 import PPK clear 0000000000000000 0002 none
< 1 request 6
> begin
> finish / done
< 1 ended 6 OK key -
";

/// The table of a first boot of which each call fails.
pub fn boots(alloc: Global) -> Result<Table, AllocError> {
    let mut table = Table::named(alloc, "a fault in each call of the first boot");
    for call in 1..=2 {
        let script = format!(in alloc; "fail {call}\n{BOOT}")?;
        let outcome = run_anew(alloc, script.as_str())?;
        let name = format!(in alloc; "fail {call}")?;
        table.compare(name.as_str(), outcome.is_ended(0, BOOT_PRINTED), &outcome)?;
    }
    Ok(table)
}

/// The table of imports over a disk that fails three calls.
pub fn flaky_imports(alloc: Global) -> Result<Table, AllocError> {
    let mut table = Table::named(alloc, "imports over a flaky disk");
    let Some(fails) = Calls::of(&FAILS) else {
        return Ok(table);
    };
    let mut disk = FlakyDisk::new(MemDisk::new(), fails);
    let outcome = run(alloc, IMPORTS.as_bytes(), SOUND, &mut disk)?;
    let is_wanted = outcome.is_ended(0, IMPORTS_PRINTED);
    table.compare("calls 4, 7 and 9 fail", is_wanted, &outcome)?;
    Ok(table)
}
