//! The power is cut in each call of the disk that INITIALIZATION makes.

use crate::run::run_anew;
use crate::table::Table;
use std::alloc::{AllocError, Global};

/// Three keys are imported.
const IMPORTS: &str = "\
boot
open 1
listen 1 service
submit 1 0 import K1 clear 0000000000000000 0002 none
auto
submit 1 0 import K2 clear 0000000000000000 0002 none
auto
submit 1 0 import K3 clear 0000000000000000 0002 none
auto
submit 1 0 init
begin
";

const IMPORTS_PRINTED: &str = "\
> boot / loaded 0 first
> open 1
< 1 told open
> listen 1 service
< 1 told listening service
> submit 1 0 import K1 clear 0000000000000000 0002 none
< 1 request 1
> begin
> finish / done
< 1 ended 1 OK key -
> submit 1 0 import K2 clear 0000000000000000 0002 none
< 1 request 2
> begin
> finish / done
< 1 ended 2 OK key -
> submit 1 0 import K3 clear 0000000000000000 0002 none
< 1 request 3
> begin
> finish / done
< 1 ended 3 OK key -
> submit 1 0 init
< 1 request 4
> begin
";

/// What becomes of bytes that are not synced, and whether the byte that selects a record then selects the empty one.
/// The records of the keys were selected by an odd byte.
const KEEPS: [(&str, bool); 4] = [
    ("fill 76", true),
    ("fill 77", false),
    ("new", true),
    ("old", false),
];

/// The thirteenth call is the first of the next boot.
const NO_CALL: &str = "cut 13 fill 76\nfinish\noff\nboot\nboot\n";

const NO_CALL_PRINTED: &str = "\
> finish / done
< 1 ended 4 OK
< 1 event INITIALIZED
> off
> boot / cut 0
> boot / loaded 0 old
";

/// The table of three keys that are erased.
pub fn erasures(alloc: Global) -> Result<Table, AllocError> {
    let mut table = Table::named(alloc, "a power cut in each call of INITIALIZATION");
    for (keep, is_taken) in KEEPS {
        for erased in 0..3 {
            for call in 1..=4 {
                cut_erasure(
                    alloc,
                    &mut table,
                    (erased, call),
                    keep,
                    is_taken && call > 2,
                )?;
            }
        }
    }
    let script = format!(in alloc; "{IMPORTS}{NO_CALL}")?;
    let printed = format!(in alloc; "{IMPORTS_PRINTED}{NO_CALL_PRINTED}")?;
    let outcome = run_anew(alloc, script.as_str())?;
    table.compare(
        "cut 13 fill 76",
        outcome.is_ended(0, printed.as_str()),
        &outcome,
    )?;
    Ok(table)
}

// So many keys are erased whole, and the power is cut in this call of the next erasure, after which its record is the
// empty one or the old one.
fn cut_erasure(
    alloc: Global,
    table: &mut Table,
    (erased, call): (u32, u32),
    keep: &str,
    is_empty: bool,
) -> Result<(), AllocError> {
    let number = erased.saturating_mul(4).saturating_add(call);
    let cut = format!(in alloc; "cut {number} {keep}")?;
    let fate = if is_empty { "new" } else { "old" };
    let left = 3_u32
        .saturating_sub(erased)
        .saturating_sub(u32::from(is_empty));
    let script = format!(in alloc; "{IMPORTS}{cut}\nfinish\nboot\n")?;
    let printed = format!(in alloc;
        "{IMPORTS_PRINTED}> finish / cut {erased}\n< 1 ended 4 CONNECTIONLOST\n> boot / loaded {left} {fate}\n"
    )?;
    let outcome = run_anew(alloc, script.as_str())?;
    table.compare(
        cut.as_str(),
        outcome.is_ended(0, printed.as_str()),
        &outcome,
    )
}
