// The texts of statements, by their number.
ghost use Rattle.std.specs.Prelude.{◌≡◌, ◌<◌, ◌^◌, ◌+◌, ◌*◌, ◌/◌, ◌%◌, IfOk, string_bytes};
ghost use Rattle.workload_generator.specs.Workload as spec;

use std::alloc::{AllocError, Global};

/// The statement of the setup that makes a table.
pub(crate) fn create_text(alloc: Global, table: u8) -> Result<String, AllocError>
    ensures { IfOk result (λ text. string_bytes text ≡ spec.create_text table) }
{
    format!(in alloc; "CREATE TABLE t{table} (id INT PRIMARY KEY, v BIGINT)")
}

/// The name of the session of a table.
pub(crate) fn session_name(alloc: Global, table: u8) -> Result<String, AllocError>
    ensures { IfOk result (λ text. string_bytes text ≡ spec.session_name table) }
{
    format!(in alloc; "s{table}")
}

fn value_of(table: u8, row: u64) -> u64
    requires few { row < 2 ^ 40 }
    ensures { result ≡ spec.value_of table row }
{
    (31 * row + table as u64) % 1000
}

fn insert_text(alloc: Global, table: u8, row: u64) -> Result<String, AllocError>
    requires few { row < 2 ^ 40 }
    ensures { IfOk result (λ text. string_bytes text ≡ spec.insert_text table row) }
{
    let value = value_of(table, row);
    Ok(format!(in alloc; "INSERT INTO t{table} VALUES ({row}, {value})")?)
}

fn update_text(alloc: Global, table: u8, row: u64) -> Result<String, AllocError>
    ensures { IfOk result (λ text. string_bytes text ≡ spec.update_text table row) }
{
    Ok(format!(in alloc; "UPDATE t{table} SET v = v + 1 WHERE id = {row}")?)
}

/// How many statements the session of a table has on so many rows.
pub(crate) fn statement_count(rows: u32) -> u64
    ensures { result ≡ spec.statement_count rows }
{
    let rows = rows as u64;
    rows + rows / 10
}

/// The text of the statement with this number, counted from 0, of the session of a table. It takes the time
/// of the text's length, whatever the number.
#[tactic(auto, unfolding(crate::specs::Workload::nth_text))]
pub(crate) fn nth_text(alloc: Global, table: u8, n: u64) -> Result<String, AllocError>
    requires few { n < 2 ^ 36 }
    ensures { IfOk result (λ text. string_bytes text ≡ spec.nth_text table n) }
{
    let before = n / 11 * 10;
    let place = n % 11;
    if place == 10 {
        update_text(alloc, table, before + 9)
    } else {
        insert_text(alloc, table, before + place)
    }
}
