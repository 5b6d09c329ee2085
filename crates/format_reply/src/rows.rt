//! The lines of rows.

ghost use Rattle.std.specs.Prelude.{◌≡◌, ◌++◌, ◌∷◌, [], OnOk, IfOk, length, string_bytes};
ghost use Rattle.sql_value.specs.Printed.{printed};
ghost use Rattle.spec_model.specs.Replies as spec;
ghost use Rattle.format_reply.specs.Lines.{behind_bars, line_of, lines_of};
ghost use Rattle.format_reply.specs.Shown.{row_text};

use crate::escape::escaped;
use crate::utf8::shows_utf8;
use base_types::Memory;
use sql_scalar::print;
use sql_types::Row;
use sql_value::Value;
use std::alloc::Global;

/// Appends a value as it is shown. What `scratch` holds is lost.
fn push_value(value: &Value, scratch: &mut Vec<u8>, text: &mut String) -> Result<(), Memory>
    ensures { OnOk result (string_bytes text.new ≡ string_bytes text.old ++ printed value.now) }
{
    scratch.clear();
    print(value, scratch)?;
    shows_utf8(value);
    let shown = std::str::from_utf8(scratch.as_slice()).unwrap();
    text.push_str(shown)?;
    Ok(())
}

/// Appends values, each behind a vertical bar.
fn push_behind_bars(
    values: &[Value],
    scratch: &mut Vec<u8>,
    text: &mut String,
) -> Result<(), Memory>
    ensures { OnOk result (string_bytes text.new ≡ string_bytes text.old ++ behind_bars values.now) }
{
    for value in values {
        text.push_str("|")?;
        push_value(value, scratch, text)?;
    }
    Ok(())
}

/// Appends the values of a row, joined by vertical bars.
fn push_joined(row: &[Value], scratch: &mut Vec<u8>, text: &mut String) -> Result<(), Memory>
    ensures { OnOk result (string_bytes text.new ≡ string_bytes text.old ++ spec.row_line row.now) }
{
    if let [first, rest @ ..] = row {
        push_value(first, scratch, text)?;
        push_behind_bars(rest, scratch, text)?;
    }
    Ok(())
}

/// How lines are written: behind an indent, and the text of a row with or without escapes.
#[derive(Clone, Copy)]
pub(crate) struct LineForm<'a> {
    pub indent: &'a str,
    pub escapes: bool,
}

/// Appends the text of a row.
fn push_row_text(
    alloc: Global,
    escapes: bool,
    row: &[Value],
    scratch: &mut Vec<u8>,
    text: &mut String,
) -> Result<(), Memory>
    ensures { OnOk result (string_bytes text.new ≡ string_bytes text.old ++ row_text escapes row.now) }
{
    if !escapes {
        return push_joined(row, scratch, text);
    }
    let mut line = String::new(alloc);
    push_joined(row, scratch, &mut line)?;
    text.push_str(escaped(alloc, line.as_str())?.as_str())?;
    Ok(())
}

/// Appends the line of a row.
#[tactic(auto, unfolding(crate::specs::Lines::line_of))]
fn push_row(
    alloc: Global,
    form: &LineForm<'_>,
    row: &[Value],
    scratch: &mut Vec<u8>,
    text: &mut String,
) -> Result<(), Memory>
    ensures { OnOk result (string_bytes text.new
        ≡ string_bytes text.old ++ line_of form.now.indent.now form.now.escapes row.now) }
{
    text.push_str(form.indent)?;
    push_row_text(alloc, form.escapes, row, scratch, text)?;
    text.push_str("\n")?;
    Ok(())
}

/// Appends a line for each row.
fn push_rows(
    alloc: Global,
    form: &LineForm<'_>,
    rows: &[Row],
    text: &mut String,
) -> Result<(), Memory>
    ensures { OnOk result (string_bytes text.new
        ≡ string_bytes text.old ++ lines_of form.now.indent.now form.now.escapes rows.now) }
{
    let mut scratch = Vec::new(alloc);
    for row in rows {
        push_row(alloc, form, row.as_slice(), &mut scratch, text)?;
    }
    Ok(())
}

/// A line for each row, and then the count of the rows.
pub(crate) fn rows_with_count(
    alloc: Global,
    form: &LineForm<'_>,
    rows: &[Row],
) -> Result<String, Memory>
    ensures { IfOk result (λ text.
        string_bytes text ≡ lines_of form.now.indent.now form.now.escapes rows.now
        ++ (form.now.indent.now ++ spec.count_line (length rows.now) ++ 10 ∷ [])) }
{
    let mut text = String::new(alloc);
    push_rows(alloc, form, rows, &mut text)?;
    let indent = form.indent;
    let count = rows.len();
    let last = format!(in alloc; "{indent}{count} rows\n")?;
    text.push_str(last.as_str())?;
    Ok(text)
}
