//! A SELECT over the rows of a part.

ghost use Rattle.spec_model.specs.Lists.{sorted};
ghost use Rattle.spec_model.specs.Query as spec;
ghost use Rattle.sql_select.specs.Answers.{ItemsMatchUnlessOom};

use crate::filtering::taken;
use crate::ordering::ordered;
use crate::showing::apply_select_list;
use sql_parts::Columns;
use sql_types::{Row, Select};
use sql_value::Refusal;
use std::alloc::Global;

/// What a SELECT shows of the rows of a part with these columns, of which `*` shows the first so many without the
/// dropped ones, which are given by their ordinals: the rows that the condition takes, sorted by ORDER BY, and of each
/// the columns that are to be shown, or of all their count and sums. NumberOutOfRange comes exactly where the condition
/// leaves the numbers' range in a row, or else where a sum does after one of the rows; TypeMismatch where classes don't
/// agree, so never after `check_select` over rows that fit; NoMemory for want of memory alone. Takes one evaluation of
/// the condition for each row, comparisons as the stable sort of `std`, and a pass over what is left; only values that
/// named columns show are copied.
#[tactic(auto, unfolding(spec_model::specs::Query::selected))]
pub fn select(
    alloc: Global,
    q: &Select,
    columns: &Columns,
    dropped: &[u16],
    shown: usize,
    rows: Vec<Row>,
) -> Result<Vec<Row>, Refusal>
    ensures { ItemsMatchUnlessOom (spec.selected columns.now dropped.now shown q.now rows.items) result }
{
    let taken = taken(alloc, columns, &q.cond, rows)?;
    show_matching(alloc, q, columns, dropped, shown, taken)
}

/// What a SELECT shows of the rows that its condition took.
pub(crate) fn show_matching(
    alloc: Global,
    q: &Select,
    columns: &Columns,
    dropped: &[u16],
    shown: usize,
    taken: Vec<Row>,
) -> Result<Vec<Row>, Refusal>
    ensures { ItemsMatchUnlessOom (spec.apply_select_list columns.now dropped.now shown q.now.what
        (sorted (spec.order_cmp columns.now q.now.order) taken.items)) result }
{
    let ordered = ordered(alloc, columns, q.order.as_slice(), taken)?;
    apply_select_list(alloc, columns, dropped, shown, &q.what, ordered)
}
