ghost use Rattle.std.specs.Prelude.{◌≡◌, ◌∷◌, [], ◌++◌, OnOk, IfOk, IfSome, IfNone, length};
ghost use Rattle.work_pool.specs.Rows.{Pops, Columns};

use std::alloc::{AllocError, Global};
use std::marker::Model;

/// A row of items, of which the last can be taken.
#[derive(Drop)]
pub(crate) struct Row<A> {
    items: Vec<A>,
}

impl<A> Model for Row<A> {
    ghost use Rattle.std.specs.Prelude.{List};

    ghost Value = { List A };

    ghost view = { λ row. row.items.items };
}

impl<A: Drop> Row<A> {
    pub(crate) fn of(items: Vec<A>) -> Row<A>
        ensures { result ≡ items.items }
    {
        Row { items }
    }

    fn pop(&mut self) -> Option<A>
        ensures some { IfSome result (λ item. self.old ≡ self.new ++ item ∷ []) }
        ensures none { IfNone result ((self.old ≡ []) × (self.new ≡ [])) }
    {
        self.items.pop()
    }
}

/// Adds a row of these items.
pub(crate) fn push_row<A: Drop>(rows: &mut Vec<Row<A>>, items: Vec<A>) -> Result<(), AllocError>
    ensures { OnOk result (rows.new.items ≡ rows.old.items ++ items.items ∷ []) }
{
    rows.push(Row::of(items))?;
    Ok(())
}

/// Moves the last item of a row, unless it is the own, onto a column.
fn pop_row<A: Drop>(
    row: &mut Row<A>,
    i: usize,
    own: usize,
    column: &mut Vec<A>,
) -> Result<(), AllocError>
    ensures { OnOk result ((popped : _) × (column.new.items ≡ column.old.items ++ popped)
        × Pops own i row.old row.new popped) }
{
    if i == own {
        return Ok(());
    }
    if let Some(item) = row.pop() {
        column.push(item)?;
    }
    Ok(())
}

/// Takes the last item of each row but the own.
pub(crate) fn take_column<A: Drop>(
    alloc: Global,
    rows: &mut Vec<Row<A>>,
    own: usize,
) -> Result<Vec<A>, AllocError>
    ensures { IfOk result (λ column. Columns own 0 rows.old.items rows.new.items column.items) }
{
    let mut column = Vec::new(alloc);
    for i in 0..rows.len() {
        pop_row(&mut rows[i], i, own, &mut column)?;
    }
    Ok(column)
}
