//! A small database, worked out by the definitions.

ghost use Rattle.std.specs.Prelude.{◌≡◌, map};
ghost use Rattle.format_image.specs.Rows.{filled_table};
ghost use Rattle.law_asof.specs.Samples.{changed, told, told_of_changed, were};

/// The rows behind the last of six transactions tell the tables behind each of them: before a column was added, before
/// one was dropped, before the table was dropped, and afterwards, each with its names and columns of that moment.
pub fn altered_tables_are_told_as_they_were()
    ensures nothing { told 0 ≡ were 0 }
    ensures created { told 1 ≡ were 1 }
    ensures inserted { told 2 ≡ were 2 }
    ensures added { told 3 ≡ were 3 }
    ensures inserted_more { told 4 ≡ were 4 }
    ensures dropped_column { told 5 ≡ were 5 }
    ensures dropped_table { told 6 ≡ were 6 }
{}

/// A third transaction gives a table the other kind by a row, and the image's definition has it too. After the first
/// two the table is told as it was; after all three it has the other kind.
pub fn later_kinds_are_of_later_tables()
    ensures created { told_of_changed 1 ≡ were 1 }
    ensures inserted { told_of_changed 2 ≡ were 2 }
    ensures other_kind { told_of_changed 3 ≡ map filled_table changed }
{}
