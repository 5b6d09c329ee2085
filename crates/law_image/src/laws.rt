//! Laws of the images of legal journals.

ghost use Rattle.std.specs.Prelude.{ℕ, ◌≡◌, true, List, Some};
ghost use Rattle.sql_types.specs.declared.journal.JournalItem.{JournalItem};
ghost use Rattle.sql_types.specs.declared.statement.Stmt.{Stmt};
ghost use Rattle.sql_types.specs.declared.table.TableDef.{TableDef};
ghost use Rattle.sql_types.specs.Versions.{has_statement};
ghost use Rattle.spec_model.specs.Journals.{IsLegal};
ghost use Rattle.spec_model.specs.Script.{Reading};
ghost use Rattle.law_catalog_rows.specs.IsEncodableDef.{is_encodable_def};
ghost use Rattle.law_catalog_rows.specs.Written.{ReadsWritten};
ghost use Rattle.format_image.specs.DefBytes.{IsDef};
ghost use Rattle.format_image.specs.Image.{image_of};
ghost use Rattle.format_image.specs.ImageBytes.{IsImage, NothingGone};
ghost use Rattle.law_image.specs.Room.{FitsImageFormat};

/// Each definition that rows may spell has a spelling in bytes.
pub fn encoded_definitions_are_encodable()
    ensures { (def : TableDef) → is_encodable_def def ≡ true → IsDef def }
{}

/// Where each statement that is read is one that the grammar may have written, the image of a legal
/// journal has a spelling, as far as its counts, its numbers and its texts have room in the format.
pub fn legal_images_are_encodable()
    ensures { (h : List ℕ → List ℕ) (reads : Reading) (database : List ℕ) (items : List JournalItem)
        → ReadsWritten reads → IsLegal reads items → FitsImageFormat h reads database items
        → IsImage (image_of h reads database items) }
{}

/// Where each statement that is read is one that journals of version 1 have, none drops a table or a column: so
/// an image of a legal journal that has a spelling has one in version 1 too.
pub fn legal_images_have_nothing_gone()
    ensures { (h : List ℕ → List ℕ) (reads : Reading) (database : List ℕ) (items : List JournalItem)
        → ((text : List ℕ) (stmt : Stmt) → reads text ≡ Some stmt → has_statement 1 stmt ≡ true)
        → IsLegal reads items → NothingGone (image_of h reads database items) }
{}
