//! The laws on when versions start.

ghost use Rattle.std.specs.Prelude.{ℕ, List};
ghost use Rattle.sql_types.specs.declared.journal.JournalItem.{JournalItem};
ghost use Rattle.spec_model.specs.Journals.{serial, IsLegal};
ghost use Rattle.spec_model.specs.Script.{Reading};
ghost use Rattle.law_journal.specs.Serial.{place_in};
ghost use Rattle.law_catalog_time.specs.AfterColumns.{VersionsFollowColumns};
ghost use Rattle.law_catalog_time.specs.AsOfStart.{VersionsRespectColumns};

/// In the tables to which a legal journal leads, each version of a user's table starts after the rows that
/// CREATE TABLE entered in the table of columns for it, by the places of their transactions in the journal and
/// then by number. This holds for any reading of texts.
pub fn legal_versions_start_after_their_columns()
    ensures { (reads : Reading) (items : List JournalItem) → IsLegal reads items
        → VersionsFollowColumns (place_in items) (serial reads items) }
{}

/// In these tables each version of a user's table respects its columns as they were when it started. Where it
/// has a value, a row of the table of columns about that column had started before. Where it has NULL, or no
/// value, the last such row, if there was one, doesn't say NOT NULL.
pub fn legal_versions_respect_their_columns()
    ensures { (reads : Reading) (items : List JournalItem) → IsLegal reads items
        → VersionsRespectColumns (place_in items) (serial reads items) }
{}
