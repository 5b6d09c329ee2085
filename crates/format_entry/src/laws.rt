//! Laws of the bytes.

ghost use Rattle.std.specs.Prelude.{◌≡◌, ◌++◌, ℕ, List, [], length};
ghost use Rattle.sql_types.specs.declared.entry.TxEntry.{TxEntry};
ghost use Rattle.sql_types.specs.declared.entry.BlockRecord.{BlockRecord};
ghost use Rattle.format_entry.specs.Entry.{IsEntry, entry_bytes};
ghost use Rattle.format_entry.specs.Record.{IsRecord, record_bytes};

/// Equal bytes are of equal entries and of equal records, and no entry's bytes begin another's. All that a
/// digest shows rests on this.
pub fn equal_bytes_are_of_equal_values()
    ensures entries { (e f : TxEntry) → IsEntry e → IsEntry f → entry_bytes e ≡ entry_bytes f → e ≡ f }
    ensures prefix { (e f : TxEntry) (rest : List ℕ) → IsEntry e → IsEntry f
        → entry_bytes e ≡ entry_bytes f ++ rest → rest ≡ [] }
    ensures records { (b c : BlockRecord) → IsRecord b → IsRecord c
        → record_bytes b ≡ record_bytes c → b ≡ c }
    ensures size { (b : BlockRecord) → IsRecord b → length (record_bytes b) ≡ 80 }
{}
