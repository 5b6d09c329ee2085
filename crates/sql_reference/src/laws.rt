//! Laws of running an item of a journal again.

ghost use Rattle.std.specs.Prelude.{ℕ, ◌≡◌, ◌<◌, Bool, List, [], map, length};
ghost use Rattle.sql_types.specs.declared.journal.JournalItem.TheVariants.{Tx};
ghost use Rattle.spec_model.specs.Catalog.{Tables};
ghost use Rattle.spec_model.specs.Events.{all_events};
ghost use Rattle.spec_model.specs.Journals.{Line, AgreesWith};
ghost use Rattle.spec_model.specs.Replies.{reply_text};
ghost use Rattle.spec_model.specs.Runs.{Sound};
ghost use Rattle.spec_model.specs.Script.{Reading, script};
ghost use Rattle.sql_reference.specs.Again.{IsFirst};
ghost use Rattle.sql_reference.specs.Order.{IsNew};
ghost use Rattle.sql_reference.specs.RunEnd.{run_end};
ghost use Rattle.sql_reference.specs.declared.serial_machine.ReplayAgreement.TheVariants.{Agrees, Differs};

/// Tables that are sound for a transaction that hasn't begun have no event of it. Legal journals lead to such
/// tables for each transaction that they don't have.
pub fn sound_tables_have_no_event()
    ensures { (tx : ℕ) (tables : Tables) → Sound tx 0 tables → IsNew tx tables }
{}

/// A transaction agrees exactly where a legal journal may have it: its kept replies are those of its script
/// over the tables before it, and the script left an event.
pub fn run_agrees_with_legal_items()
    ensures there { (reads : Reading) (tables : Tables) (id : ℕ) (session : List ℕ)
        (time : ℕ) (explicit : Bool) (lines : List Line)
        → run_end reads tables (Tx id session time explicit lines) ≡ Agrees
        → AgreesWith reads tables id explicit lines (script reads explicit tables id (map (λ l. l.0) lines)) }
    ensures back { (reads : Reading) (tables : Tables) (id : ℕ) (session : List ℕ)
        (time : ℕ) (explicit : Bool) (lines : List Line)
        → AgreesWith reads tables id explicit lines (script reads explicit tables id (map (λ l. l.0) lines))
        → run_end reads tables (Tx id session time explicit lines) ≡ Agrees }
{}

/// Where a transaction differs, the statement that is named is the first whose kept reply isn't the script's.
/// Where the script's length is named all replies agree, and no event is left.
pub fn differs_names_the_first()
    ensures first { (reads : Reading) (tables : Tables) (id : ℕ) (session : List ℕ)
        (time : ℕ) (explicit : Bool) (lines : List Line) (statement : ℕ)
        → run_end reads tables (Tx id session time explicit lines) ≡ Differs statement
        → statement < length lines
        → IsFirst statement lines (script reads explicit tables id (map (λ l. l.0) lines)).replies }
    ensures none { (reads : Reading) (tables : Tables) (id : ℕ) (session : List ℕ)
        (time : ℕ) (explicit : Bool) (lines : List Line)
        → run_end reads tables (Tx id session time explicit lines) ≡ Differs (length lines)
        → (map (λ l. l.1) lines
        ≡ map reply_text (script reads explicit tables id (map (λ l. l.0) lines)).replies)
        × (all_events id (script reads explicit tables id (map (λ l. l.0) lines)).state.tables ≡ []) }
{}
