//! Laws of the server.

ghost use Rattle.std.specs.Prelude.{ℕ, ◌≡◌, List};
ghost use Rattle.sql_types.specs.declared.journal.JournalItem.{JournalItem};
ghost use Rattle.spec_model.specs.Journals.{serial};
ghost use Rattle.spec_model.specs.Script.{Reading};
ghost use Rattle.spec_ledger.specs.Ledger.{block_hash};
ghost use Rattle.spec_protocol.specs.StandTogether.{History};
ghost use Rattle.format_image.specs.Image.{image_of};
ghost use Rattle.format_image.specs.ImageBytes.{image_bytes};
ghost use Rattle.spec_protocol.specs.Cells.{Cell};
ghost use Rattle.spec_protocol.specs.Seats.{SeatState};
ghost use Rattle.spec_protocol.specs.Server.{Server, journal_image};
ghost use Rattle.spec_protocol.specs.StandTogether.{Stands};
ghost use Rattle.law_server.specs.CellsImage.{cells_image, tables_in_cells};
ghost use Rattle.spec_protocol.specs.Serves.{Serves};

/// For every grammar and every hash there is a server that reads and hashes so.
pub fn there_is_such_a_server()
    ensures { (h : List ℕ → List ℕ) (reads : Reading) → (v : Server) × Serves h reads v }
{}

/// Its blocks are hashed as the ledger of its journal says, and the images that it keeps have the bytes of
/// its journal's image.
pub fn such_a_server_hashes_and_keeps_so()
    ensures blocks { (h : List ℕ → List ℕ) (reads : Reading) (v : Server) → Serves h reads v
        → (J : List JournalItem) (b : ℕ) → v.hashing.hash J b ≡ block_hash h reads J b }
    ensures images { (h : List ℕ → List ℕ) (reads : Reading) (v : Server) → Serves h reads v
        → (database : List ℕ) (J : List JournalItem)
        → journal_image v database J ≡ image_bytes (image_of h reads database J) }
{}

/// What lies in cells that stand together with seats, without what isn't committed, is the tables to which
/// the journal in their ledger's cell leads, and its image is that of the journal; and the image that the
/// server keeps has its bytes.
pub fn cells_have_the_image_of_their_journal()
    ensures tables { (v : Server) (history : History) (cells : List Cell) (seats : List SeatState)
        → (st : Stands v history cells seats)
        → tables_in_cells cells st.catalog st.ledger ≡ serial v.reads st.ledger.items }
    ensures image { (v : Server) (history : History) (cells : List Cell) (seats : List SeatState)
        → (st : Stands v history cells seats)
        → cells_image cells st.catalog st.ledger
        ≡ image_of v.hash v.reads st.ledger.database st.ledger.items }
    ensures bytes { (v : Server) (history : History) (cells : List Cell) (seats : List SeatState)
        → (st : Stands v history cells seats)
        → journal_image v st.ledger.database st.ledger.items
        ≡ image_bytes (cells_image cells st.catalog st.ledger) }
{}
