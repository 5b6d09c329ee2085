//! Laws of the ledger's cell under a server that hashes as it does.

ghost use Rattle.std.specs.Prelude.{ℕ, suc, ◌≡◌, ◌≤◌, None};
ghost use Rattle.sql_types.specs.declared.reply.Reply.TheVariants as reply;
ghost use Rattle.sql_types.specs.declared.statement.Stmt.TheVariants as stmt;
ghost use Rattle.spec_model.specs.Journals.{tx_count};
ghost use Rattle.spec_history.specs.Digests.{IsDigest};
ghost use Rattle.spec_protocol.specs.Digests.{digest_of};
ghost use Rattle.spec_protocol.specs.Cells.{LedgerCell as SpecCell, pending_in};
ghost use Rattle.spec_protocol.specs.LedgerIsLegal.{LedgerIsLegal};
ghost use Rattle.spec_protocol.specs.LedgerVisits.{closed_by, all_closed, next_block, Closes, Issues};
ghost use Rattle.spec_protocol.specs.Moves.{InStatement, marking, sits, at_moment, at_place};
ghost use Rattle.spec_protocol.specs.Seats.{SeatState, inside, begun, answering};
ghost use Rattle.spec_protocol.specs.Server.{Server};
ghost use Rattle.store_ledger.specs.declared.cell.IssuedDigest.{IssuedDigest};
ghost use Rattle.store_ledger.specs.Issues.{IsIssued};

/// However many blocks are closed of what is pending, a legal cell stays legal.
pub fn closings_keep_the_ledger_legal()
    ensures { (v : Server) (n : ℕ) (c : SpecCell)
        → LedgerIsLegal v c → LedgerIsLegal v (all_closed v.hash n c) }
{}

/// As long as something is pending, each of these closings is a visit, and the others come behind it.
pub fn closings_are_visits_one_by_one()
    ensures first { (v : Server) (c : SpecCell) → 1 ≤ pending_in c
        → Closes v (next_block c) c (closed_by v.hash (next_block c) c) }
    ensures others { (v : Server) (n : ℕ) (c : SpecCell) → 1 ≤ pending_in c
        → all_closed v.hash (suc n) c ≡ all_closed v.hash n (closed_by v.hash (next_block c) c) }
{}

/// The digest that a legal cell issues is one of its journal, once all is closed: that of the newest block.
pub fn issued_digests_are_of_the_journal()
    ensures meaning { (v : Server) (made : ℕ) (c d : SpecCell) (issued : IssuedDigest)
        → LedgerIsLegal v c → (i : IsIssued v.hash made c issued d)
        → IsDigest v.meaning c.database (all_closed v.hash (pending_in c) c).items i.digest }
    ensures digest { (v : Server) (made : ℕ) (c d : SpecCell) (issued : IssuedDigest)
        → LedgerIsLegal v c → (i : IsIssued v.hash made c issued d)
        → i.digest ≡ digest_of v.hash v.reads c.database (all_closed v.hash (pending_in c) c).items
        issued.block made }
{}

/// So to issue a digest is the visit of a seat that is asked for one and shows its block and its hash.
pub fn issuing_is_a_visit()
    ensures { (v : Server) (made : ℕ) (c d : SpecCell) (issued : IssuedDigest) (s t : SeatState)
        → LedgerIsLegal v c → IsIssued v.hash made c issued d
        → (stands : InStatement v s) → stands.stage ≡ begun → stands.x.open_one ≡ None
        → stands.stmt ≡ stmt.Digest
        → t ≡ marking (tx_count c.items) (sits s (at_moment made (at_place None
        (inside stands.text (answering (reply.Digest issued.block issued.hash) None)) stands.x)))
        → Issues v made c s d t }
{}
