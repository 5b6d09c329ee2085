//! Each call of the cell is one of the visits of a table's cell, or a part of one.

ghost use Rattle.std.specs.Prelude.{ℕ, ◌≡◌, ◌∷◌, ◌+◌, [], Bool, Err, List, None, Ok, Some, false, length, true};
ghost use Rattle.sql_value.specs.declared.refusal.Refusal.{Refusal};
ghost use Rattle.sql_value.specs.declared.refusal.Refusal.TheVariants.{NoMemory};
ghost use Rattle.sql_types.specs.declared.lock.Hold.{Hold};
ghost use Rattle.sql_types.specs.declared.lock.LockRequest.{LockRequest};
ghost use Rattle.sql_types.specs.declared.reply.Reply.{Reply};
ghost use Rattle.sql_types.specs.declared.reply.Reply.TheVariants as reply;
ghost use Rattle.sql_types.specs.declared.statement.RowStmt.{RowStmt};
ghost use Rattle.sql_types.specs.declared.statement.Select.{Select};
ghost use Rattle.sql_types.specs.declared.statement.Stmt.TheVariants as stmt;
ghost use Rattle.sql_types.specs.declared.table.TableDef.{TableDef};
ghost use Rattle.spec_history.specs.Transactions.{committed, ended};
ghost use Rattle.spec_model.specs.Catalog.{NamedPart};
ghost use Rattle.spec_model.specs.Changes.{Change, changed_all, row_changes};
ghost use Rattle.spec_model.specs.Checks.{row_statement_check};
ghost use Rattle.spec_model.specs.Effect.{query_rows};
ghost use Rattle.spec_model.specs.Keys.{key_places};
ghost use Rattle.spec_model.specs.Locks.{query_requests, row_requests};
ghost use Rattle.spec_model.specs.Query.{query_check};
ghost use Rattle.spec_model.specs.Rows.{Row};
ghost use Rattle.spec_protocol.specs.Answering.{refused_by_check};
ghost use Rattle.spec_protocol.specs.Cells.{TableCell as SpecCell, cell_of};
ghost use Rattle.spec_protocol.specs.Doing.{done, events_from, grown, stage_refused, Stopped};
ghost use Rattle.spec_protocol.specs.Moves.{at_place, noting, releasing, sits, then_at, visiting, InOpenTransaction};
ghost use Rattle.spec_protocol.specs.Seats.{going_back, made, OpenTransaction, SeatState, Session};
ghost use Rattle.spec_protocol.specs.Server.{Server};
ghost use Rattle.spec_protocol.specs.TableVisits as visits;
ghost use Rattle.spec_protocol.specs.TableVisits.{requests_here, with_holds, with_indexes, with_versions, Found};
ghost use Rattle.spec_protocol.specs.UndoVisits as undoing;
ghost use Rattle.spec_protocol.specs.UndoVisits.{index_dropped, refused_def, undone_to, undone_unless, unlocked, Unreleased};
ghost use Rattle.spec_model.specs.Holds.{holds_after};
ghost use Rattle.spec_model.specs.InTheWay.{first_conflict};
ghost use Rattle.store_table.specs.Calls.{LocksTaken, RowsRead};

/// To change rows is the visit of INSERT, UPDATE and DELETE.
pub fn changing_is_a_visit()
    ensures { (v : Server) (c d : SpecCell) (s t : SeatState) (o : OpenTransaction) (named : NamedPart) (fresh : Bool)
        (at : Found v c s o named fresh) (row : RowStmt) (changes : List Change) (count : ℕ)
        → at.at.stands.stmt ≡ stmt.Change row → row_statement_check (named.0 ∷ []) row ≡ Ok named.0
        → first_conflict c.holds o.id (row_requests named.0 row) ≡ None
        → row_changes named.0 c.versions row ≡ Ok (changes, count)
        → d ≡ with_holds (holds_after c.holds o.id (row_requests named.0 row))
        (with_versions (key_places named.0.columns) (changed_all o.id o.seq changes c.versions) c)
        → t ≡ done s at.at.stands (noting (o.seq + length changes)
        (grown c.id (events_from o.id o.seq c.id d.versions) o.trees) (visiting (cell_of c.id) o))
        (reply.Changed count)
        → visits.ChangesRows v c s d t }
{}

/// To be refused by rows is the visit that is refused by them.
pub fn refusing_is_a_visit()
    ensures { (v : Server) (c d : SpecCell) (s t : SeatState) (o : OpenTransaction) (named : NamedPart) (fresh : Bool)
        (at : Found v c s o named fresh) (row : RowStmt) (e : Refusal)
        → at.at.stands.stmt ≡ stmt.Change row → row_statement_check (named.0 ∷ []) row ≡ Ok named.0
        → row_changes named.0 c.versions row ≡ Err e → LocksTaken c o.id (row_requests named.0 row) d
        → t ≡ done s at.at.stands (visiting (cell_of c.id) o) (reply.Refused e)
        → visits.RefusesRows v c s d t }
{}

/// To read, or to be refused by the rows that are read, is the visit of SELECT.
pub fn reading_is_a_visit()
    ensures shown { (v : Server) (c d : SpecCell) (s t : SeatState) (o : OpenTransaction) (named : NamedPart)
        (fresh : Bool) (at : Found v c s o named fresh) (q : Select) (rows : List Row)
        → at.at.stands.stmt ≡ stmt.Select q → query_check (named.0 ∷ []) q ≡ Ok named
        → RowsRead c o.id (query_requests named q) named q rows d
        → t ≡ done s at.at.stands (visiting (cell_of c.id) o) (reply.Rows rows)
        → visits.ReadsRows v c s d t }
    ensures refused { (v : Server) (c d : SpecCell) (s t : SeatState) (o : OpenTransaction) (named : NamedPart)
        (fresh : Bool) (at : Found v c s o named fresh) (q : Select) (e : Refusal)
        → at.at.stands.stmt ≡ stmt.Select q → query_check (named.0 ∷ []) q ≡ Ok named
        → query_rows q named c.versions ≡ Err e → LocksTaken c o.id (query_requests named q) d
        → t ≡ done s at.at.stands (visiting (cell_of c.id) o) (reply.Refused e)
        → visits.ReadsRows v c s d t }
{}

/// To meet a lock, or to lack memory, is the visit that stops, which leaves the cell.
pub fn stopping_is_a_visit()
    ensures stops { (v : Server) (c : SpecCell) (s t : SeatState) (o : OpenTransaction) (named : NamedPart) (fresh : Bool)
        (at : Found v c s o named fresh) (r : Reply)
        → refused_by_check (Some named) at.at.stands.stmt ≡ None
        → Stopped c.holds o.id (requests_here named at.at.stands.stmt) r
        → t ≡ then_at s at.at.stands (Some o) (stage_refused fresh r) → visits.StopsInTable v c s t }
    ensures memory { (holds : List Hold) (id : ℕ) (requests : List LockRequest)
        → Stopped holds id requests (reply.Refused NoMemory) }
{}

/// To add an index is the visit of CREATE INDEX in its table's cell.
pub fn adding_an_index_is_a_visit()
    ensures { (v : Server) (c d : SpecCell) (s t : SeatState) (o : OpenTransaction) (at : InOpenTransaction v s o)
        (def : TableDef) → at.stands.stage ≡ made def false → def.id ≡ c.id → d ≡ with_indexes def c
        → t ≡ then_at s at.stands (Some (visiting (cell_of c.id) o)) (made def true)
        → visits.AddsIndex v c s d t }
{}

/// To undo to a number is the visit on the way back to a savepoint.
pub fn undoing_is_a_visit()
    ensures { (v : Server) (c d : SpecCell) (s t : SeatState) (o : OpenTransaction) (at : InOpenTransaction v s o)
        (seq : ℕ) (rest : List ℕ) → at.stands.stage ≡ going_back seq (cell_of c.id ∷ rest)
        → d ≡ undone_to o.id seq c → t ≡ then_at s at.stands (Some o) (going_back seq rest)
        → undoing.UndoesTo v c s d t }
{}

/// After the end is fixed, to undo what isn't committed, to drop the index of a refused CREATE INDEX, and to
/// drop the locks is the visit that releases the cell.
pub fn releasing_is_a_visit()
    ensures releases { (c d : SpecCell) (s t : SeatState) (x : Session) (o : OpenTransaction)
        → Unreleased s (cell_of c.id) x o
        → d ≡ unlocked o.id (index_dropped (refused_def x.place) (undone_unless o.end o.id c))
        → t ≡ sits s (at_place (Some (releasing (cell_of c.id) o)) x.place x)
        → undoing.ReleasesTable c s d t }
    ensures committed { (n tx : ℕ) (c : SpecCell) → undone_unless (committed n) tx c ≡ c }
    ensures ended { (n tx : ℕ) (back : Bool) (c : SpecCell) → undone_unless (ended n back) tx c ≡ undone_to tx 0 c }
    ensures none_refused { (c : SpecCell) → index_dropped None c ≡ c }
{}
