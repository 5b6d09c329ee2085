//! Each call of the cell is one of the visits of the catalog, or a part of one.

ghost use Rattle.std.specs.Prelude.{ℕ, ◌≡◌, ◌∷◌, ◌+◌, [], Bool, false, Err, List, None, Ok, Some, length, not};
ghost use Rattle.sql_value.specs.declared.refusal.Refusal.{Refusal};
ghost use Rattle.sql_types.specs.declared.lock.Mode.TheVariants.{S, X};
ghost use Rattle.sql_types.specs.declared.reply.Reply.TheVariants as reply;
ghost use Rattle.sql_types.specs.declared.statement.CreateIndex.{CreateIndex};
ghost use Rattle.sql_types.specs.declared.statement.CreateTable.{CreateTable};
ghost use Rattle.sql_types.specs.declared.statement.Select.{Select};
ghost use Rattle.sql_types.specs.declared.statement.Stmt.TheVariants as stmt;
ghost use Rattle.sql_types.specs.declared.table.IndexDef.{IndexDef};
ghost use Rattle.sql_types.specs.declared.table.Part.TheVariants.{System};
ghost use Rattle.sql_types.specs.declared.table.TableDef.{TableDef};
ghost use Rattle.spec_history.specs.Lists.{Text};
ghost use Rattle.spec_history.specs.Transactions.{committed, ended};
ghost use Rattle.spec_model.specs.Alter.{Altered};
ghost use Rattle.spec_model.specs.Catalog.{find_part};
ghost use Rattle.spec_model.specs.Create.{create_check, index_check, with_index};
ghost use Rattle.spec_model.specs.Effect.{query_rows};
ghost use Rattle.spec_model.specs.Locks.{catalog_request, whole};
ghost use Rattle.spec_model.specs.Query.{query_check};
ghost use Rattle.spec_model.specs.SystemTables.{columns_id};
ghost use Rattle.spec_protocol.specs.CatalogVisits as visits;
ghost use Rattle.spec_protocol.specs.CatalogVisits.{alters_in, with_altered, with_altered_leaves, with_new_index, with_system_leaves, with_table, CreateRefused};
ghost use Rattle.spec_protocol.specs.Cells.{CatalogCell as SpecCell, catalog_at, versions_in, Catalog};
ghost use Rattle.spec_protocol.specs.Doing.{done, events_from, grown, rows_reply, Stopped};
ghost use Rattle.spec_protocol.specs.LocksCover.{name_of};
ghost use Rattle.spec_protocol.specs.Moves.{noting, then_at, visiting, InOpenTransaction};
ghost use Rattle.spec_protocol.specs.Seats.{answering, begun, found, made, OpenTransaction, SeatState};
ghost use Rattle.spec_protocol.specs.Server.{Server};
ghost use Rattle.spec_protocol.specs.UndoVisits.{catalog_left};
ghost use Rattle.spec_protocol.specs.RequestsIn.{of_catalog};
ghost use Rattle.store_catalog.specs.Calls.{left, undone, LocksTaken};

/// To lock for S and to look for the statement's name is the visit that looks up.
pub fn looking_up_is_a_visit()
    ensures { (v : Server) (c d : SpecCell) (s t : SeatState) (o : OpenTransaction) (at : InOpenTransaction v s o)
        (name : Text) (fresh : Bool)
        → at.stands.stage ≡ begun → catalog_request o.explicit at.stands.stmt ≡ Some S
        → name_of at.stands.stmt ≡ Some name → LocksTaken c o.id (whole S ∷ []) fresh d
        → t ≡ then_at s at.stands (Some (visiting catalog_at o)) (found (find_part d.defs name) fresh)
        → visits.Looks v c s d t }
{}

/// To lock for S and to read is the visit of a SELECT on a system table that passes its checks.
pub fn reading_is_a_visit()
    ensures { (v : Server) (c d : SpecCell) (s t : SeatState) (o : OpenTransaction) (at : InOpenTransaction v s o)
        (q : Select) (def : TableDef) (fresh : Bool)
        → at.stands.stage ≡ begun → at.stands.stmt ≡ stmt.Select q
        → query_check d.defs q ≡ Ok (def, System) → LocksTaken c o.id (whole S ∷ []) fresh d
        → t ≡ done s at.stands (visiting catalog_at o)
        (rows_reply (query_rows q (def, System) (versions_in def.id (Catalog d))))
        → visits.ReadsSystem v c s d t }
{}

/// To lock for X and to make a table is the visit of CREATE TABLE.
pub fn creating_a_table_is_a_visit()
    ensures { (v : Server) (c l d : SpecCell) (s t : SeatState) (o : OpenTransaction) (at : InOpenTransaction v s o)
        (create : CreateTable) (def : TableDef) (fresh : Bool)
        → at.stands.stage ≡ begun → o.explicit ≡ false → at.stands.stmt ≡ stmt.Create create
        → LocksTaken c o.id (whole X ∷ []) fresh l → create_check l.defs create ≡ Ok def
        → d ≡ with_table o.id o.seq def l.holds l
        → t ≡ done s at.stands (noting (o.seq + 1 + length def.columns)
        (with_system_leaves o.id o.seq d o.trees) (visiting catalog_at o)) reply.Made
        → visits.CreatesTable v c s d t }
{}

/// To lock for X and to make an index is the visit of CREATE INDEX.
pub fn creating_an_index_is_a_visit()
    ensures { (v : Server) (c l d : SpecCell) (s t : SeatState) (o : OpenTransaction) (at : InOpenTransaction v s o)
        (create : CreateIndex) (def : TableDef) (index : IndexDef) (fresh : Bool)
        → at.stands.stage ≡ begun → o.explicit ≡ false → at.stands.stmt ≡ stmt.Index create
        → LocksTaken c o.id (whole X ∷ []) fresh l → index_check l.defs create ≡ Ok (def, index)
        → d ≡ with_new_index o.id o.seq def index l.holds l
        → t ≡ then_at s at.stands (Some (noting (o.seq + length index.ordinals)
        (grown columns_id (events_from o.id o.seq columns_id d.columns) o.trees) (visiting catalog_at o)))
        (made (with_index def index) false)
        → visits.CreatesIndex v c s d t }
{}

/// To lock for X and to alter or drop a table is the visit of ALTER TABLE and of DROP TABLE.
pub fn altering_a_table_is_a_visit()
    ensures { (v : Server) (c l d : SpecCell) (s t : SeatState) (o : OpenTransaction) (at : InOpenTransaction v s o)
        (a : Altered) (fresh : Bool)
        → at.stands.stage ≡ begun → o.explicit ≡ false
        → LocksTaken c o.id (whole X ∷ []) fresh l → alters_in l at.stands.stmt ≡ Some (Ok a)
        → d ≡ with_altered o.id o.seq a l.holds l
        → t ≡ done s at.stands (noting (o.seq + length a.first + length a.second)
        (with_altered_leaves o.id o.seq a.first d o.trees) (visiting catalog_at o)) reply.Made
        → visits.AltersTable v c s d t }
{}

/// To lock for X and to be refused by the checks is the visit of a statement that creates, alters or drops and
/// is refused; the X stays.
pub fn refusing_a_create_is_a_visit()
    ensures { (v : Server) (c d : SpecCell) (s t : SeatState) (o : OpenTransaction) (at : InOpenTransaction v s o)
        (e : Refusal) (fresh : Bool)
        → at.stands.stage ≡ begun → o.explicit ≡ false
        → LocksTaken c o.id (whole X ∷ []) fresh d → CreateRefused d at.stands.stmt e
        → t ≡ done s at.stands (visiting catalog_at o) (reply.Refused e)
        → visits.RefusesCreate v c s d t }
{}

/// Not to get the lock that a statement wants is the visit that stops.
pub fn stopping_is_a_visit()
    ensures { (v : Server) (c : SpecCell) (s t : SeatState) (o : OpenTransaction) (at : InOpenTransaction v s o)
        (e : Refusal) → at.stands.stage ≡ begun
        → Stopped c.holds o.id (of_catalog (catalog_request o.explicit at.stands.stmt)) (reply.Refused e)
        → t ≡ then_at s at.stands (Some o) (answering (reply.Refused e) None)
        → visits.StopsInCatalog v c s t }
{}

/// The release of the catalog after a commit drops the locks; after any other end it undoes what the
/// transaction made before.
pub fn releases_undo_unless_committed()
    ensures committed { (n tx : ℕ) (c : SpecCell) → left tx c ≡ catalog_left (committed n) tx c }
    ensures ended { (n tx : ℕ) (back : Bool) (c : SpecCell)
        → left tx (undone tx c) ≡ catalog_left (ended n back) tx c }
{}
