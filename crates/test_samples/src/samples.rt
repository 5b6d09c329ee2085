//! Worked examples: what small statements do.

ghost use Rattle.std.specs.Prelude.{◌≡◌, ℕ, Option};
ghost use Rattle.std.specs.Prelude.{◌+◌, pos, negsuc, true, false, [], ◌∷◌, ◌++◌, codes, Some, None, replicate, map, Err};
ghost use Rattle.sql_value.specs.declared.value.Value.TheVariants as val;
ghost use Rattle.sql_value.specs.declared.value.Value.TheVariants.{Null, Num, Text};
ghost use Rattle.sql_value.specs.declared.column.TableKind.TheVariants.{AppendOnly, Updatable};
ghost use Rattle.sql_value.specs.declared.sql_type.SqlType.TheVariants.{Bit, Int, BigInt, NVarChar, Decimal, Date};
ghost use Rattle.sql_value.specs.declared.expr.Expr.TheVariants.{Lit};
ghost use Rattle.sql_value.specs.Conversion.{conversion_of};
ghost use Rattle.sql_value.specs.Day.{civil, number_of};
ghost use Rattle.sql_types.specs.declared.statement.Stmt.TheVariants as s;
ghost use Rattle.sql_types.specs.declared.statement.Select.{Select};
ghost use Rattle.sql_types.specs.declared.statement.Alter.TheVariants.{Add, DropColumn};
ghost use Rattle.sql_types.specs.declared.statement.RowStmt.TheVariants.{Insert, Delete, Update};
ghost use Rattle.sql_types.specs.declared.reply.Reply.TheVariants as r;
ghost use Rattle.sql_value.specs.declared.refusal.Refusal.TheVariants.{NameConflict, NoSuchColumn, NullNotAllowed, DuplicateKey, NumberOutOfRange, ReadOnlyTable, KeyNotUpdatable, LimitExceeded, ValueCountMismatch};
ghost use Rattle.sql_types.specs.declared.statement.SelectList.TheVariants.{All, Columns, Aggs};
ghost use Rattle.sql_types.specs.declared.statement.Agg.TheVariants.{Count, Sum};
ghost use Rattle.sql_types.specs.declared.lock.Mode.TheVariants.{S, X};
ghost use Rattle.spec_model.specs.Locks.{catalog_request, cell_requests, clash, of_key, whole};
ghost use Rattle.sql_types.specs.declared.lock.Mode.TheVariants.{IX};
ghost use Rattle.spec_model.specs.Catalog.{defs_of};
ghost use Rattle.spec_model.specs.Where.{key_fixed};
ghost use Rattle.spec_model.specs.SystemTables.{first_tables};
ghost use Rattle.spec_model.specs.Effect.{effect, query_rows};
ghost use Rattle.spec_model.specs.Checks.{row_statement_check};
ghost use Rattle.sql_types.specs.declared.table.Part.TheVariants.{Base};
ghost use Rattle.sql_value.specs.declared.expr.Expr.TheVariants.{Col};
ghost use Rattle.sql_value.specs.declared.expr.Op.TheVariants as op;
ghost use Rattle.std.specs.Prelude.{Ok};
ghost use Rattle.spec_model.specs.Replies.{reply_lines};
ghost use Rattle.sql_types.specs.declared.event.Event.{Event};
ghost use Rattle.spec_model.specs.Events.{all_events};
ghost use Rattle.sql_value.specs.declared.refusal.ValueErr.TheVariants.{Mismatch};
ghost use Rattle.spec_model.specs.Script.{script};
ghost use Rattle.spec_model.specs.Journals.{IsLegal};
ghost use Rattle.test_samples.specs.Samples.{pair_def, pairs, in_journal, journal, wide_def, wide_tables, wide, nines, wide_select, column, create, create_t, add_to_t, drop_of_t, insert, all_of, num, answers, version, key_column, def_t, with_t, update_t, id_is, listed, create_x, select, four, answer, index_on, made_tables, delete_1, create_balance, def_balance, of_nick, balance, set_100, select_5, read_in, texts, in_script, by_themselves, each_alone, nested, one_or_other, update_5};

/// Replies to small statements.
pub fn statements_are_answered()
    ensures system_columns { answers first_tables 1
        (create_t ∷ insert (codes "t") ((num 1 ∷ num 10 ∷ []) ∷ [])
        ∷ all_of (codes "sys_ledger_columns") ∷ [])
        ≡ (codes "made" ∷ []) ∷ (codes "1 rows" ∷ [])
        ∷ (codes "3|1|0|N'id'|2|0|0|0|1" ∷ codes "3|2|0|N'v'|2|0|0|1|0" ∷ codes "2 rows" ∷ []) ∷ [] }
    ensures ends_of_bigint { answers first_tables 1
        (create (codes "b") (column (codes "id") BigInt false ∷ []) Updatable None
        ∷ insert (codes "b") ((Num 0 (negsuc 9223372036854775807) ∷ []) ∷ (num 9223372036854775807 ∷ []) ∷ [])
        ∷ insert (codes "b") ((num 9223372036854775808 ∷ []) ∷ []) ∷ [])
        ≡ (codes "made" ∷ []) ∷ (codes "2 rows" ∷ []) ∷ (codes "E08" ∷ []) ∷ [] }
    ensures units_of_text { answers first_tables 1
        (create (codes "n")
        (column (codes "id") Int false ∷ column (codes "x") (NVarChar 2) true ∷ []) Updatable None
        ∷ insert (codes "n") ((num 1 ∷ Text (240 ∷ 159 ∷ 152 ∷ 128 ∷ []) ∷ []) ∷ [])
        ∷ insert (codes "n") ((num 2 ∷ Text (240 ∷ 159 ∷ 152 ∷ 128 ∷ 97 ∷ []) ∷ []) ∷ []) ∷ [])
        ≡ (codes "made" ∷ []) ∷ (codes "1 rows" ∷ []) ∷ (codes "E09" ∷ []) ∷ [] }
    ensures append_only { answers first_tables 1
        (create (codes "log") (column (codes "id") Int false ∷ []) AppendOnly None
        ∷ insert (codes "log") ((num 7 ∷ []) ∷ []) ∷ s.Change (Delete (codes "log") None)
        ∷ all_of (codes "log") ∷ [])
        ≡ (codes "made" ∷ []) ∷ (codes "1 rows" ∷ []) ∷ (codes "E10" ∷ []) ∷ (codes "7" ∷ codes "1 rows" ∷ [])
        ∷ [] }
    ensures index_rows_made { answers (with_t []) 4
        (index_on (codes "iv") (codes "t") (codes "v" ∷ codes "id" ∷ [])
        ∷ index_on (codes "iv") (codes "t_Ledger") (codes "v" ∷ [])
        ∷ index_on (codes "iw") (codes "t_Ledger") (codes "v" ∷ [])
        ∷ all_of (codes "sys_ledger_columns") ∷ [])
        ≡ (codes "made" ∷ []) ∷ (codes "E03" ∷ []) ∷ (codes "E11" ∷ [])
        ∷ (codes "3|1001|0|N'iv'|0|0|0|0|2" ∷ codes "3|1002|0|N'iv'|0|0|0|0|1" ∷ codes "2 rows" ∷ []) ∷ [] }
    ensures no_leap_day { conversion_of (Text (codes "2023-02-29")) Date ≡ Err Mismatch }
{}

/// What is left of dropped columns and tables, what is NULL in a column that was added, the rows that say so, and which
/// refusal comes first.
pub fn definitions_are_changed()
    ensures worked_row { answers first_tables 1
        (create_t ∷ insert (codes "t") ((num 1 ∷ num 10 ∷ []) ∷ []) ∷ add_to_t (codes "w") (NVarChar 5)
        ∷ all_of (codes "t") ∷ drop_of_t (codes "v") ∷ insert (codes "t") ((num 2 ∷ Text (codes "x") ∷ []) ∷ [])
        ∷ select (codes "t") (Columns (codes "MSSQL_DroppedLedgerColumn_v_2" ∷ codes "id" ∷ [])) []
        ∷ s.Drop (codes "t") ∷ all_of (codes "t") ∷ all_of (codes "MSSQL_DroppedLedgerTable_t_3")
        ∷ s.Change (Delete (codes "MSSQL_DroppedLedgerTable_t_3") None) ∷ [])
        ≡ (codes "made" ∷ []) ∷ (codes "1 rows" ∷ []) ∷ (codes "made" ∷ [])
        ∷ (codes "1|10|NULL" ∷ codes "1 rows" ∷ []) ∷ (codes "made" ∷ []) ∷ (codes "1 rows" ∷ [])
        ∷ (codes "10|1" ∷ codes "NULL|2" ∷ codes "2 rows" ∷ [])
        ∷ (codes "made" ∷ []) ∷ (codes "E02" ∷ []) ∷ (codes "1|NULL" ∷ codes "2|N'x'" ∷ codes "2 rows" ∷ [])
        ∷ (codes "E11" ∷ []) ∷ [] }
    ensures rows_of_changes { answers (with_t []) 4
        (add_to_t (codes "w") (NVarChar 5) ∷ drop_of_t (codes "v") ∷ s.Drop (codes "t")
        ∷ all_of (codes "sys_ledger_tables") ∷ all_of (codes "sys_ledger_columns") ∷ [])
        ≡ (codes "made" ∷ []) ∷ (codes "made" ∷ []) ∷ (codes "made" ∷ [])
        ∷ (codes "3|3|N'MSSQL_DroppedLedgerTable_t_3'|4|N'MSSQL_DroppedLedgerHistory_MSSQL_LedgerHistoryFor_3_3'|N'MSSQL_DroppedLedgerView_t_Ledger_3'"
        ∷ codes "1 rows" ∷ [])
        ∷ (codes "3|2|2|N'MSSQL_DroppedLedgerColumn_v_2'|2|0|0|1|-1" ∷ codes "3|3|1|N'w'|5|5|0|1|0"
        ∷ codes "2 rows" ∷ []) ∷ [] }
    ensures order_of_refusals { answers (with_t []) 4
        (s.Alter (Add (codes "nope") (column (codes "v") Int true))
        ∷ s.Alter (Add (codes "t_Ledger") (column (codes "v") (NVarChar 0) true))
        ∷ s.Alter (Add (codes "t_Ledger") (column (codes "w") (NVarChar 0) true))
        ∷ s.Alter (Add (codes "t_Ledger") (column (codes "w") Int true))
        ∷ s.Alter (Add (codes "sys_ledger_tables") (column (codes "name") Int true))
        ∷ s.Alter (DropColumn (codes "t_Ledger") (codes "nope")) ∷ drop_of_t (codes "nope")
        ∷ drop_of_t (codes "id") ∷ s.Drop (codes "nope") ∷ s.Drop (codes "t_Ledger") ∷ [])
        ≡ (codes "E02" ∷ []) ∷ (codes "E03" ∷ []) ∷ (codes "E16" ∷ []) ∷ (codes "E11" ∷ []) ∷ (codes "E03" ∷ [])
        ∷ (codes "E11" ∷ []) ∷ (codes "E04" ∷ []) ∷ (codes "E12" ∷ []) ∷ (codes "E02" ∷ []) ∷ (codes "E11" ∷ [])
        ∷ [] }
    ensures dropped_columns_are_read { answers (with_t (version 1 10 (2, 0) None ∷ [])) 4
        (drop_of_t (codes "v") ∷ drop_of_t (codes "MSSQL_DroppedLedgerColumn_v_2")
        ∷ listed (codes "MSSQL_DroppedLedgerColumn_v_2" ∷ []) ((num 1 ∷ []) ∷ [])
        ∷ index_on (codes "iv") (codes "t") (codes "MSSQL_DroppedLedgerColumn_v_2" ∷ [])
        ∷ add_to_t (codes "MSSQL_DroppedLedgerColumn_v_2") Int ∷ add_to_t (codes "v") Int ∷ drop_of_t (codes "v")
        ∷ select (codes "t") (Columns (codes "MSSQL_DroppedLedgerColumn_v_3" ∷ codes "MSSQL_DroppedLedgerColumn_v_2" ∷ [])) []
        ∷ all_of (codes "t_Ledger") ∷ [])
        ≡ (codes "made" ∷ []) ∷ (codes "E04" ∷ []) ∷ (codes "E04" ∷ []) ∷ (codes "E04" ∷ []) ∷ (codes "E03" ∷ [])
        ∷ (codes "made" ∷ []) ∷ (codes "made" ∷ []) ∷ (codes "NULL|10" ∷ codes "1 rows" ∷ [])
        ∷ (codes "1|2|0|1|N'INSERT'" ∷ codes "1 rows" ∷ []) ∷ [] }
{}

/// The starts and ends of small statements, and what history and view show of them.
pub fn events_are_numbered()
    ensures starts { effect (with_t []) 2 0
        (insert (codes "t") ((num 1 ∷ num 10 ∷ []) ∷ (num 2 ∷ num 20 ∷ []) ∷ []))
        ≡ record {
          tables = with_t (version 1 10 (2, 0) None ∷ version 2 20 (2, 1) None ∷ []);
          seq = 2;
          reply = r.Changed 2;
        } }
    ensures ends_and_starts { effect
        (with_t (version 1 10 (2, 0) None ∷ version 2 20 (2, 1) None ∷ [])) 3 0 update_t
        ≡ record {
          tables = with_t (version 1 10 (2, 0) (Some (3, 0)) ∷ version 2 20 (2, 1) (Some (3, 2))
              ∷ version 1 11 (3, 1) None ∷ version 2 21 (3, 3) None ∷ []);
          seq = 4;
          reply = r.Changed 2;
        } }
    ensures view { reply_lines (effect (with_t (version 1 10 (2, 0) (Some (3, 0))
        ∷ version 2 20 (2, 1) (Some (3, 2)) ∷ version 1 11 (3, 1) None
        ∷ version 2 21 (3, 3) None ∷ [])) 4 0 (all_of (codes "t_Ledger"))).reply
        ≡ codes "1|10|2|0|1|N'INSERT'" ∷ codes "2|20|2|1|1|N'INSERT'" ∷ codes "1|10|3|0|2|N'DELETE'"
        ∷ codes "1|11|3|1|1|N'INSERT'"
        ∷ codes "2|20|3|2|2|N'DELETE'" ∷ codes "2|21|3|3|1|N'INSERT'" ∷ codes "6 rows" ∷ [] }
    ensures started_and_ended { effect (with_t (version 1 1 (2, 0) None ∷ [])) 2 1 delete_1
        ≡ record { tables = with_t (version 1 1 (2, 0) (Some (2, 1)) ∷ []); seq = 2; reply = r.Changed 1 } }
    ensures its_history { answer (with_t (version 1 1 (2, 0) (Some (2, 1)) ∷ []))
        (all_of (codes "MSSQL_LedgerHistoryFor_3")) ≡ codes "1|1|2|2|0|1" ∷ codes "1 rows" ∷ [] }
    ensures its_events { map {B = Option (ℕ × ℕ) × ℕ} (λ (e : Event). (e.ends, e.seq))
        (all_events 2 (with_t (version 1 1 (2, 0) (Some (2, 1)) ∷ []))) ≡ (None, 0) ∷ (Some (2, 0), 1) ∷ [] }
    ensures written_names { defs_of (effect first_tables 1 0 create_balance).tables ≡ defs_of first_tables
        ++ def_balance ∷ [] }
    ensures units_kept { effect (balance []) 2 0
        (insert (codes "Balance") ((num 1 ∷ Text (codes "Jones") ∷ Text (codes "Nick") ∷ num 50 ∷ []) ∷ []))
        ≡ record {
          tables = balance (record {
            values = of_nick 5000;
            start = (2, 0);
            end = None;
          } ∷ []);
          seq = 1;
          reply = r.Changed 1;
        } }
    ensures units_set { effect
        (balance (record { values = of_nick 5000; start = (2, 0); end = None } ∷ [])) 3 0 (s.Change set_100)
        ≡ record {
          tables = balance (record { values = of_nick 5000; start = (2, 0); end = Some (3, 0) }
              ∷ record { values = of_nick 10000; start = (3, 1); end = None } ∷ []);
          seq = 2;
          reply = r.Changed 1;
        } }
    ensures written_history { answer
        (balance (record { values = of_nick 5000; start = (2, 0); end = Some (3, 0) }
        ∷ record { values = of_nick 10000; start = (3, 1); end = None } ∷ []))
        (all_of (codes "BalanceHistory")) ≡ codes "1|N'Jones'|N'Nick'|50.00|2|3|0|0" ∷ codes "1 rows" ∷ [] }
{}

/// Which literals fix a key.
pub fn keys_are_fixed()
    ensures int_fixed { key_fixed (key_column (codes "id") Int ∷ []) (Some (id_is (num 5)))
        ≡ Some (num 5 ∷ []) }
    ensures int_not_fixed { key_fixed (key_column (codes "id") Int ∷ []) (Some (id_is (Num 1 (pos 10))))
        ≡ None }
    ensures decimal_fixed { key_fixed (key_column (codes "id") (Decimal 5 1) ∷ [])
        (Some (id_is (Num 2 (pos 150)))) ≡ Some (Num 1 (pos 15) ∷ []) }
    ensures decimal_not_fixed { key_fixed (key_column (codes "id") (Decimal 5 1) ∷ [])
        (Some (id_is (Num 2 (pos 155)))) ≡ None }
    ensures bit_not_fixed { key_fixed (key_column (codes "id") Bit ∷ []) (Some (id_is (num 2))) ≡ None }
    ensures null_not_fixed { key_fixed (key_column (codes "id") Int ∷ []) (Some (id_is Null)) ≡ None }
    ensures negative { key_fixed (key_column (codes "id") Int ∷ []) (Some (id_is (Num 0 (negsuc 4))))
        ≡ Some (Num 0 (negsuc 4) ∷ []) }
    ensures date { key_fixed (key_column (codes "id") Date ∷ []) (Some (id_is (Text (codes "2020-02-29"))))
        ≡ Some (val.Date (number_of (civil 2020 2 29)) ∷ []) }
    ensures nested { key_fixed (key_column (codes "id") Int ∷ []) (Some nested) ≡ Some (num 5 ∷ []) }
    ensures either { key_fixed (key_column (codes "id") Int ∷ []) (Some one_or_other) ≡ None }
{}

/// Which refusal comes where several could.
pub fn refusals_have_an_order()
    ensures twice_first { (effect (with_t []) 2 0 (s.Change (Insert (codes "t_Ledger") (Some (codes "id"
        ∷ codes "id" ∷ [])) ((num 1 ∷ []) ∷ [])))).reply ≡ r.Refused NameConflict }
    ensures part_next { (effect (with_t []) 2 0 (s.Change (Insert (codes "t_Ledger") (Some (codes "nope"
        ∷ [])) ((num 1 ∷ []) ∷ [])))).reply ≡ r.Refused ReadOnlyTable }
    ensures hidden_not_listed { (effect (with_t []) 2 0 (listed (codes "ledger_start_transaction_id"
        ∷ []) ((num 1 ∷ []) ∷ []))).reply ≡ r.Refused NoSuchColumn }
    ensures key_before_range { (effect (with_t []) 2 0 (insert (codes "t") ((num 1 ∷ num 1 ∷ [])
        ∷ (num 1 ∷ num 1 ∷ []) ∷ (num 2 ∷ num 2147483648 ∷ []) ∷ []))).reply ≡ r.Refused DuplicateKey }
    ensures range_before_key { (effect (with_t []) 2 0 (insert (codes "t") ((num 1 ∷ num 1 ∷ [])
        ∷ (num 1 ∷ num 2147483648 ∷ []) ∷ []))).reply ≡ r.Refused NumberOutOfRange }
    ensures key_absent { (effect (with_t []) 2 0 (listed (codes "v" ∷ []) ((num 1 ∷ []) ∷ []))).reply
        ≡ r.Refused NullNotAllowed }
    ensures key_set { (effect (with_t []) 5 0 (s.Change (Update (codes "t") ((codes "id", Lit (num 2))
        ∷ []) None))).reply ≡ r.Refused KeyNotUpdatable }
    ensures type_before_null { (effect first_tables 1 0 (create_x (Decimal 39 0))).reply ≡ r.Refused LimitExceeded }
    ensures null_key { (effect first_tables 1 0 (create_x (Decimal 38 0))).reply ≡ r.Refused NullNotAllowed }
    ensures view_taken { (effect (with_t []) 2 0 (create (codes "t_Ledger") (column (codes "id") Int false
        ∷ []) Updatable None)).reply ≡ r.Refused NameConflict }
    ensures name_fits { (effect first_tables 2 0 (create (replicate 121 97) (column (codes "id") Int false
        ∷ []) Updatable None)).reply ≡ r.Made }
    ensures name_too_long { (effect first_tables 2 0 (create (replicate 122 97) (column (codes "id") Int false
        ∷ []) Updatable None)).reply ≡ r.Refused LimitExceeded }
    ensures tables_32 { (effect (made_tables (3 ∷ 4 ∷ 5 ∷ 6 ∷ 7 ∷ 8 ∷ 9 ∷ 10 ∷ 11 ∷ 12 ∷ 13 ∷ 14 ∷ 15 ∷ 16
        ∷ 17 ∷ 18 ∷ 19 ∷ 20 ∷ 21 ∷ 22 ∷ 23 ∷ 24 ∷ 25 ∷ 26 ∷ 27 ∷ 28 ∷ 29 ∷ 30 ∷ 31 ∷ 32 ∷ 33
        ∷ [])) 40 0 create_t).reply ≡ r.Made }
    ensures tables_33 { (effect (made_tables (3 ∷ 4 ∷ 5 ∷ 6 ∷ 7 ∷ 8 ∷ 9 ∷ 10 ∷ 11 ∷ 12 ∷ 13 ∷ 14 ∷ 15 ∷ 16
        ∷ 17 ∷ 18 ∷ 19 ∷ 20 ∷ 21 ∷ 22 ∷ 23 ∷ 24 ∷ 25 ∷ 26 ∷ 27 ∷ 28 ∷ 29 ∷ 30 ∷ 31 ∷ 32 ∷ 33 ∷ 34
        ∷ [])) 40 0 create_t).reply ≡ r.Refused LimitExceeded }
    ensures key_before_class { row_statement_check (defs_of wide_tables)
        (Update (codes "w") ((codes "id", Col (codes "d")) ∷ []) None) ≡ Err KeyNotUpdatable }
{}

/// The rows that small queries show.
pub fn rows_are_selected()
    ensures ascending { answer four (select (codes "t") All ((codes "v", false) ∷ []))
        ≡ codes "2|NULL" ∷ codes "3|5" ∷ codes "1|7" ∷ codes "4|7" ∷ codes "4 rows" ∷ [] }
    ensures descending { answer four (select (codes "t") All ((codes "v", true) ∷ []))
        ≡ codes "1|7" ∷ codes "4|7" ∷ codes "3|5" ∷ codes "2|NULL" ∷ codes "4 rows" ∷ [] }
    ensures sums { answer four
        (select (codes "t") (Aggs (Count ∷ Sum (codes "v") ∷ Sum (codes "id") ∷ [])) [])
        ≡ codes "4|19|10" ∷ codes "1 rows" ∷ [] }
    ensures sums_of_none { answer (with_t []) (select (codes "t") (Aggs (Count ∷ Sum (codes "v") ∷ [])) [])
        ≡ codes "0|NULL" ∷ codes "1 rows" ∷ [] }
    ensures hidden_named { answer four
        (select (codes "t") (Columns (codes "ledger_start_sequence_number" ∷ codes "id" ∷ [])) [])
        ≡ codes "0|1" ∷ codes "1|2" ∷ codes "3|3" ∷ codes "2|4" ∷ codes "4 rows" ∷ [] }
    ensures no_hidden_end { answer four
        (select (codes "t") (Columns (codes "ledger_end_sequence_number" ∷ [])) []) ≡ codes "E04" ∷ [] }
    ensures history_order { answer
        (with_t (version 1 10 (2, 0) (Some (5, 0)) ∷ version 2 20 (2, 1) (Some (3, 0)) ∷ []))
        (all_of (codes "MSSQL_LedgerHistoryFor_3"))
        ≡ codes "1|10|2|5|0|0" ∷ codes "2|20|2|3|1|0" ∷ codes "2 rows" ∷ [] }
    ensures key_hides { query_rows (wide_select op.Eq) (wide_def, Base)
        (wide 1 (pos 1) 0 ∷ wide 2 (pos nines) 1 ∷ []) ≡ Ok ((num 1 ∷ num 1 ∷ []) ∷ []) }
    ensures all_are_evaluated { query_rows (wide_select op.Lt) (wide_def, Base)
        (wide 1 (pos 1) 0 ∷ wide 2 (pos nines) 1 ∷ []) ≡ Err NumberOutOfRange }
    ensures sum_on_the_way { answer wide_tables (select (codes "w") (Aggs (Sum (codes "d") ∷ [])) [])
        ≡ codes "E08" ∷ [] }
    ensures key_order { answer pairs (all_of (codes "p"))
        ≡ codes "1|3" ∷ codes "2|3" ∷ codes "1|9" ∷ codes "3 rows" ∷ [] }
{}

/// Replies to the texts of scripts.
pub fn scripts_are_answered()
    ensures savepoints { map reply_lines
        (script (read_in in_script) true (effect first_tables 1 0 create_t).tables 2
        (texts (0 ∷ 3 ∷ 1 ∷ 3 ∷ 2 ∷ 4 ∷ 5 ∷ 6 ∷ []))).replies
        ≡ (codes "1 rows" ∷ []) ∷ (codes "saved" ∷ []) ∷ (codes "1 rows" ∷ []) ∷ (codes "saved" ∷ [])
        ∷ (codes "1 rows" ∷ []) ∷ (codes "back" ∷ [])
        ∷ (codes "E15" ∷ [])
        ∷ (codes "1|1|2|0|1|N'INSERT'" ∷ codes "2|2|2|1|1|N'INSERT'" ∷ codes "2 rows" ∷ []) ∷ [] }
    ensures savepoint_65 { (script (read_in in_script) true first_tables 1 (replicate 65 (3 ∷ []))).replies
        ≡ replicate 64 r.Saved ++ r.Refused LimitExceeded ∷ [] }
    ensures alone { map (each_alone (effect first_tables 1 0 create_t).tables by_themselves)
        (0 ∷ 1 ∷ 9 ∷ 2 ∷ 3 ∷ [])
        ≡ ((codes "0 rows" ∷ []) ∷ []) ∷ ((codes "E13" ∷ []) ∷ []) ∷ ((codes "E01" ∷ []) ∷ [])
        ∷ ((codes "E18" ∷ []) ∷ []) ∷ ((codes "E02" ∷ []) ∷ []) ∷ [] }
    ensures back_twice { map reply_lines
        (script (read_in in_script) true (effect first_tables 1 0 create_t).tables 2
        (texts (0 ∷ 3 ∷ 1 ∷ 4 ∷ 2 ∷ 4 ∷ 6 ∷ 2 ∷ 6 ∷ []))).replies
        ≡ (codes "1 rows" ∷ []) ∷ (codes "saved" ∷ []) ∷ (codes "1 rows" ∷ []) ∷ (codes "back" ∷ [])
        ∷ (codes "1 rows" ∷ []) ∷ (codes "back" ∷ [])
        ∷ (codes "1|1|2|0|1|N'INSERT'" ∷ codes "1 rows" ∷ []) ∷ (codes "1 rows" ∷ [])
        ∷ (codes "1|1|2|0|1|N'INSERT'" ∷ codes "3|3|2|1|1|N'INSERT'" ∷ codes "2 rows" ∷ []) ∷ [] }
{}

/// The locks of statements that name a key.
pub fn keys_are_locked()
    ensures insert_far_requests { cell_requests (defs_of first_tables ++ def_t ∷ [])
        (insert (codes "t") ((num 2147483648 ∷ num 1 ∷ []) ∷ [])) ≡ Some (3, whole X ∷ []) }
    ensures read_and_inserted { clash (defs_of first_tables ++ def_t ∷ []) true (s.Select select_5) false
        (insert (codes "t") ((num 5 ∷ num 1 ∷ []) ∷ [])) ≡ true }
    ensures key_locked { cell_requests (defs_of pairs)
        (s.Change (Insert (codes "p") (Some (codes "a" ∷ codes "b" ∷ [])) ((num 1 ∷ num 2 ∷ []) ∷ [])))
        ≡ Some (3, whole IX ∷ of_key X (num 2 ∷ num 1 ∷ []) ∷ []) }
{}

/// A journal that could have been made, and one that closes more than what is pending.
pub fn journals_are_legal()
    ensures legal { IsLegal (read_in in_journal) (journal 2) }
    ensures too_many { IsLegal (read_in in_journal) (journal 3) → ⊥ }
{}

/// The locks of the other statements, over a table with an INT key: in its cell, and in the catalog.
pub fn parts_are_locked()
    ensures update_key { cell_requests (defs_of first_tables ++ def_t ∷ []) (s.Change update_5)
        ≡ Some (3, whole IX ∷ of_key X (num 5 ∷ []) ∷ []) }
    ensures update_all { cell_requests (defs_of first_tables ++ def_t ∷ []) update_t ≡ Some (3, whole X ∷ []) }
    ensures delete_key { cell_requests (defs_of first_tables ++ def_t ∷ []) delete_1
        ≡ Some (3, whole IX ∷ of_key X (num 1 ∷ []) ∷ []) }
    ensures create { (cell_requests (defs_of first_tables ++ def_t ∷ []) create_t ≡ None)
        × (catalog_request false create_t ≡ Some X) × (catalog_request true create_t ≡ None) }
    ensures history { cell_requests (defs_of first_tables ++ def_t ∷ [])
        (all_of (codes "MSSQL_LedgerHistoryFor_3"))
        ≡ Some (3, whole S ∷ []) }
    ensures view { cell_requests (defs_of first_tables ++ def_t ∷ []) (all_of (codes "t_Ledger"))
        ≡ Some (3, whole S ∷ []) }
    ensures system { (cell_requests (defs_of first_tables ++ def_t ∷ []) (all_of (codes "sys_ledger_columns"))
        ≡ Some (2, [])) × (catalog_request false (all_of (codes "sys_ledger_columns")) ≡ Some S) }
{}
