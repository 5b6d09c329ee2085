// How many statements a session has, and which comes at which place.
ghost use Rattle.std.specs.Prelude.{◌≡◌, ◌<◌, ℕ, Some, length, slice_get};
ghost use Rattle.workload_generator.specs.Workload.{session_texts, statement_count, nth_text};

/// The statements of a session on so many rows are as many as is said, and each stands at its number.
pub fn statements_law()
    ensures count { (table rows : ℕ) → length (session_texts table rows) ≡ statement_count rows }
    ensures place { (table rows n : ℕ) → n < statement_count rows
        → slice_get (session_texts table rows) n ≡ Some (nth_text table n) }
{}
