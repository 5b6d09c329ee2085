//! What holds of every history.

ghost use Rattle.std.specs.Prelude.{ℕ, List, Option};
ghost use Rattle.spec_history.specs.Acts.{Act};
ghost use Rattle.spec_history.specs.Guards.{Good};
ghost use Rattle.spec_history.specs.Histories.{IsWhole};
ghost use Rattle.spec_history.specs.Inputs.{InputSession};
ghost use Rattle.spec_history.specs.Lists.{Text};
ghost use Rattle.spec_history.specs.Meaning.{Meaning};
ghost use Rattle.spec_history.specs.Transcripts.{Transcript};
ghost use Rattle.spec_history.specs.Worlds.{first, run};
ghost use Rattle.law_order.specs.OneOrder.{HaveOneOrder};

/// The transcripts of a history in which each act might happen when it did, and at whose end every session is
/// at rest, are parts of one order of all that they show. `setup` comes first in it, no mark falls, ids and
/// marks count, an image has the blocks of all digests before it, and E20 names a transaction that is open
/// then in another session.
pub fn histories_are_in_one_order()
    ensures { (q : Meaning) (database : Text) (history : List Act) (input : List InputSession)
        (setup : Option ℕ) (transcripts : List Transcript)
        → Good q database first history → IsWhole input setup transcripts history
        → HaveOneOrder q setup transcripts (run first history).items }
{}
