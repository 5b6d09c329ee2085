//! What a run came to.

use base_types::{Blob, Items, Text};
use sql_types::{Digest, Journal};

/// What a run came to.
#[derive(Drop)]
pub struct RunOutcome {
    /// The text of all entries, in the order of the lines or session by session, and behind them the ends of
    /// sessions.
    pub transcript: Text,
    /// The images that were kept, each once, by rising number of the journal's items.
    pub images: Items<(u64, Blob)>,
    /// The bytes of the image of the whole journal.
    pub image: Blob,
    pub journal: Journal,
    /// In the order of issue.
    pub digests: Items<Digest>,
}
