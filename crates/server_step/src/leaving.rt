//! What is written and saved of a run that is over.

ghost use Rattle.std.specs.Prelude.{◌≡◌, map, IfOk};
ghost use Rattle.format_lines.specs.Line.{seen};
ghost use Rattle.server_result.specs.Images.{with_each};
ghost use Rattle.server_step.specs.Numbers.{numbers_of};
ghost use Rattle.server_step.specs.RunOutcome.{HasKept};
ghost use Rattle.server_step.specs.Woven.{woven_text};

use crate::weaving::weave;
use base_merkle::Hash32;
use base_types::{Blob, Items, Memory, Text};
use format_lines::Line;
use server_engine::{Parts, Session};
use server_result::{RunOutcome, add_images};
use std::alloc::Global;
use std::mem;

/// The texts of the entries of all sessions, in the order of the lines.
fn transcript_of<H: Hash32>(
    alloc: Global,
    names: &[&str],
    lines: &[Line<'_>],
    sessions: &[Session<H>],
) -> Result<Text, Memory>
    ensures { IfOk result (λ text. text ≡ woven_text
        (numbers_of (map (λ n. n.now) names.now) (map seen lines.now))
        (map (λ y. y.entries) sessions.now)) }
{
    let mut texts = Vec::with_capacity(alloc, sessions.len())?;
    for session in sessions {
        texts.push(session.entries.as_slice())?;
    }
    weave(alloc, names, lines, texts)
}

/// The images that a session kept.
fn kept_by<H: Hash32>(alloc: Global, session: Session<H>) -> Items<(u64, Blob)>
    ensures { result ≡ session.images }
{
    let mut session = session;
    let images = mem::replace(&mut session.images, Items::new(alloc));
    // `drop` lets each type go by a function of its own, which is proved once
    drop(session);
    images
}

/// The images that the sessions kept, each once.
fn images_of<H: Hash32>(
    alloc: Global,
    sessions: Vec<Session<H>>,
) -> Result<Items<(u64, Blob)>, Memory>
    ensures { IfOk result (λ images. images ≡ with_each (map (λ y. y.images) sessions.items)) }
{
    let mut images = Items::new(alloc);
    for session in sessions {
        add_images(&mut images, kept_by(alloc, session))?;
    }
    Ok(images)
}

/// What is written and saved of what a core left.
pub(crate) fn left_by<H: Hash32>(
    alloc: Global,
    names: &[&str],
    lines: &[Line<'_>],
    parts: Parts<H>,
) -> Result<RunOutcome, Memory>
    ensures { IfOk result (HasKept (map (λ n. n.now) names.now) (map seen lines.now) parts) }
{
    let transcript = transcript_of(alloc, names, lines, &parts.sessions)?;
    let images = images_of(alloc, parts.sessions)?;
    Ok(RunOutcome {
        transcript,
        images,
        image: parts.image,
        journal: parts.journal,
        digests: parts.digests,
    })
}
