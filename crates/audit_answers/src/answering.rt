//! The answers to texts, as they are written, or the verdict on an image that isn't accepted.

ghost use Rattle.std.specs.Prelude.{◌≡◌, ◌≤◌, ◌<◌, ℕ, length, map, string_bytes, IfErr, IfOk};
ghost use Rattle.format_image.specs.ImageBytes.{IsImage};
ghost use Rattle.spec_asof.specs.DatabaseAt.{database_at};
ghost use Rattle.audit_answers.specs.Told.{AreAnswers, IsTooFar, IsTried, answers_text};
ghost use Rattle.audit_answers.specs.declared.answering.AnswersErr.TheVariants as refused;

use crate::coverage::{Coverage, coverage_of};
use audit_asof::{AsOf, AsOfErr};
use audit_verify::verify_image;
use base_merkle::Hash32;
use base_types::Memory;
use format_asof::push_answer;
use format_image::read_image;
use spec_verify::{Invariant, Place, Verdict};
use sql_types::{HeldDigest, Image};
use std::alloc::Global;

/// What texts come to over an image.
#[derive(Drop)]
pub enum Answers {
    /// The image isn't accepted, and this is the verdict on it.
    Refused(Verdict),
    /// Each text, and behind it the lines of its answer; and what the digests cover of the image.
    Written { text: String, coverage: Coverage },
}

/// Why texts aren't answered.
#[derive(Clone, Copy, Debug, PartialEq, Eq)]
pub enum AnswersErr {
    /// The image is accepted, and has only so many entries.
    TooFar { entries: u64 },
    Memory,
}

/// The image that some bytes are, where it is accepted with the digests, and else the verdict on them.
pub fn accepted<H: Hash32>(
    alloc: Global,
    h: H,
    bytes: &[u8],
    digests: &[HeldDigest],
) -> Result<Result<Image, Verdict>, Memory>
    ensures { IfOk result (IsTried (H.digest h) digests.now bytes.now) }
{
    let Some(image) = read_image(alloc, bytes)? else {
        return Ok(Err(Verdict::No(Invariant::V0, Place::Whole)));
    };
    let verdict = verify_image(alloc, h, &image, digests)?;
    match verdict {
        Verdict::Yes => Ok(Ok(image)),
        Verdict::No(invariant, place) => Ok(Err(Verdict::No(invariant, place))),
    }
}

/// Each text, and behind it the lines of its answer over these tables.
fn answers_over(alloc: Global, opened: &AsOf, texts: &[&str]) -> Result<String, Memory>
    ensures { IfOk result (λ written. string_bytes written
        ≡ answers_text opened.now (map (λ t. t.now) texts.now)) }
{
    let mut written = String::new(alloc);
    for text in texts {
        let answer = opened.answer(alloc, text)?;
        push_answer(alloc, text, answer, &mut written)?;
    }
    Ok(written)
}

/// The answers to texts over an accepted image behind its first `n` transactions.
fn answers_of(alloc: Global, image: Image, n: u64, texts: &[&str]) -> Result<String, AnswersErr>
    requires { IsImage image }
    ensures written { IfOk result (λ written. (n ≤ length image.entries)
        × (string_bytes written ≡ answers_text (database_at image n) (map (λ t. t.now) texts.now))) }
    ensures far { IfErr result (λ e. (entries : ℕ) → e ≡ refused.TooFar entries
        → (entries ≡ length image.entries) × (entries < n)) }
{
    let opened = match AsOf::open(alloc, image, n) {
        Ok(opened) => opened,
        Err(AsOfErr::TooFar { entries }) => return Err(AnswersErr::TooFar { entries }),
        Err(AsOfErr::Memory) => return Err(AnswersErr::Memory),
    };
    match answers_over(alloc, &opened, texts) {
        Ok(written) => Ok(written),
        Err(Memory) => Err(AnswersErr::Memory),
    }
}

/// Verifies the image that some bytes are with some digests, and answers the texts over it behind its first `n`
/// transactions. Of an image that isn't accepted there is the verdict alone; of one that is and has fewer
/// transactions, `TooFar`. Takes what the verdict takes, and then what `AsOf::open` and `AsOf::answer` do.
#[tactic(auto, using(crate::proofs::Told::are_written, crate::proofs::Told::is_far))]
pub fn answer_texts<H: Hash32>(
    alloc: Global,
    h: H,
    bytes: &[u8],
    digests: &[HeldDigest],
    n: u64,
    texts: &[&str],
) -> Result<Answers, AnswersErr>
    ensures told { IfOk result (AreAnswers (H.digest h) digests.now bytes.now n (map (λ t. t.now) texts.now)) }
    ensures far { IfErr result (λ e. (entries : ℕ) → e ≡ refused.TooFar entries
        → IsTooFar (H.digest h) digests.now bytes.now n entries) }
{
    match accepted(alloc, h, bytes, digests) {
        Ok(Ok(image)) => {
            let coverage = coverage_of(&image, digests);
            let text = answers_of(alloc, image, n, texts)?;
            Ok(Answers::Written { text, coverage })
        }
        Ok(Err(verdict)) => Ok(Answers::Refused(verdict)),
        Err(Memory) => Err(AnswersErr::Memory),
    }
}
