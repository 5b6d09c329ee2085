//! The texts of a snapshot, answered over the image that it kept.

ghost use Rattle.std.specs.Prelude.{◌≡◌, map, IfOk, IfSome, OnOk};
ghost use Rattle.sql_types.specs.declared.image.Image.{Image as ImageOf};
ghost use Rattle.format_image.specs.ImageBytes.{IsImage, IsSpellingOf};
ghost use Rattle.server_reader.specs.Answered as spec;

use audit_asof::AsOf;
use base_types::{Blob, Items, Memory, Text, first_of};
use format_asof::push_answer;
use format_image::read_image;
use spec_asof::AsOfReply;
use sql_value::Refusal;
use std::alloc::Global;

/// The database behind all transactions of an image, where there is memory for it.
fn open_whole(alloc: Global, bytes: &[u8]) -> Option<AsOf>
    ensures { IfSome result (λ opened. (i : ImageOf) → IsImage i → IsSpellingOf bytes.now i
        → opened ≡ spec.whole_database i) }
{
    let Ok(Some(image)) = read_image(alloc, bytes) else {
        return None;
    };
    let entries = image.entries.len() as u64;
    AsOf::open(alloc, image, entries).ok()
}

/// What a text is answered over the database that was opened, or E30 where there is no memory for one of both.
fn answer_over(alloc: Global, opened: &Option<AsOf>, text: &str) -> AsOfReply
    ensures { spec.IsReplyTo opened.now text.now result }
{
    let Some(opened) = opened else {
        return AsOfReply::Refused(Refusal::NoMemory);
    };
    match opened.answer(alloc, text) {
        Ok(reply) => reply,
        Err(Memory) => AsOfReply::Refused(Refusal::NoMemory),
    }
}

/// The entry of a text that was answered.
fn entry_of(alloc: Global, name: &str, text: &str, reply: AsOfReply) -> Result<Text, Memory>
    ensures { IfOk result (λ entry. entry ≡ spec.answer_entry name.now (text.now, reply)) }
{
    let mut written = format!(in alloc; "{name}: ")?;
    push_answer(alloc, text, reply, &mut written)?;
    Ok(Text::from_string(written))
}

/// Answers the texts one after another, and puts their entries behind those that are there.
fn push_entries(
    alloc: Global,
    name: &str,
    texts: &[&str],
    opened: &Option<AsOf>,
    entries: &mut Items<Text>,
) -> Result<(), Memory>
    ensures { OnOk result
        (spec.AreRepliesBehind opened.now name.now (map (λ t. t.now) texts.now) entries.old entries.new) }
{
    for text in texts {
        let reply = answer_over(alloc, opened, text);
        let entry = entry_of(alloc, name, text, reply)?;
        entries.push(entry)?;
    }
    Ok(())
}

/// Answers the texts of a snapshot over the image that its session kept, the first of these, behind all transactions
/// of that image, and puts the entries behind those of the session; where it kept none, there are none. A text for
/// whose answer there is no memory is answered E30; an error says that there was none for its entry, and nothing of
/// the entries. Takes the time of reading and opening the image, and for each text what `AsOf::answer` takes.
#[tactic(auto, using(crate::proofs::Replies::none_kept, crate::proofs::Replies::no_texts))]
pub fn push_answers(
    alloc: Global,
    name: &str,
    texts: &[&str],
    images: &[(u64, Blob)],
    entries: &mut Items<Text>,
) -> Result<(), Memory>
    ensures { OnOk result
        (spec.AreAnsweredBehind name.now (map (λ t. t.now) texts.now) images.now entries.old entries.new) }
{
    let Some((kept, _)) = first_of(images) else {
        return Ok(());
    };
    if texts.is_empty() {
        return Ok(());
    }
    let opened = open_whole(alloc, kept.1.bytes());
    push_entries(alloc, name, texts, &opened, entries)?;
    Ok(())
}
