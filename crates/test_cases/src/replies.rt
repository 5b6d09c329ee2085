//! Cases of replies.

use crate::fault::Fault;
use crate::page::Page;
use crate::tables::rows_of;
use crate::texts::{first_word, hash_of, number};
use base_types::Items;
use format_reply::reply_text;
use sql_types::Reply;
use sql_value::Refusal;
use std::alloc::Global;

fn refusal(word: &str) -> Result<Reply, Fault> {
    match word {
        "E08" => Ok(Reply::Refused(Refusal::NumberOutOfRange)),
        "E18" => Ok(Reply::Refused(Refusal::ValueCountMismatch)),
        "E30" => Ok(Reply::Refused(Refusal::NoMemory)),
        _ => Err(Fault::Form("no such reply")),
    }
}

fn digest(text: &str) -> Result<Reply, Fault> {
    let (block, hash) = first_word(text);
    let (block, hash) = (number(block)?, hash_of(hash)?);
    Ok(Reply::Digest { block, hash })
}

fn reply_of(alloc: Global, text: &str) -> Result<Reply, Fault> {
    let (word, rest) = first_word(text);
    match word {
        "begun" => Ok(Reply::Begun(number(rest)?)),
        "changed" => Ok(Reply::Changed(number(rest)?)),
        "made" => Ok(Reply::Made),
        "saved" => Ok(Reply::Saved),
        "back" => Ok(Reply::Back),
        "quiet" => Ok(Reply::NoOutput),
        "image" => Ok(Reply::Image(number(rest)?)),
        "digest" => digest(rest),
        "none" => Ok(Reply::Rows(Items::new(alloc))),
        "rows" => Ok(Reply::Rows(rows_of(alloc, rest)?)),
        "locked" => Ok(Reply::Refused(Refusal::Locked {
            holder: number(rest)?,
        })),
        _ => refusal(word),
    }
}

fn put_reply(alloc: Global, reply: &Reply, page: &mut Page) -> Result<(), Fault> {
    let text = reply_text(alloc, reply)?;
    page.put_on_one_line(text.as_str());
    Ok(())
}

/// The text of a reply; rows are those of an INSERT.
pub fn reply(alloc: Global, text: &str, page: &mut Page) -> Result<(), Fault> {
    let reply = reply_of(alloc, text)?;
    let put = put_reply(alloc, &reply, page);
    // `drop` lets each type go by a function of its own, which is proved once
    drop(reply);
    put
}
