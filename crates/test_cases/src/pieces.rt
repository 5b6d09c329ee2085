//! What a line has in short: `$<NAME>` for a text that an earlier line named, `$<3 ab>` for `ababab`, and
//! `$<#0d0a>` for bytes.

use crate::fault::Fault;
use crate::page::Page;
use crate::texts::{hex_bytes, number};
use std::alloc::Global;

#[derive(Drop)]
struct Piece {
    name: String,
    text: Page,
}

/// The texts that were named so far.
#[derive(Drop)]
pub struct Pieces {
    named: Vec<Piece>,
}

impl Pieces {
    pub fn new(alloc: Global) -> Pieces {
        Pieces {
            named: Vec::new(alloc),
        }
    }

    /// Names a text.
    pub fn give_name(&mut self, alloc: Global, name: &str, text: Page) -> Result<(), Fault> {
        let name = String::from_str(alloc, name)?;
        self.named.push(Piece { name, text })?;
        Ok(())
    }

    fn named(&self, name: &str) -> Result<&[u8], Fault> {
        for piece in &self.named {
            if piece.name.as_str() == name {
                return piece.text.bytes();
            }
        }
        Err(Fault::Form("nothing has that name"))
    }

    /// Puts what a text says in full.
    pub fn put_expanded(&self, alloc: Global, text: &str, page: &mut Page) -> Result<(), Fault> {
        let Some((front, shorts)) = text.split_once('$') else {
            page.put(text);
            return Ok(());
        };
        page.put(front);
        for part in shorts.split('$') {
            self.put_short(alloc, part, page)?;
        }
        Ok(())
    }

    /// Puts what a `$` stands for that this is behind, and all behind its `>`.
    fn put_short(&self, alloc: Global, part: &str, page: &mut Page) -> Result<(), Fault> {
        let Some((short, rest)) = part.split_once('>') else {
            return Err(Fault::Form("a `$<` isn't closed"));
        };
        let Some(short) = short.strip_prefix("<") else {
            return Err(Fault::Form("a `$` has no `<` behind it"));
        };
        self.put_expansion(alloc, short, page)?;
        page.put(rest);
        Ok(())
    }

    /// Puts what stands between `$<` and `>` in short.
    fn put_expansion(&self, alloc: Global, short: &str, page: &mut Page) -> Result<(), Fault> {
        if let Some(digits) = short.strip_prefix("#") {
            page.put_bytes(&hex_bytes(alloc, digits)?);
        } else if let Some((count, text)) = short.split_once(' ') {
            put_times(number(count)?, text, page);
        } else {
            page.put_bytes(self.named(short)?);
        }
        Ok(())
    }
}

fn put_times(count: u64, text: &str, page: &mut Page) {
    for _ in 0..count {
        page.put(text);
    }
}
