//! Compares the images of two journals, one pair in each line of standard input, over hashes that are weak on
//! purpose: two images that are accepted with the same digests and differ are then easy to have. A line is
//! the name of a hash and of three files of the folder: the journal of the image that is gone by, that of
//! the one that is shown, and the digests. Behind `settle` and the id of a transaction the receipts that the two
//! images give of it are settled instead. A line is printed behind `> `, and then what was found; an empty line and
//! one that begins with `#` are printed as they are.
#![tactic(auto)]

ghost use Rattle.format_image.specs.ImageBytes.{IsImage};

mod comparing;
mod fault;
mod files;
mod hashes;
mod settling;

use base_io::{FolderVault, Vault};
use base_merkle::Hash32;
use comparing::compared;
use fault::Fault;
use files::{digests_of, image_of};
use hashes::NamedHash;
use settling::settled;
use sql_types::{HeldDigest, Image};
use std::alloc::Global;
use std::io;

/// The names of a line's three files.
#[derive(Clone, Copy)]
struct Names<'a> {
    honest: &'a str,
    suspect: &'a str,
    digests: &'a str,
}

/// The name of the hash, and those of the files.
fn words_of(line: &str) -> Option<(&str, Names<'_>)> {
    let (hash, rest) = line.split_once(' ')?;
    let (honest, rest) = rest.split_once(' ')?;
    let (suspect, digests) = rest.split_once(' ')?;
    Some((
        hash,
        Names {
            honest,
            suspect,
            digests,
        },
    ))
}

/// What is found of two images, or of the receipts that they give of a transaction.
fn found_of<H: Hash32>(
    alloc: Global,
    h: H,
    honest: &Image,
    suspect: &Image,
    digests: &[HeldDigest],
    tx: Option<u64>,
) -> Result<String, Fault>
    requires honest { IsImage honest.now }
    requires suspect { IsImage suspect.now }
{
    match tx {
        Some(tx) => settled(alloc, h, honest, suspect, digests, tx),
        None => compared(alloc, h, honest, suspect, digests),
    }
}

/// What is found of an image and the one of the journal that stands under a name.
fn found_beside<H: Hash32, V: Vault>(
    alloc: Global,
    h: H,
    vault: &mut V,
    honest: &Image,
    suspect: &str,
    digests: &[HeldDigest],
    tx: Option<u64>,
) -> Result<String, Fault>
    requires honest { IsImage honest.now }
{
    let suspect = image_of(alloc, h, vault, suspect)?;
    let found = found_of(alloc, h, honest, &suspect, digests, tx);
    // `drop` lets each type go by a function of its own, which is proved once
    drop(suspect);
    found
}

/// What is found of a line's images with its hash, or of the receipts that they give of a transaction.
fn found<H: Hash32, V: Vault>(
    alloc: Global,
    h: H,
    vault: &mut V,
    names: Names,
    tx: Option<u64>,
) -> Result<String, Fault> {
    let digests = digests_of(alloc, vault, names.digests)?;
    let honest = image_of(alloc, h, vault, names.honest)?;
    let found = found_beside(
        alloc,
        h,
        vault,
        &honest,
        names.suspect,
        digests.as_slice(),
        tx,
    );
    drop(honest);
    found
}

/// The transaction of whose receipts a line is, and the line behind.
fn parted(line: &str) -> Option<(Option<u64>, &str)> {
    match line.strip_prefix("settle ") {
        Some(rest) => {
            let (tx, rest) = rest.split_once(' ')?;
            let tx = tx.parse::<u64>().ok()?;
            Some((Some(tx), rest))
        }
        None => Some((None, line)),
    }
}

/// What is found of a line's images.
fn answer<V: Vault>(alloc: Global, vault: &mut V, line: &str) -> Result<String, Fault> {
    let Some((tx, rest)) = parted(line) else {
        return Err(Fault::Form("the line is no case"));
    };
    let Some((name, names)) = words_of(rest) else {
        return Err(Fault::Form("the line is no case"));
    };
    match NamedHash::named(name) {
        Some(hash) => found(alloc, hash, vault, names, tx),
        None => Err(Fault::Form("the line is no case")),
    }
}

fn main(rt: HostRuntime) -> io::Result<()> {
    let mut vault = FolderVault::new(rt);
    for line in rt.lines(rt.alloc()) {
        let line = line?;
        if line.is_empty() || line.starts_with("#") {
            println!(rt; "{line}")?;
            continue;
        }
        println!(rt; "> {line}")?;
        match answer(rt.alloc(), &mut vault, line.as_str()) {
            Ok(text) => println!(rt; "{text}")?,
            Err(Fault::Form(what)) => println!(rt; "{what}")?,
            Err(Fault::Memory) => println!(rt; "no memory")?,
        }
    }
    Ok(())
}
