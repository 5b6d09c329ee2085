//! Answers cases, one in each line of standard input, by public calls of the libraries. Its stored run holds
//! the tables of cases that were worked out by hand: a line of `stdout` is what the same line of `stdin` is
//! to be answered.
#![tactic(auto)]

mod answers;
mod digests;
mod expressions;
mod fault;
mod hashes;
mod images;
mod locks;
mod page;
mod paths;
mod pieces;
mod records;
mod replies;
mod selecting;
mod statements;
mod tables;
mod texts;
mod trees;
mod values;

use answers::answer;
use fault::Fault;
use page::Page;
use pieces::Pieces;
use std::io;

fn main(rt: HostRuntime) -> io::Result<()> {
    let mut pieces = Pieces::new(rt.alloc());
    for line in rt.lines(rt.alloc()) {
        let mut page = Page::new(rt.alloc());
        let given = answer(rt.alloc(), &mut pieces, line?.as_str(), &mut page);
        print(&rt, given, &page)?;
    }
    Ok(())
}

/// Prints the answer that was given, or why there is none.
fn print(rt: &impl Print, given: Result<(), Fault>, page: &Page) -> io::Result<()> {
    match given.and(page.text()) {
        Ok(text) => println!(rt; "{text}"),
        Err(Fault::Form(what)) => println!(rt; "no case: {what}"),
        Err(Fault::Memory) => println!(rt; "no memory"),
    }
}
