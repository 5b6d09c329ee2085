//! A token, as what it is to the grammar.

use crate::tag::Tag;

/// A token: what it is to the grammar, and how it is written.
#[derive(Clone, Copy)]
pub struct Piece<'a> {
    pub tag: Tag,
    pub text: &'a str,
}
