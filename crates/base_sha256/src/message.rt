//! Messages of two pieces.

/// A message, given as two pieces that are taken as one.
#[derive(Clone, Copy)]
pub struct Message<'a> {
    pub head: &'a [u8],
    pub rest: &'a [u8],
}
