//! A text that is written piece by piece.

use crate::fault::Fault;
use crate::texts::text_of;
use sql_scalar::print;
use sql_value::Value;
use std::alloc::{AllocError, Global};
use std::fmt::Debug;

/// A text so far. Where memory was wanting for a piece, the page keeps that for whoever takes the text.
#[derive(Drop)]
pub struct Page {
    text: Vec<u8>,
    alloc: Global,
    /// Whether there was memory for each piece.
    whole: bool,
}

impl Page {
    pub fn new(alloc: Global) -> Page {
        Page {
            text: Vec::new(alloc),
            alloc,
            whole: true,
        }
    }

    pub fn put_bytes(&mut self, bytes: &[u8]) {
        if self.text.extend_from_slice(bytes).is_err() {
            self.whole = false;
        }
    }

    pub fn put(&mut self, text: &str) {
        self.put_bytes(text.as_bytes());
    }

    fn put_made(&mut self, made: &Result<String, AllocError>) {
        match made {
            Ok(text) => self.put(text.as_str()),
            Err(_) => self.whole = false,
        }
    }

    /// Puts a number in decimal digits.
    pub fn put_number(&mut self, number: u64) {
        let made = format!(in self.alloc; "{number}");
        self.put_made(&made);
    }

    /// Puts a value as `{:?}` prints it.
    pub fn put_shown<T: Debug>(&mut self, value: &T) {
        let made = format!(in self.alloc; "{value:?}");
        self.put_made(&made);
    }

    /// Puts bytes in hexadecimal digits.
    pub fn put_digits(&mut self, bytes: &[u8]) {
        let made = hex::encode(self.alloc, bytes);
        self.put_made(&made);
    }

    /// Puts a value as it is printed.
    pub fn put_value(&mut self, value: &Value) {
        if print(value, &mut self.text).is_err() {
            self.whole = false;
        }
    }

    fn put_in_line(&mut self, byte: u8) {
        match byte {
            b'\n' => self.put("\\n"),
            b'\r' => self.put("\\r"),
            _ => self.put_bytes(&[byte]),
        }
    }

    /// Puts a text with `\n` and `\r` in the place of the ends of its lines.
    pub fn put_on_one_line(&mut self, text: &str) {
        for byte in text.as_bytes() {
            self.put_in_line(*byte);
        }
    }

    pub fn is_empty(&self) -> bool {
        self.text.is_empty()
    }

    /// What was put.
    pub fn bytes(&self) -> Result<&[u8], Fault> {
        if self.whole {
            Ok(self.text.as_slice())
        } else {
            Err(Fault::Memory)
        }
    }

    /// What was put, where it is a text.
    pub fn text(&self) -> Result<&str, Fault> {
        text_of(self.bytes()?)
    }
}
