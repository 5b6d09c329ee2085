//! How tokens are written.

ghost use Rattle.std.specs.Prelude.{◌≡◌, ◌∷◌, [], ◌++◌, List, ℕ, OnOk};
ghost use Rattle.spec_syntax.specs.Input.{Sym};
ghost use Rattle.spec_syntax.specs.Page as spec;
ghost use Rattle.spec_syntax.specs.Printed as printed;

use base_types::{Memory, Name};
use itoa::Buffer;
use spec_syntax::Tag;
use sql_scalar::print_literal;
use sql_value::Value;
use std::alloc::Global;
use std::marker::Model;

/// A text that tokens are written to: with one blank between two of them, but none behind `(` and none before
/// `)` and `,`.
#[derive(Drop)]
pub struct Page {
    text: Vec<u8>,
    /// Nothing is written yet, or `(` was written last.
    opened: bool,
}

impl Model for Page {
    ghost use Rattle.spec_syntax.specs.Page as spec;

    ghost Value = { spec.Page };

    ghost view = { λ p. record { text = p.text.items; opened = p.opened } };
}

/// Whether no blank stands behind it.
fn opens(tag: Tag) -> bool
    ensures { result ≡ spec.opens tag }
{
    matches!(tag, Tag::Open)
}

/// Whether no blank stands before it.
fn touches(tag: Tag) -> bool
    ensures { result ≡ spec.touches tag }
{
    matches!(tag, Tag::Close | Tag::Comma)
}

/// How a sign or a reserved word is printed.
#[tactic(auto, unfolding(spec_syntax::specs::Printed::spelling))]
fn spelling(tag: Tag) -> &'static str
    ensures { result.now ≡ printed.spelling tag }
{
    match tag {
        Tag::Open => "(",
        Tag::Close => ")",
        Tag::Comma => ",",
        Tag::Equal => "=",
        Tag::NotEqual => "<>",
        Tag::Less => "<",
        Tag::LessEqual => "<=",
        Tag::Greater => ">",
        Tag::GreaterEqual => ">=",
        Tag::Plus => "+",
        Tag::Minus => "-",
        Tag::Star => "*",
        Tag::Add => "ADD",
        Tag::Alter => "ALTER",
        Tag::And => "AND",
        Tag::Asc => "ASC",
        Tag::Begin => "BEGIN",
        Tag::By => "BY",
        Tag::Column => "COLUMN",
        Tag::Commit => "COMMIT",
        Tag::Create => "CREATE",
        Tag::Delete => "DELETE",
        Tag::Desc => "DESC",
        Tag::Drop => "DROP",
        Tag::Execute => "EXECUTE",
        Tag::From => "FROM",
        Tag::Index => "INDEX",
        Tag::Insert => "INSERT",
        Tag::Into => "INTO",
        Tag::Is => "IS",
        Tag::Key => "KEY",
        Tag::Not => "NOT",
        Tag::Null => "NULL",
        Tag::On => "ON",
        Tag::Or => "OR",
        Tag::Order => "ORDER",
        Tag::Primary => "PRIMARY",
        Tag::Rollback => "ROLLBACK",
        Tag::Save => "SAVE",
        Tag::Select => "SELECT",
        Tag::Set => "SET",
        Tag::Table => "TABLE",
        Tag::Transaction => "TRANSACTION",
        Tag::Update => "UPDATE",
        Tag::Values => "VALUES",
        Tag::Where => "WHERE",
        Tag::With => "WITH",
        _ => "",
    }
}

fn literal_tag(v: &Value) -> Tag
    ensures { result ≡ printed.literal_tag v.now }
{
    match v {
        Value::Null => Tag::Null,
        Value::Num { .. } => Tag::Number,
        Value::Text(_) | Value::Date(_) => Tag::Text,
        Value::Bytes(_) => Tag::Bytes,
    }
}

impl Page {
    /// Nothing is written. Takes no memory.
    pub fn new(alloc: Global) -> Page
        ensures { result ≡ spec.no_page }
    {
        Page {
            text: Vec::new(alloc),
            opened: true,
        }
    }

    /// What is written.
    pub fn into_text(self) -> Vec<u8>
        ensures { result.items ≡ self.text }
    {
        let Page { text, .. } = self;
        text
    }

    /// Writes what stands before a token.
    #[tactic(auto, unfolding(spec_syntax::specs::Page::begin))]
    fn begin(&mut self, tag: Tag) -> Result<(), Memory>
        ensures { OnOk result (self.new ≡ spec.begin self.old tag) }
    {
        if !self.opened && !touches(tag) {
            self.text.push(b' ')?;
        }
        self.opened = opens(tag);
        Ok(())
    }

    #[tactic(auto, unfolding(spec_syntax::specs::Page::append))]
    fn append(&mut self, word: &str) -> Result<(), Memory>
        ensures { OnOk result (self.new ≡ spec.append self.old word.now) }
    {
        self.text.extend_from_slice(word.as_bytes())?;
        Ok(())
    }

    /// Writes a sign or a reserved word.
    pub fn key(&mut self, tag: Tag) -> Result<(), Memory>
        ensures { OnOk result (self.new ≡ spec.put self.old (printed.key tag)) }
    {
        self.begin(tag)?;
        self.append(spelling(tag))
    }

    /// Writes a word that isn't reserved.
    pub fn word(&mut self, word: &str) -> Result<(), Memory>
        ensures { OnOk result (self.new ≡ spec.put self.old (printed.word word.now)) }
    {
        self.begin(Tag::Word)?;
        self.append(word)
    }

    /// Writes the digits of a number.
    pub fn digits(&mut self, n: u32) -> Result<(), Memory>
        ensures { OnOk result (self.new ≡ spec.put self.old (printed.digits n)) }
    {
        self.begin(Tag::Number)?;
        self.append(Buffer::new().format(n))
    }

    /// Writes a name in brackets.
    #[tactic(auto, unfolding(spec_syntax::specs::Page::append))]
    pub fn name(&mut self, name: &Name) -> Result<(), Memory>
        ensures { OnOk result (self.new ≡ spec.put self.old (printed.name name.now)) }
    {
        self.begin(Tag::Bracketed)?;
        self.append("[")?;
        self.append(name.as_str())?;
        self.append("]")
    }

    /// Writes a literal, a negative number with its sign directly before it.
    #[tactic(auto, unfolding(spec_syntax::specs::Page::append))]
    pub fn literal(&mut self, v: &Value) -> Result<(), Memory>
        ensures { OnOk result (self.new ≡ spec.put self.old (printed.literal_sym v.now)) }
    {
        self.begin(literal_tag(v))?;
        print_literal(v, &mut self.text)
    }
}
