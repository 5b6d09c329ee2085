//! What a token is to the grammar.

ghost use Rattle.std.specs.Prelude.{◌≡◌, ◌≢◌, map, true, false};
ghost use Rattle.std.specs.Str.{str_eq_ignore_ascii_case};
ghost use Rattle.spec_syntax.specs.Tags as spec;

use sql_lex::Kind;

#[derive(Clone, Copy, Debug, PartialEq, Eq)]
pub enum Tag {
    End,
    Word,
    Bracketed,
    Number,
    Text,
    Bytes,
    Unknown,
    // Signs.
    Open,
    Close,
    Comma,
    Semi,
    Equal,
    NotEqual,
    Less,
    LessEqual,
    Greater,
    GreaterEqual,
    Plus,
    Minus,
    Star,
    Dot,
    // Reserved words.
    Add,
    Alter,
    And,
    As,
    Asc,
    Begin,
    By,
    Clustered,
    Column,
    Commit,
    Create,
    Delete,
    Desc,
    Drop,
    Exec,
    Execute,
    From,
    In,
    Index,
    Insert,
    Into,
    Is,
    Key,
    Nonclustered,
    Not,
    Null,
    Of,
    On,
    Or,
    Order,
    Primary,
    Rollback,
    Save,
    Select,
    Set,
    Table,
    Tran,
    Transaction,
    Update,
    Values,
    Where,
    With,
}

/// The reserved words.
pub const RESERVED: [(&[u8], Tag); 42] = [
    (b"add", Tag::Add),
    (b"alter", Tag::Alter),
    (b"and", Tag::And),
    (b"as", Tag::As),
    (b"asc", Tag::Asc),
    (b"begin", Tag::Begin),
    (b"by", Tag::By),
    (b"clustered", Tag::Clustered),
    (b"column", Tag::Column),
    (b"commit", Tag::Commit),
    (b"create", Tag::Create),
    (b"delete", Tag::Delete),
    (b"desc", Tag::Desc),
    (b"drop", Tag::Drop),
    (b"exec", Tag::Exec),
    (b"execute", Tag::Execute),
    (b"from", Tag::From),
    (b"in", Tag::In),
    (b"index", Tag::Index),
    (b"insert", Tag::Insert),
    (b"into", Tag::Into),
    (b"is", Tag::Is),
    (b"key", Tag::Key),
    (b"nonclustered", Tag::Nonclustered),
    (b"not", Tag::Not),
    (b"null", Tag::Null),
    (b"of", Tag::Of),
    (b"on", Tag::On),
    (b"or", Tag::Or),
    (b"order", Tag::Order),
    (b"primary", Tag::Primary),
    (b"rollback", Tag::Rollback),
    (b"save", Tag::Save),
    (b"select", Tag::Select),
    (b"set", Tag::Set),
    (b"table", Tag::Table),
    (b"tran", Tag::Tran),
    (b"transaction", Tag::Transaction),
    (b"update", Tag::Update),
    (b"values", Tag::Values),
    (b"where", Tag::Where),
    (b"with", Tag::With),
];

/// The signs.
pub const SIGNS: [(&[u8], Tag); 15] = [
    (b"(", Tag::Open),
    (b")", Tag::Close),
    (b",", Tag::Comma),
    (b";", Tag::Semi),
    (b"=", Tag::Equal),
    (b"<>", Tag::NotEqual),
    (b"<", Tag::Less),
    (b"<=", Tag::LessEqual),
    (b">", Tag::Greater),
    (b">=", Tag::GreaterEqual),
    (b"+", Tag::Plus),
    (b"-", Tag::Minus),
    (b"*", Tag::Star),
    (b".", Tag::Dot),
    (b"!=", Tag::NotEqual),
];

pub fn same_tag(a: Tag, b: Tag) -> bool
    ensures value { result ≡ spec.same_tag a b }
    ensures same { result ≡ true → a ≡ b }
{
    a == b
}

pub(crate) fn same_word(a: &[u8], b: &[u8]) -> bool
    ensures { result ≡ str_eq_ignore_ascii_case a.now b.now }
{
    a.eq_ignore_ascii_case(b)
}

fn lookup(mut table: &[(&[u8], Tag)], word: &[u8], other: Tag) -> Tag
    ensures { result ≡ spec.lookup (map (λ k. (k.0.now, k.1)) table.entry.now) word.now other }
{
    while let [entry, rest @ ..] = table {
        if same_word(entry.0, word) {
            return entry.1;
        }
        table = rest;
    }
    other
}

#[tactic(auto, unfolding(crate::specs::Tags::tag_of))]
pub fn tag_of(kind: Kind, word: &[u8]) -> Tag
    ensures { result ≡ spec.tag_of kind word.now }
{
    match kind {
        Kind::Word => lookup(&RESERVED, word, Tag::Word),
        Kind::Bracketed => Tag::Bracketed,
        Kind::Number => Tag::Number,
        Kind::Text => Tag::Text,
        Kind::Bytes => Tag::Bytes,
        Kind::Sign => lookup(&SIGNS, word, Tag::Unknown),
    }
}
