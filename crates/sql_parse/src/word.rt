//! Words that are not reserved, but stand for something where they stand.

ghost use Rattle.std.specs.Prelude.{◌≡◌};
ghost use Rattle.std.specs.Str.{str_eq_ignore_ascii_case};
ghost use Rattle.spec_syntax.specs.Input.{ParsesUnlessOom};
ghost use Rattle.spec_syntax.specs.Words as spec;

use crate::cursor::Cursor;
use crate::name::name_text;
use spec_syntax::{CallName, OptionName, ParseErr, Tag, TypeName};

fn is(word: &str, known: &str) -> bool
    ensures { result ≡ spec.is word.now known.now }
{
    word.eq_ignore_ascii_case(known)
}

#[tactic(auto, unfolding(spec_syntax::specs::Words::type_name))]
fn type_name(word: &str) -> Option<TypeName>
    ensures { result ≡ spec.type_name word.now }
{
    if is(word, "BIT") {
        Some(TypeName::Bit)
    } else if is(word, "INT") {
        Some(TypeName::Int)
    } else if is(word, "BIGINT") {
        Some(TypeName::BigInt)
    } else if is(word, "DATE") {
        Some(TypeName::Date)
    } else if is(word, "DECIMAL") {
        Some(TypeName::Decimal)
    } else if is(word, "NVARCHAR") {
        Some(TypeName::NVarChar)
    } else if is(word, "VARBINARY") {
        Some(TypeName::VarBinary)
    } else {
        None
    }
}

#[tactic(auto, unfolding(spec_syntax::specs::Words::option_name))]
fn option_name(word: &str) -> Option<OptionName>
    ensures { result ≡ spec.option_name word.now }
{
    if is(word, "LEDGER") {
        Some(OptionName::Ledger)
    } else if is(word, "SYSTEM_VERSIONING") {
        Some(OptionName::SystemVersioning)
    } else if is(word, "HISTORY_TABLE") {
        Some(OptionName::HistoryTable)
    } else if is(word, "LEDGER_VIEW") {
        Some(OptionName::LedgerView)
    } else if is(word, "APPEND_ONLY") {
        Some(OptionName::AppendOnly)
    } else {
        None
    }
}

#[tactic(auto, unfolding(spec_syntax::specs::Words::call_name))]
fn call_name(word: &str) -> Option<CallName>
    ensures { result ≡ spec.call_name word.now }
{
    if is(word, "COUNT") {
        Some(CallName::Count)
    } else if is(word, "SUM") {
        Some(CallName::Sum)
    } else if is(word, "sys") {
        Some(CallName::Sys)
    } else if is(word, "sp_generate_database_ledger_digest") {
        Some(CallName::Digest)
    } else if is(word, "IMAGE") {
        Some(CallName::Image)
    } else {
        None
    }
}

/// A type's name, which may stand in brackets.
#[tactic(auto, unfolding(spec_syntax::specs::Words::type_word))]
pub(crate) fn type_word(c: &mut Cursor<'_>) -> Result<TypeName, ParseErr>
    ensures { ParsesUnlessOom (spec.type_word c.old) result c.new }
{
    type_name(name_text(c)?).ok_or(ParseErr::Syntax)
}

/// An option's name, which may stand in brackets.
#[tactic(auto, unfolding(spec_syntax::specs::Words::option_word))]
pub(crate) fn option_word(c: &mut Cursor<'_>) -> Result<OptionName, ParseErr>
    ensures { ParsesUnlessOom (spec.option_word c.old) result c.new }
{
    option_name(name_text(c)?).ok_or(ParseErr::Syntax)
}

/// A word of a call, which stands bare.
#[tactic(auto, unfolding(spec_syntax::specs::Words::call_word))]
pub(crate) fn call_word(c: &mut Cursor<'_>) -> Result<CallName, ParseErr>
    ensures { ParsesUnlessOom (spec.call_word c.old) result c.new }
{
    match c.peek() {
        Tag::Word => call_name(c.take()).ok_or(ParseErr::Syntax),
        _ => Err(ParseErr::Syntax),
    }
}
