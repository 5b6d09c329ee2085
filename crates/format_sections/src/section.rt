//! One section of the input: the statements behind the line that begins it.

ghost use Rattle.std.specs.Prelude.{◌≡◌, ◌||◌, ◌+◌, ◌<◌, ◌≤◌, ◌^◌, ℕ, List, length, map, option_map, IfOk, IfSome, Some, None, Err};
ghost use Rattle.std.specs.Str.{bytes_eq};
ghost use Rattle.format_sections.specs.Kind.{kind_view, kinds_of};
ghost use Rattle.format_sections.specs.Names.{has};
ghost use Rattle.format_sections.specs.RunSections.{section_view, statements_of, statements_answered, statements_run};
ghost use Rattle.format_sections.specs.UnreadInput as spec;
ghost use Rattle.format_sections.specs.UnreadInput.{behind_first, behind_section, behind_setup, setup_at, first_head};

use crate::kind::{LineKind, SectionKind, UnreadInput, next_line};
use crate::names::add_name;
use base_types::{Memory, is_session_name};
use std::alloc::{AllocFailed, Global};
use std::collections::BTreeSet;

/// The statements of one section, in their order. They and the name are parts of the input.
#[derive(Debug, Drop)]
pub struct Section<'a> {
    pub name: &'a str,
    pub kind: SectionKind,
    pub statements: Vec<&'a str>,
}

/// What the session of a snapshot runs.
const SNAPSHOT_STATEMENTS: [&str; 1] = ["SAVE IMAGE"];

impl<'a> Section<'a> {
    /// The statements that its session runs: that of a snapshot runs one, which keeps the image.
    pub fn statements_run(&self) -> &[&'a str]
        ensures { map (λ t. t.now) result.now ≡ statements_run (section_view self.now) }
    {
        match self.kind {
            SectionKind::Session => &self.statements,
            SectionKind::Snapshot => &SNAPSHOT_STATEMENTS,
        }
    }

    /// Those that are answered over this image.
    pub fn statements_answered(&self) -> &[&'a str]
        ensures { map (λ t. t.now) result.now ≡ statements_answered (section_view self.now) }
    {
        match self.kind {
            SectionKind::Session => &[],
            SectionKind::Snapshot => &self.statements,
        }
    }
}

/// Why the input isn't read.
#[derive(Clone, Copy, Debug, PartialEq, Eq)]
pub enum SectionsErr {
    /// The first line that lacks its form, from 1 on.
    Form { line: u64 },
    /// There is no more memory.
    Memory,
}

impl From<Memory> for SectionsErr {
    ghost use Rattle.std.specs.Prelude.{◌≡◌};
    ghost use Rattle.format_sections.specs.declared.section.SectionsErr.TheVariants as sections_err;

    ghost from_gives = { λ _ e. e ≡ sections_err.Memory };

    fn from(_: Memory) -> SectionsErr {
        SectionsErr::Memory
    }
}

impl<T: Drop> From<AllocFailed<T>> for SectionsErr {
    ghost use Rattle.std.specs.Prelude.{◌≡◌};
    ghost use Rattle.format_sections.specs.declared.section.SectionsErr.TheVariants as sections_err;

    ghost from_gives = { λ _ e. e ≡ sections_err.Memory };

    fn from(_: AllocFailed<T>) -> SectionsErr {
        SectionsErr::Memory
    }
}

/// The statements of a section, and what stands behind it.
fn read_statements<'a>(
    alloc: Global,
    start: UnreadInput<'a>,
) -> Result<(Vec<&'a str>, UnreadInput<'a>), Memory>
    requires { start.before + length start.bytes.now < 2 ^ 63 }
    ensures statements { IfOk result
        (λ r. map (λ t. t.now) r.0.items ≡ statements_of (kinds_of start.entry.bytes.now)) }
    ensures behind { IfOk result
        (λ r. kinds_of r.1.bytes.now ≡ behind_section (kinds_of start.entry.bytes.now)) }
    ensures before { IfOk result (λ r. r.1.before + length (kinds_of r.1.bytes.now)
        ≡ start.entry.before + length (kinds_of start.entry.bytes.now)) }
    ensures within { IfOk result
        (λ r. r.1.before + length r.1.bytes.now ≤ start.entry.before + length start.entry.bytes.now) }
    ensures count { IfOk result (λ r. start.entry.before + length r.0.items ≤ r.1.before) }
{
    let mut statements = Vec::new(alloc);
    let mut rest = start;
    while !rest.bytes.is_empty() {
        let (kind, behind) = next_line(rest);
        match kind {
            LineKind::Skipped => {}
            LineKind::Statement(text) => statements.push(text)?,
            LineKind::Setup | LineKind::Section(..) | LineKind::NoText => {
                return Ok((statements, rest));
            }
        }
        rest = behind;
    }
    Ok((statements, rest))
}

/// What stands behind the first lines that are skipped.
pub(crate) fn behind_skipped(bytes: &[u8]) -> UnreadInput<'_>
    ensures behind { kinds_of result.bytes.now ≡ spec.behind_skipped (kinds_of bytes.now) }
    ensures before { result.before + length (kinds_of result.bytes.now) ≡ length (kinds_of bytes.now) }
    ensures within { result.before + length result.bytes.now ≤ length bytes.now }
{
    let mut rest = UnreadInput { bytes, before: 0 };
    while !rest.bytes.is_empty() {
        let (kind, behind) = next_line(rest);
        match kind {
            LineKind::Skipped => rest = behind,
            LineKind::Setup | LineKind::Section(..) | LineKind::Statement(_) | LineKind::NoText =>
                return rest,
        }
    }
    rest
}

/// The statements of the setup, where the first line begins them, and what stands behind them.
pub(crate) fn read_setup<'a>(
    alloc: Global,
    rest: UnreadInput<'a>,
) -> Result<(Vec<&'a str>, UnreadInput<'a>), Memory>
    requires { rest.before + length rest.bytes.now < 2 ^ 63 }
    ensures statements { IfOk result
        (λ r. map (λ t. t.now) r.0.items ≡ setup_at (kinds_of rest.entry.bytes.now)) }
    ensures behind { IfOk result
        (λ r. kinds_of r.1.bytes.now ≡ behind_setup (kinds_of rest.entry.bytes.now)) }
    ensures before { IfOk result (λ r. r.1.before + length (kinds_of r.1.bytes.now)
        ≡ rest.entry.before + length (kinds_of rest.entry.bytes.now)) }
    ensures within { IfOk result
        (λ r. r.1.before + length r.1.bytes.now ≤ rest.entry.before + length rest.entry.bytes.now) }
    ensures count { IfOk result (λ r. rest.entry.before + length r.0.items ≤ r.1.before) }
{
    if !rest.bytes.is_empty() {
        let (kind, behind) = next_line(rest);
        if let LineKind::Setup = kind {
            return read_statements(alloc, behind);
        }
    }
    Ok((Vec::new(alloc), rest))
}

/// The kind and the name of the section that a line begins, where the name is new; it is then among the names.
fn new_head<'a>(
    names: &mut BTreeSet<&'a str>,
    line: LineKind<'a>,
) -> Result<Option<(SectionKind, &'a str)>, Memory>
    ensures head { IfOk result
        (λ found. option_map (λ p. (p.0, p.1.now)) found ≡ spec.new_head names.old (kind_view line.entry)) }
    ensures added { IfOk result (λ found. IfSome found
        (λ p. (q : List ℕ) → has names.new q ≡ (bytes_eq q p.1.now || has names.old q))) }
{
    let LineKind::Section(kind, name) = line else {
        return Ok(None);
    };
    if is_session_name(name.as_bytes()) && add_name(names, name)? {
        Ok(Some((kind, name)))
    } else {
        Ok(None)
    }
}

/// The section that the first line has to begin, whose name is new, and what stands behind it.
pub(crate) fn read_section<'a>(
    alloc: Global,
    names: &mut BTreeSet<&'a str>,
    rest: UnreadInput<'a>,
) -> Result<(Section<'a>, UnreadInput<'a>), SectionsErr>
    requires some { 0 < length rest.bytes.now }
    requires fits { rest.before + length rest.bytes.now < 2 ^ 63 }
    ensures head { IfOk result
        (λ r. first_head names.old (kinds_of rest.entry.bytes.now) ≡ Some (r.0.kind, r.0.name.now)) }
    ensures statements { IfOk result (λ r. map (λ t. t.now) r.0.statements.items
        ≡ statements_of (behind_first (kinds_of rest.entry.bytes.now))) }
    ensures behind { IfOk result
        (λ r. kinds_of r.1.bytes.now ≡ behind_section (behind_first (kinds_of rest.entry.bytes.now))) }
    ensures before { IfOk result (λ r. r.1.before + length (kinds_of r.1.bytes.now)
        ≡ rest.entry.before + length (kinds_of rest.entry.bytes.now)) }
    ensures within { IfOk result
        (λ r. r.1.before + length r.1.bytes.now ≤ rest.entry.before + length rest.entry.bytes.now) }
    ensures count { IfOk result (λ r. rest.entry.before + 1 + length r.0.statements.items ≤ r.1.before) }
    ensures added { IfOk result
        (λ r. (q : List ℕ) → has names.new q ≡ (bytes_eq q r.0.name.now || has names.old q)) }
    ensures form { (line : ℕ) → result ≡ Err (SectionsErr.Form line)
        → (line ≡ rest.entry.before + 1) × (0 < length (kinds_of rest.entry.bytes.now))
        × (first_head names.old (kinds_of rest.entry.bytes.now) ≡ None) }
{
    let (line, behind) = next_line(rest);
    let Some((kind, name)) = new_head(names, line)? else {
        return Err(SectionsErr::Form {
            line: behind.before,
        });
    };
    let (statements, behind) = read_statements(alloc, behind)?;
    Ok((
        Section {
            name,
            kind,
            statements,
        },
        behind,
    ))
}
