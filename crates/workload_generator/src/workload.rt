// The workload as a plan of sessions side by side.
ghost use Rattle.std.specs.Prelude.{◌≡◌, IfOk, map, string_bytes};
ghost use Rattle.workload_generator.specs.Texts.{sections_said, section_said};
ghost use Rattle.workload_generator.specs.Workload as spec;
ghost use Rattle.format_sections.specs.RunSections.{run_sections_view, section_view};

use crate::texts::{create_text, nth_text, session_name, statement_count};
use base_types::Memory;
use format_sections::{RunSections, Section, SectionKind};
use std::alloc::Global;

/// The numbers of the tables, each with a session of its own.
const TABLES: [u8; 4] = [1, 2, 3, 4];

/// The name of a session, and the texts of its statements.
#[derive(Drop)]
pub struct SessionTexts {
    pub name: String,
    pub statements: Vec<String>,
}

/// The texts of the workload: those of the setup, and those of each table's session.
#[derive(Drop)]
pub struct Workload {
    pub setup: Vec<String>,
    pub sessions: Vec<SessionTexts>,
}

/// The statements of the session of a table on so many rows.
fn statements_of(alloc: Global, table: u8, rows: u32) -> Result<Vec<String>, Memory>
    ensures { IfOk result (λ texts. map string_bytes texts.items ≡ spec.session_texts table rows) }
{
    let count = statement_count(rows);
    let mut texts = Vec::with_capacity(alloc, count as usize)?;
    for n in 0..count {
        texts.push(nth_text(alloc, table, n)?)?;
    }
    Ok(texts)
}

/// The texts as parts of a plan, which copies none.
fn borrowed<'a>(alloc: Global, texts: &'a [String]) -> Result<Vec<&'a str>, Memory>
    ensures { IfOk result (λ strs. map (λ t. t.now) strs.items ≡ map string_bytes texts.entry.now) }
{
    let mut strs = Vec::with_capacity(alloc, texts.len())?;
    for text in texts {
        strs.push(text.as_str())?;
    }
    Ok(strs)
}

fn section<'a>(alloc: Global, session: &'a SessionTexts) -> Result<Section<'a>, Memory>
    ensures { IfOk result (λ section. section_view section ≡ section_said session.entry.now) }
{
    Ok(Section {
        name: session.name.as_str(),
        kind: SectionKind::Session,
        statements: borrowed(alloc, &session.statements)?,
    })
}

impl Workload {
    /// The texts on so many rows of each table.
    pub fn new(alloc: Global, rows: u32) -> Result<Workload, Memory>
        ensures { IfOk result (λ workload. sections_said workload ≡ spec.workload_sections rows) }
    {
        let mut setup = Vec::new(alloc);
        let mut sessions = Vec::new(alloc);
        for table in &TABLES {
            setup.push(create_text(alloc, *table)?)?;
            sessions.push(SessionTexts {
                name: session_name(alloc, *table)?,
                statements: statements_of(alloc, *table, rows)?,
            })?;
        }
        Ok(Workload { setup, sessions })
    }

    /// The plan that the texts say. It copies none of them.
    pub fn all_sections<'a>(&'a self, alloc: Global) -> Result<RunSections<'a>, Memory>
        ensures { IfOk result (λ all_sections. run_sections_view all_sections ≡ sections_said self.entry.now) }
    {
        let mut sessions = Vec::with_capacity(alloc, self.sessions.len())?;
        for session in &self.sessions {
            sessions.push(section(alloc, session)?)?;
        }
        Ok(RunSections {
            setup: borrowed(alloc, &self.setup)?,
            sessions,
        })
    }
}
