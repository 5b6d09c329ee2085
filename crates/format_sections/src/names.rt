//! The names that have come.

ghost use Rattle.std.specs.Prelude.{◌≡◌, ◌||◌, ℕ, List, not, IfOk, OnOk, codes};
ghost use Rattle.std.specs.Str.{bytes_eq};
ghost use Rattle.format_sections.specs.Names.{has};

use base_types::Memory;
use std::alloc::Global;
use std::collections::BTreeSet;

/// Adds a name, and says whether it is new.
#[tactic(auto, using(crate::proofs::Come::added))]
pub(crate) fn add_name<'a>(names: &mut BTreeSet<&'a str>, name: &'a str) -> Result<bool, Memory>
    ensures new { IfOk result (λ new. new ≡ not (has names.old name.now)) }
    ensures added { OnOk result ((q : List ℕ) → has names.new q ≡ (bytes_eq q name.now || has names.old q)) }
{
    Ok(names.insert(name)?)
}

/// The names before the first line: that of the setup counts as come.
pub(crate) fn first_names<'a>(alloc: Global) -> Result<BTreeSet<&'a str>, Memory>
    ensures { IfOk result (λ names. (q : List ℕ) → has names q ≡ bytes_eq q (codes "setup")) }
{
    let mut names = BTreeSet::new(alloc);
    add_name(&mut names, "setup")?;
    Ok(names)
}
