//! What it is to keep the rules.

ghost use Rattle.std.specs.Prelude.{ℤ, ◌≡◌, ◌↔◌, true, List, Option};
ghost use Rattle.sql_types.specs.declared.entry.TxEntry.{TxEntry};
ghost use Rattle.sql_types.specs.declared.version.Version.{Version};
ghost use Rattle.spec_rules.specs.Rows.{CatalogRows};
ghost use Rattle.spec_rules.specs.Rules.{keeps_the_rules, version_keeps_the_rules};
ghost use Rattle.spec_rules.specs.Rules.{KeepsTheRules, VersionKeepsTheRules};

/// The rows about a table keep the rules exactly if each rule holds of them, and so does a version.
pub fn the_rules_are_kept_one_by_one()
    ensures rows { (entries : List TxEntry) (rows : CatalogRows) (t : ℤ)
        → (keeps_the_rules entries rows t ≡ true) ↔ KeepsTheRules entries rows t }
    ensures versions { (entries : List TxEntry) (rows : CatalogRows) (t : ℤ) (last : Option Version) (v : Version)
        → (version_keeps_the_rules entries rows t last v ≡ true) ↔ VersionKeepsTheRules entries rows t last v }
{}
