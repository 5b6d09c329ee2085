//! Laws of the sections of an input.

ghost use Rattle.std.specs.Prelude.{◌≡◌, ◌∷◌, ◌++◌, [], ℕ, List, length, Some, None};
ghost use Rattle.std.specs.List.{slice_get};
ghost use Rattle.format_sections.specs.Form.{HaveForm, IsFirstLacking, first_lacking, names_of};
ghost use Rattle.format_sections.specs.Kind.{Kind, SectionLine};
ghost use Rattle.format_sections.specs.declared.kind.SectionKind.{SectionKind};
ghost use Rattle.format_sections.specs.RunSections.{run_sections_of, statements_of_sections, sessions_of, statements_of, texts_of};

/// The line that is named is the first that lacks its form behind those before it; where none is named, each
/// line has its form.
pub fn form_law()
    ensures named { (lines : List Kind) (number : ℕ) → first_lacking [] lines ≡ Some number
        → IsFirstLacking lines number }
    ensures none { (lines : List Kind) → first_lacking [] lines ≡ None → HaveForm lines }
{}

/// The line of a section begins one of its kind with its name, which has the statements behind that line; there
/// is one for each such line, in their order.
pub fn sections_law()
    ensures section { (before more : List Kind) (kind : SectionKind) (name : List ℕ)
        → slice_get (sessions_of (before ++ SectionLine kind name ∷ more)) (length (names_of before))
        ≡ Some (record { name = name; kind = kind; statements = statements_of more }) }
    ensures count { (lines : List Kind) → length (sessions_of lines) ≡ length (names_of lines) }
{}

/// Where each line has its form, the statements of the plan are all that the lines are, in their order.
pub fn statements_law()
    ensures { (lines : List Kind) → first_lacking [] lines ≡ None
        → statements_of_sections (run_sections_of lines) ≡ texts_of lines }
{}
