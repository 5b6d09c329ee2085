//! Laws of images and of their bytes.

ghost use Rattle.std.specs.Prelude.{ℕ, ◌≡◌, ◌∷◌, ◌++◌, List, [], codes, replicate};
ghost use Rattle.sql_types.specs.declared.image.Image.{Image};
ghost use Rattle.spec_model.specs.Script.{Reading};
ghost use Rattle.format_image.specs.Image.{image_of};
ghost use Rattle.format_image.specs.ImageBytes.{image_bytes, image_bytes_1, IsImage, IsSpellingOf};

/// A spelling is of one image, and no image's bytes begin another's, in whichever versions they are.
pub fn equal_bytes_are_of_equal_images()
    ensures equal { (bytes : List ℕ) (i j : Image) → IsImage i → IsImage j
        → IsSpellingOf bytes i → IsSpellingOf bytes j → i ≡ j }
    ensures prefix { (a b : List ℕ) (i j : Image) (rest : List ℕ) → IsImage i → IsImage j
        → IsSpellingOf a i → IsSpellingOf b j → a ≡ b ++ rest → rest ≡ [] }
{}

/// The image of an empty journal of the database `LedgerDB` has 67 bytes: the head, and 0 of everything. In
/// version 1 it differs in the fifth byte alone.
pub fn the_first_image_is_empty()
    ensures second { (h : List ℕ → List ℕ) (reads : Reading) → image_bytes (image_of h reads (codes "LedgerDB") [])
        ≡ codes "LGIM" ++ 2 ∷ 0 ∷ 8 ∷ codes "LedgerDB" ++ replicate 52 0 }
    ensures first { (h : List ℕ → List ℕ) (reads : Reading) → image_bytes_1 (image_of h reads (codes "LedgerDB") [])
        ≡ codes "LGIM" ++ 1 ∷ 0 ∷ 8 ∷ codes "LedgerDB" ++ replicate 52 0 }
{}
