//! Small images, honest and damaged, worked out by the definitions.

ghost use Rattle.std.specs.Prelude.{ℕ, ◌≡◌, ◌≢◌, ◌∷◌, ◌++◌, [], pos, codes, map, None};
ghost use Rattle.sql_value.specs.declared.sql_type.SqlType.TheVariants.{BigInt, Int};
ghost use Rattle.format_image.specs.Image.{image_of};
ghost use Rattle.format_image.specs.ImageBytes.{image_bytes, image_bytes_1, IsImage1};
ghost use Rattle.test_samples.specs.Samples.{read_in, typed};
ghost use Rattle.spec_verify.specs.declared.place.Invariant.TheVariants.{V1, V2, V3, V4, V5, V6, V7, V8};
ghost use Rattle.spec_verify.specs.declared.place.Place.TheVariants as at;
ghost use Rattle.spec_verify.specs.declared.place.Verdict.TheVariants.{Yes, No};
ghost use Rattle.spec_verify.specs.Bytes.{verdict_of};
ghost use Rattle.spec_verify.specs.Covered.{covered_of};
ghost use Rattle.spec_verify.specs.Verdict.{image_verdict};
ghost use Rattle.format_image.specs.Blocks.{no_hash, block_of};
ghost use Rattle.spec_verify.specs.Samples.{summed, statements, items, honest, digest_of};
ghost use Rattle.spec_verify.specs.Samples.{two_blocks, one_pending, ids_fall, older_block, with_blocks};
ghost use Rattle.spec_verify.specs.Samples.{with_rows_of, index_left, key_twice, ended_early, misnamed, id_again};
ghost use Rattle.spec_verify.specs.Samples.{of_another, of_nobody, misnumbered, root_more, rootless};
ghost use Rattle.spec_verify.specs.Samples.{with_values, typed_as, appended_and_ended, two_rows, index_t, start_t};

/// The image of a small journal holds, with the digest of its block; and so it does with the entries in two
/// blocks and the digest of the older one, with the last entry in no block yet, and where ids fall.
pub fn an_honest_image_holds()
    ensures image { image_of summed (read_in statements) (codes "d") items ≡ honest }
    ensures verdict { image_verdict summed honest (digest_of honest ∷ []) ≡ Yes }
    ensures two_blocks { image_verdict summed two_blocks (digest_of two_blocks ∷ []) ≡ Yes }
    ensures pending { image_verdict summed one_pending (digest_of one_pending ∷ []) ≡ Yes }
    ensures falling { image_verdict summed ids_fall (digest_of ids_fall ∷ []) ≡ Yes }
{}

/// That image has a spelling, and the verdict on its bytes with the digest of its block is Yes, in version 2
/// and in version 1.
pub fn an_honest_image_holds_in_bytes()
    ensures spelled { IsImage1 honest }
    ensures verdict { verdict_of summed (digest_of honest ∷ []) (image_bytes honest) ≡ Yes }
    ensures first { verdict_of summed (digest_of honest ∷ []) (image_bytes_1 honest) ≡ Yes }
{}

/// A value that was changed shows in the roots, and where these are made anew in the index that was left.
/// So do two base rows of one key, a version that ends before it starts, a definition that the rows don't
/// spell, an id that stands again, events of nobody, numbers with a gap, and blocks and digests that are
/// of something else; and of what fails, the first or the least is named.
pub fn damage_is_found()
    ensures value { image_verdict summed (with_rows_of honest index_left) (digest_of honest ∷ [])
        ≡ No V5 (at.Root 3 3) }
    ensures index { image_verdict summed index_left (digest_of index_left ∷ []) ≡ No V8 (at.Index 3 1) }
    ensures key { image_verdict summed key_twice (digest_of key_twice ∷ []) ≡ No V6 (at.Event 3 4 0) }
    ensures order { image_verdict summed ended_early (digest_of ended_early ∷ []) ≡ No V6 (at.Event 3 4 0) }
    ensures definition { image_verdict summed misnamed (digest_of misnamed ∷ []) ≡ No V7 (at.Table (pos 3)) }
    ensures id { image_verdict summed id_again (digest_of id_again ∷ []) ≡ No V4 (at.Entry 3) }
    ensures event { image_verdict summed of_nobody (digest_of of_nobody ∷ []) ≡ No V4 (at.Event 3 98 5) }
    ensures numbers { image_verdict summed misnumbered (digest_of misnumbered ∷ []) ≡ No V5 (at.Numbers 3) }
    ensures chain { image_verdict summed (with_blocks (block_of summed 1 honest.entries no_hash ∷ [])) []
        ≡ No V2 (at.Block 0) }
    ensures size { image_verdict summed (with_blocks (block_of summed 0 [] no_hash ∷ [])) []
        ≡ No V3 (at.Block 0) }
    ensures older { image_verdict summed older_block (digest_of older_block ∷ []) ≡ No V3 (at.Block 0) }
    ensures digest { image_verdict summed honest (digest_of honest ∷ digest_of index_left ∷ [])
        ≡ No V1 (at.Digest 1) }
{}

/// A digest of another database is of no block here. An entry with a root too many, or with none for a
/// table where its transaction has events, is at fault in that table.
pub fn roots_and_digests_of_others_are_found()
    ensures database { image_verdict summed honest (of_another (digest_of honest) ∷ [])
        ≡ No V1 (at.Digest 0) }
    ensures root_more { let image = root_more ((9, no_hash) ∷ []) in
        image_verdict summed image (digest_of image ∷ []) ≡ No V5 (at.Root 3 9) }
    ensures no_root { image_verdict summed rootless (digest_of rootless ∷ []) ≡ No V5 (at.Root 1 2) }
{}

/// Rows that aren't of their table are found, though all roots are made of them: a value of another type,
/// a value too few, NULL in a key, and a row of an append-only table that was ended. So are rows of an
/// index that are left out or aren't sorted; sorted they hold.
pub fn rows_that_break_a_rule_are_found()
    ensures another_type { let image = with_values (typed 1 ∷ typed_as BigInt 10 ∷ []) in
        image_verdict summed image (digest_of image ∷ []) ≡ No V6 (at.Event 3 3 0) }
    ensures too_few { let image = with_values (typed 1 ∷ []) in
        image_verdict summed image (digest_of image ∷ []) ≡ No V6 (at.Event 3 3 0) }
    ensures null_key { let image = with_values (None ∷ typed 10 ∷ []) in
        image_verdict summed image (digest_of image ∷ []) ≡ No V6 (at.Event 3 3 0) }
    ensures append_only { image_verdict summed appended_and_ended (digest_of appended_and_ended ∷ [])
        ≡ No V6 (at.Event 3 3 0) }
    ensures left_out { let image = two_rows (index_t 2 10 ∷ []) in
        image_verdict summed image (digest_of image ∷ []) ≡ No V8 (at.Index 3 1) }
    ensures unsorted { let image = two_rows (index_t 1 20 ∷ index_t 2 10 ∷ []) in
        image_verdict summed image (digest_of image ∷ []) ≡ No V8 (at.Index 3 1) }
    ensures sorted { let image = two_rows (index_t 2 10 ∷ index_t 1 20 ∷ []) in
        image_verdict summed image (digest_of image ∷ []) ≡ Yes }
{}

/// A digest of the last block covers all entries, each with the events of its transaction. One of an
/// older block covers those up to it, and says nothing of rows that came later.
pub fn what_came_later_is_not_covered()
    ensures all { map (λ e. e.id) (covered_of honest 0) ≡ 1 ∷ 2 ∷ 3 ∷ [] }
    ensures events { map (λ e. e.tables) (covered_of two_blocks 1)
        ≡ map (λ e. e.tables) (covered_of two_blocks 0) ++ ((3, start_t 1 10 ∷ []) ∷ []) ∷ [] }
    ensures older { map {B = ℕ × ℕ × ℕ} (λ e. (e.block, e.ordinal, e.id)) (covered_of two_blocks 0)
        ≡ (0, 0, 1) ∷ (0, 1, 2) ∷ [] }
    ensures later { covered_of (with_rows_of two_blocks index_left) 0 ≡ covered_of two_blocks 0 }
    ensures changed { covered_of (with_rows_of honest index_left) 0 ≢ covered_of honest 0 }
{}
