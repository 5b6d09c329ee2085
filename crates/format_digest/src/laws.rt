//! Laws of reading.

ghost use Rattle.std.specs.Prelude.{◌≡◌, ℕ, List, Ok, Result, MatchResult};
ghost use Rattle.sql_types.specs.declared.digest.HeldDigest.{HeldDigest};
ghost use Rattle.format_digest.specs.declared.digest_err.DigestErr.{DigestErr};
ghost use Rattle.format_digest.specs.declared.digest_err.DigestErr.TheVariants as errors;
ghost use Rattle.format_digest.specs.Reading.{IsRead};

/// Where digests may be read of some bytes, no others are, and no other error than want of memory.
pub fn bytes_have_one_reading()
    ensures { (bytes : List ℕ) (held : List HeldDigest) (r : Result (List HeldDigest) DigestErr)
        → IsRead bytes (Ok held) → IsRead bytes r
        → MatchResult r (λ list. list ≡ held) (λ e. e ≡ errors.Memory) }
{}
