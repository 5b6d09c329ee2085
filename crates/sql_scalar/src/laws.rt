//! Laws of the definitions that contracts of this crate cite; the definitions stand in `sql_value`.

ghost use Rattle.std.specs.Prelude.{◌≡◌, ◌≢◌, ◌↔◌, ◌<◌, ◌≤◌, ◌+◌, ◌*◌, ◌^◌, ℕ, ℤ, pos, neg_ℤ, List, true, Some, Ok, IsTrue};
ghost use Rattle.std.specs.Ordering.{ordering_reverse, is_le, int_cmp, nat_cmp};
ghost use Rattle.std.specs.Cmp.Lexicographic.{slice_cmp};
ghost use Rattle.std.specs.declared.cmp.Ordering.TheVariants.{Less, Equal};
ghost use Rattle.sql_value.specs.declared.value.Value.{Value};
ghost use Rattle.sql_value.specs.declared.value.Value.TheVariants.{Null, Num, Text, Bytes, Date};
ghost use Rattle.sql_value.specs.declared.sql_type.SqlType.{SqlType};
ghost use Rattle.sql_value.specs.Number.{raised, rounded, rounded_size};
ghost use Rattle.sql_value.specs.Stored.{is_stored};
ghost use Rattle.sql_value.specs.Conversion.{conversion_of};
ghost use Rattle.sql_value.specs.Day.{day_of, date_of, date_text, last_day};
ghost use Rattle.sql_value.specs.Literal.{literal_of};
ghost use Rattle.sql_value.specs.Literals.{IsLiteral, HasWholePart};
ghost use Rattle.sql_value.specs.Printed.{printed, literal_text};
ghost use Rattle.sql_value.specs.Order.{value_cmp, IsSameValue, HasScale};

/// Any two values stand in the order of `compare`, one way or the other, the order goes on through a third,
/// and two are equal in it exactly where they are one value.
pub fn order_is_total()
    ensures turned { (a b : Value) → value_cmp a b ≡ ordering_reverse (value_cmp b a) }
    ensures transitive { (a b c : Value) → IsTrue (is_le (value_cmp a b)) → IsTrue (is_le (value_cmp b c))
        → IsTrue (is_le (value_cmp a c)) }
    ensures equal { (a b : Value) → HasScale a → HasScale b → (value_cmp a b ≡ Equal) ↔ IsSameValue a b }
{}

/// What the order says of values of one kind: NULL is the least; numbers go by their exact values, for which
/// each is brought to the units of both; texts and bytes go byte by byte, and days by their numbers.
pub fn order_of_kinds()
    ensures null { (b : Value) → b ≢ Null → value_cmp Null b ≡ Less }
    ensures numbers { (v w : ℤ) (s z : ℕ) → s < 2 ^ 8 → z < 2 ^ 8
        → value_cmp (Num s v) (Num z w) ≡ int_cmp (raised v z) (raised w s) }
    ensures texts { (a b : List ℕ) → value_cmp (Text a) (Text b) ≡ slice_cmp nat_cmp a b }
    ensures bytes { (a b : List ℕ) → value_cmp (Bytes a) (Bytes b) ≡ slice_cmp nat_cmp a b }
    ensures days { (d e : ℕ) → value_cmp (Date d) (Date e) ≡ nat_cmp d e }
{}

/// What rounding half away from zero means: of the numbers in the greater units the nearest is taken, and of
/// two that are as near the one with the greater size; on both sides of zero alike.
pub fn rounding_is_half_away_from_zero()
    ensures nearest { (n k : ℕ)
        → (2 * (rounded_size n k * 10 ^ k) ≤ 2 * n + 10 ^ k)
        × (2 * n < 2 * (rounded_size n k * 10 ^ k) + 10 ^ k) }
    ensures positive { (n k : ℕ) → rounded (pos n) k ≡ pos (rounded_size n k) }
    ensures negative { (v : ℤ) (k : ℕ) → rounded (neg_ℤ v) k ≡ neg_ℤ (rounded v k) }
{}

/// A column stores what it makes of a value, and makes nothing else of what it stores.
pub fn conversion_is_stored()
    ensures stored { (v w : Value) (ty : SqlType) → conversion_of v ty ≡ Ok w → is_stored w ty ≡ true }
    ensures kept { (v : Value) (ty : SqlType) → is_stored v ty ≡ true → conversion_of v ty ≡ Ok v }
{}

/// The text of each day's date is read as the day, and each text that is read is one of the days from
/// 0001-01-01 to 9999-12-31.
pub fn days_are_read_back()
    ensures read { (n : ℕ) → n ≤ last_day → day_of (date_text (date_of n)) ≡ Some n }
    ensures within { (text : List ℕ) (n : ℕ) → day_of text ≡ Some n → n ≤ last_day }
{}

/// What is read is a value that literals write. What is written of such a value as a literal is read as the
/// value, and so is what is shown of it, unless all its 38 digits stand behind the point. A day is shown as a
/// text, which is read as its date.
pub fn literals_are_read_back()
    ensures literal { (text : List ℕ) (v : Value) → literal_of text ≡ Some v → IsLiteral v }
    ensures written { (v : Value) → IsLiteral v → literal_of (literal_text v) ≡ Some v }
    ensures shown { (v : Value) → IsLiteral v → HasWholePart v → literal_of (printed v) ≡ Some v }
    ensures days { (d : ℕ) → d ≤ last_day
        → literal_of (printed (Date d)) ≡ Some (Text (date_text (date_of d))) }
{}
