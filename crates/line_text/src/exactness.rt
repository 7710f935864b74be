//! The laws of formats: each part keeps a format exact, and a file of an exact format reads as it was written.

ghost use Rattle.std.specs.Prelude.{◌≡◌, ◌≢◌, ℕ, suc, ◌^◌, ◌<◌, ◌≤◌, Bool, true, List, [], Ok, Err, length};
ghost use Rattle.std.specs.List.{AllByRecursion};
ghost use Rattle.line_text.specs.Formats.{Token, Text, Format, spelled, one, nothing, and_then, as_shape, each, each_after};
ghost use Rattle.line_text.specs.Texts.{number, fixed, plain, word, no_field, empty_field, word_line, count_line, number_line, counted, one_for_each, either, if_any, only};
ghost use Rattle.line_text.specs.Files.{line, file_text, file_answer, IsFirstBad};
ghost use Rattle.line_text.specs.Exact.{Level, IsToken, IsField, IsLine, IsExactText, IsExact};

/// Formats built of exact ones are exact: of one token or none, one after the other, in another shape, and for each of
/// a list of keys.
pub fn formats_are_exact<K, A, B>()
    ensures spelled { (level : Level) (print : A → Token) (meant : Token → A) (fits : A → Bool) (good : A)
        → fits good ≡ true
        → ((a : A) → fits a ≡ true → meant (print a) ≡ a)
        → ((a : A) → fits a ≡ true → IsToken level (print a))
        → IsExactText (IsToken level) (spelled print meant fits) }
    ensures one { (level : Level) (text : Text A)
        → IsExactText (IsToken level) text
        → IsExact (IsToken level) (one text) }
    ensures nothing { (level : Level) (x : A) → ((a : A) → a ≡ x) → IsExact (IsToken level) (nothing x) }
    ensures and_then { (level : Level) (first : Format A) (next : A → Format B)
        → IsExact (IsToken level) first
        → ((a : A) → first.fits a ≡ true → IsExact (IsToken level) (next a))
        → IsExact (IsToken level) (and_then first next) }
    ensures as_shape { (level : Level) (format : Format A) (to : A → B) (from : B → A) (has : B → Bool)
        → IsExact (IsToken level) format
        → ((a : A) → format.fits a ≡ true → (from (to a) ≡ a) × (has (to a) ≡ true))
        → ((b : B) → has b ≡ true → format.fits (from b) ≡ true → to (from b) ≡ b)
        → IsExact (IsToken level) (as_shape format to from has) }
    ensures each_after { (level : Level) (before : List A) (keys : List K) (format : List A → K → Format A)
        → AllByRecursion (λ k. (b : List A) → IsExact (IsToken level) (format b k)) keys
        → IsExact (IsToken level) (each_after before keys format) }
    ensures each { (level : Level) (keys : List K) (format : K → Format A)
        → AllByRecursion (λ k. IsExact (IsToken level) (format k)) keys
        → IsExact (IsToken level) (each keys format) }
{}

/// Choices are exact: one of two texts that have no token in common, the values that pass a test, and a field that may
/// be empty.
pub fn choices_are_exact<A, B>()
    ensures either { (level : Level) (first : Text A) (second : Text B)
        → IsExactText (IsToken level) first
        → IsExactText (IsToken level) second
        → ((a : A) (b : B) → first.fits a ≡ true → second.fits b ≡ true → first.print a ≢ second.print b)
        → IsExactText (IsToken level) (either first second) }
    ensures only { (level : Level) (test : A → Bool) (text : Text A) (good : A)
        → IsExactText (IsToken level) text
        → text.fits good ≡ true
        → test good ≡ true
        → IsExactText (IsToken level) (only test text) }
    ensures if_any { (text : Text A)
        → IsExactText IsField text
        → ((a : A) → text.fits a ≡ true → text.print a ≢ [])
        → IsExactText IsField (if_any text) }
{}

/// Fields are exact: numbers of at most 64 digits, texts and words without comma and line feed, and the one value of a
/// field that is empty or missing.
pub fn fields_are_exact<A>()
    ensures number { (least most : ℕ) → least ≤ most → most < 10 ^ 64 → IsExactText IsField (number least most) }
    ensures fixed { (places least most : ℕ)
        → least ≤ most
        → most < 10 ^ 64
        → IsExactText IsField (fixed places least most) }
    ensures plain { (test : Token → Bool) (good : Token)
        → test good ≡ true
        → ((t : Token) → test t ≡ true → IsField t)
        → IsExactText IsField (plain test) }
    ensures word { (w : Token) → IsField w → IsExact IsField (word w) }
    ensures no_field { (level : Level) (x : A) (has : A → Bool)
        → has x ≡ true
        → ((a : A) → has a ≡ true → x ≡ a)
        → IsExact (IsToken level) (no_field x has) }
    ensures empty_field { (x : A) (has : A → Bool)
        → has x ≡ true
        → ((a : A) → has a ≡ true → x ≡ a)
        → IsExact IsField (empty_field x has) }
{}

/// Lines are exact: of exact fields, at least one, of a word, of a number, of a word and a number, and of a word and a
/// count with that number of lines after it.
pub fn lines_are_exact<K, A>()
    ensures line { (fields : Format A)
        → IsExact IsField fields
        → ((a : A) → 0 < length (fields.print a))
        → IsExactText IsLine (line fields) }
    ensures word_line { (w : Token) → IsField w → IsExact IsLine (word_line w) }
    ensures count_line { (w : Token) (least most : ℕ)
        → IsField w
        → least ≤ most
        → most < 10 ^ 64
        → IsExact IsLine (count_line w least most) }
    ensures number_line { (most : ℕ) → most < 10 ^ 64 → IsExact IsLine (number_line most) }
    ensures counted { (w : Token) (least most : ℕ) (format : ℕ → Format A)
        → IsField w
        → least ≤ most
        → most < 10 ^ 64
        → ((k : ℕ) → IsExact IsLine (format k))
        → IsExact IsLine (counted w least most format) }
    ensures one_for_each { (w : Token) (keys : List K) (format : K → Format A)
        → IsField w
        → length keys < 10 ^ 64
        → AllByRecursion (λ k. IsExact IsLine (format k)) keys
        → IsExact IsLine (one_for_each w keys format) }
{}

/// A file of an exact format reads as exactly the value of which it was written, and any other file is refused at its
/// first bad line.
pub fn files_are_exact<A>()
    ensures again { (format : Format A)
        → IsExact IsLine format
        → (a : A) → format.fits a ≡ true
        → file_answer format (file_text format a) ≡ Ok a }
    ensures its_text { (format : Format A)
        → IsExact IsLine format
        → (bytes : List ℕ) (a : A) → file_answer format bytes ≡ Ok a
        → (format.fits a ≡ true) × (bytes ≡ file_text format a) }
    ensures first_bad { (format : Format A)
        → IsExact IsLine format
        → (bytes : List ℕ) (n : ℕ) → file_answer format bytes ≡ Err n
        → (before : ℕ) × (n ≡ suc before) × IsFirstBad format bytes before }
{}
