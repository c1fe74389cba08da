//! Laws of the definitions.
ghost use Rattle.std.specs.Prelude.{◌≡◌, ℕ, Bool, List, map, pos};
ghost use Rattle.std.specs.Cmp.Lexicographic.{slice_cmp};
ghost use Rattle.std.specs.List.{Contains, filter};
ghost use Rattle.std.specs.Ordering.{int_cmp, nat_cmp};
ghost use Rattle.sb_rows.specs.Codes.{code_of, key_of};
ghost use Rattle.sb_rows.specs.Selection.{rows, selected};

/// Codes compare as their texts do.
pub fn codes_keep_order()
    ensures { (texts : List (List ℕ)) (a b : List ℕ) → Contains texts a → Contains texts b →
        int_cmp (pos (code_of texts a)) (pos (code_of texts b)) ≡ slice_cmp nat_cmp a b }
{}

/// Keys compare as their texts do, where one of the two is among the texts that were coded.
pub fn keys_keep_order()
    ensures first { (texts : List (List ℕ)) (a b : List ℕ) → Contains texts a →
        int_cmp (pos (key_of texts a)) (pos (key_of texts b)) ≡ slice_cmp nat_cmp a b }
    ensures second { (texts : List (List ℕ)) (a b : List ℕ) → Contains texts b →
        int_cmp (pos (key_of texts a)) (pos (key_of texts b)) ≡ slice_cmp nat_cmp a b }
{}

/// A test of each row selects the rows that pass it.
pub fn selected_rows_pass()
    ensures { (passes : ℕ → Bool) (count : ℕ) →
        selected (map passes (rows count)) ≡ filter passes (rows count) }
{}
