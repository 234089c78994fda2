// What the cuts give, on lists of numbers whose mark is 0, and where 0 is no mark behind another one.
ghost use Rattle.std.specs.Prelude.{◌≡◌, ℕ, Bool, true, false, ◌&&◌, ◌==◌, not, List, [], ◌∷◌, Option, Some, None};
ghost use Rattle.py_cut.specs.Cut.{front, back, pieces, last_cut};

/// The cuts of short lists, worked out.
pub fn worked_examples()
    ensures front { front (λ (s n : ℕ). n) (λ s n. n == 0) 1 (5 ∷ 6 ∷ 0 ∷ 7 ∷ 0 ∷ 8 ∷ []) ≡ 5 ∷ 6 ∷ [] }
    ensures back { back (λ (s n : ℕ). n) (λ s n. n == 0) 1 (5 ∷ 6 ∷ 0 ∷ 7 ∷ 0 ∷ 8 ∷ []) ≡ 0 ∷ 7 ∷ 0 ∷ 8 ∷ [] }
    ensures no_mark { back (λ (s n : ℕ). n) (λ s n. n == 0) 1 (5 ∷ 6 ∷ []) ≡ [] }
    ensures pieces { pieces (λ (s n : ℕ). n) (λ s n. n == 0) 1 (5 ∷ 0 ∷ 7 ∷ 0 ∷ []) ≡ (0, 7 ∷ []) ∷ (0, []) ∷ [] }
    ensures last { last_cut (λ (s n : ℕ). n) (λ s n. n == 0) 1 (5 ∷ 0 ∷ 7 ∷ 0 ∷ 8 ∷ []) ≡ Some (5 ∷ 0 ∷ 7 ∷ [], 0, 8 ∷ []) }
    ensures no_last { last_cut (λ (s n : ℕ). n) (λ s n. n == 0) 1 (5 ∷ 7 ∷ []) ≡ None }
    ensures places { front (λ (s n : ℕ). n) (λ s n. (n == 0) && (s == 0)) 1 (5 ∷ 0 ∷ 6 ∷ 0 ∷ 0 ∷ 8 ∷ []) ≡ 5 ∷ 0 ∷ 6 ∷ 0 ∷ [] }
{}
