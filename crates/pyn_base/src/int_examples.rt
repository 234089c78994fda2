// What the words for division mean, on small numbers.
ghost use Rattle.std.specs.Prelude.{◌≡◌, pos, negsuc, ◌-◌, ◌^◌, Some, None};
ghost use Rattle.pyn_base.specs.Int.{in_range, floor_quotient, floor_rest};

/// Worked examples of the range, of `//` and of `%` (Language Reference 6.7), proved by computation. The
/// function does nothing. `negsuc k` is `-(k + 1)`.
pub fn integer_examples()
    ensures greatest { in_range (pos (2 ^ 127 - 1)) ≡ Some (pos (2 ^ 127 - 1)) }
    ensures too_great { in_range (pos (2 ^ 127)) ≡ None }
    ensures least { in_range (negsuc (2 ^ 127 - 2)) ≡ Some (negsuc (2 ^ 127 - 2)) }
    ensures too_small { in_range (negsuc (2 ^ 127 - 1)) ≡ None }
    ensures seven_by_two { floor_quotient (pos 7) (pos 2) ≡ pos 3 }
    ensures seven_modulo_two { floor_rest (pos 7) (pos 2) ≡ pos 1 }
    ensures minus_seven_by_two { floor_quotient (negsuc 6) (pos 2) ≡ negsuc 3 }
    ensures minus_seven_modulo_two { floor_rest (negsuc 6) (pos 2) ≡ pos 1 }
    ensures seven_by_minus_two { floor_quotient (pos 7) (negsuc 1) ≡ negsuc 3 }
    ensures seven_modulo_minus_two { floor_rest (pos 7) (negsuc 1) ≡ negsuc 0 }
    ensures minus_seven_by_minus_two { floor_quotient (negsuc 6) (negsuc 1) ≡ pos 3 }
    ensures minus_seven_modulo_minus_two { floor_rest (negsuc 6) (negsuc 1) ≡ negsuc 0 }
    ensures minus_six_by_two { floor_quotient (negsuc 5) (pos 2) ≡ negsuc 2 }
    ensures minus_six_modulo_two { floor_rest (negsuc 5) (pos 2) ≡ pos 0 }
    ensures zero_by_minus_two { floor_quotient (pos 0) (negsuc 1) ≡ pos 0 }
{}
