//! The words in numbers, on five nodes in a row.
ghost use Rattle.std.specs.Prelude.{◌≡◌, ℕ, true, false, Option, Some, [], ◌∷◌};
ghost use Rattle.walk_rules.specs.Walks.{IsWalk, weight_of, IsLeast};
ghost use Rattle.walk_rules.specs.Potentials.{flat};
ghost use Rattle.walk_rules.specs.Starts.{StartsWithin};
ghost use Rattle.walk_rules.specs.Evidence.{violates};
ghost use Rattle.walk_rules.specs.RowOfFive.{hop_by, row_of_five};

/// What the words say of a row of five nodes, where each edge takes 66717 ms in both directions:
///
///     0 --- 1 --- 2 --- 3 --- 4
///
/// From node 2 to node 4 a least walk takes 133434 ms. With no bounds a search starts at three nodes,
/// or at a fourth, node 0, which is as far as the target; it can't do with two.
pub fn row_of_five_in_numbers()
    ensures walk { IsWalk row_of_five 2 (hop_by 2 false 3 ∷ hop_by 3 false 4 ∷ []) 4 }
    ensures weight { weight_of (hop_by 2 false 3 ∷ hop_by 3 false 4 ∷ []) ≡ 133434 }
    ensures least { IsLeast row_of_five 2 (hop_by 2 false 3 ∷ hop_by 3 false 4 ∷ []) 4 }
    ensures three { StartsWithin row_of_five flat 2 4 133434 3 }
    ensures four { StartsWithin row_of_five flat 2 4 133434 4 }
    ensures not_two { StartsWithin row_of_five flat 2 4 133434 2 → ⊥ }
    ensures violated { (label : ℕ → Option ℕ) → label 3 ≡ Some 66716 → label 4 ≡ Some 133434 →
        violates label 3 (hop_by 3 false 4) ≡ true }
    ensures kept { (label : ℕ → Option ℕ) → label 3 ≡ Some 66717 → label 4 ≡ Some 133434 →
        violates label 3 (hop_by 3 false 4) ≡ false }
{}
