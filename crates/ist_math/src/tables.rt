//! Small values of the definitions, as facts that the check computes. They show that the
//! definitions mean what they say.
ghost use Rattle.std.specs.Prelude.{◌≡◌, [], ◌∷◌, map};
ghost use Rattle.ist_core.specs.Arithmetic.{degree, part_lens, limit, child_count};
ghost use Rattle.ist_core.specs.Shapes.{ideal_words, shape, depth};
ghost use Rattle.ist_math.specs.Guess.{guess_of};

/// Degrees and parts of 2 to 10 keys and of 16.
pub fn table_of_parts()
    ensures degrees { map degree (2 ∷ 3 ∷ 4 ∷ 5 ∷ 6 ∷ 7 ∷ 8 ∷ 9 ∷ 10 ∷ 16 ∷ [])
        ≡ 2 ∷ 2 ∷ 2 ∷ 2 ∷ 2 ∷ 2 ∷ 2 ∷ 3 ∷ 3 ∷ 4 ∷ [] }
    ensures parts_2_to_5 { map part_lens (2 ∷ 3 ∷ 4 ∷ 5 ∷ [])
        ≡ (1 ∷ 1 ∷ []) ∷ (2 ∷ 1 ∷ []) ∷ (2 ∷ 2 ∷ []) ∷ (3 ∷ 2 ∷ []) ∷ [] }
    ensures parts_6_to_8 { map part_lens (6 ∷ 7 ∷ 8 ∷ [])
        ≡ (3 ∷ 3 ∷ []) ∷ (4 ∷ 3 ∷ []) ∷ (4 ∷ 4 ∷ []) ∷ [] }
    ensures parts_9_10_16 { map part_lens (9 ∷ 10 ∷ 16 ∷ [])
        ≡ (3 ∷ 3 ∷ 3 ∷ []) ∷ (4 ∷ 3 ∷ 3 ∷ []) ∷ (4 ∷ 4 ∷ 4 ∷ 4 ∷ []) ∷ [] }
{}

/// The words of ideal trees of 0 to 10 keys and of 16.
pub fn table_of_words()
    ensures words { map ideal_words (0 ∷ 1 ∷ 2 ∷ 3 ∷ 4 ∷ 5 ∷ 6 ∷ 7 ∷ 8 ∷ 9 ∷ 10 ∷ 16 ∷ [])
        ≡ 0 ∷ 2 ∷ 11 ∷ 20 ∷ 29 ∷ 38 ∷ 47 ∷ 56 ∷ 65 ∷ 69 ∷ 78 ∷ 127 ∷ [] }
    ensures shape_of_5 { shape 5 ≡ 7 ∷ 7 ∷ 7 ∷ 7 ∷ [] }
    ensures shape_of_10 { shape 10 ≡ 9 ∷ 7 ∷ 7 ∷ 7 ∷ 7 ∷ 7 ∷ 7 ∷ 7 ∷ [] }
    ensures depths { map depth (0 ∷ 1 ∷ 2 ∷ 3 ∷ 10 ∷ 16 ∷ []) ≡ 0 ∷ 0 ∷ 1 ∷ 2 ∷ 3 ∷ 3 ∷ [] }
{}

/// After how many updates nodes of these sizes are due.
pub fn table_of_limits()
    ensures limits { map limit (2 ∷ 31 ∷ 32 ∷ 35 ∷ 36 ∷ 256 ∷ 1000 ∷ [])
        ≡ 8 ∷ 8 ∷ 8 ∷ 8 ∷ 9 ∷ 64 ∷ 250 ∷ [] }
{}

/// Guesses and children in a node with even keys, and in one whose last key is far away.
pub fn table_of_children()
    ensures even_guesses { map (guess_of 100 400 4) (99 ∷ 250 ∷ 400 ∷ []) ≡ 0 ∷ 2 ∷ 4 ∷ [] }
    ensures even_children { map (child_count (100 ∷ 200 ∷ 300 ∷ 400 ∷ [])) (99 ∷ 250 ∷ 400 ∷ [])
        ≡ 0 ∷ 2 ∷ 4 ∷ [] }
    ensures uneven_guesses { map (guess_of 1 1000000 4) (3 ∷ 999999 ∷ []) ≡ 1 ∷ 3 ∷ [] }
    ensures uneven_children { map (child_count (1 ∷ 2 ∷ 3 ∷ 1000000 ∷ [])) (3 ∷ 999999 ∷ [])
        ≡ 3 ∷ 3 ∷ [] }
{}
