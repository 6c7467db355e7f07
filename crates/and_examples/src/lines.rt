//! What is written of answers and of names.

ghost use Rattle.std.specs.Prelude.{◌≡◌, [], ◌∷◌, pos, negsuc, codes, ◌++◌, get_or};
ghost use Rattle.and_model.specs.Terms.{variable, number, compound, none, more};
ghost use Rattle.and_model.specs.Arithmetic.{less};
ghost use Rattle.and_model.specs.Programs.{is, compare, builtin_names, own_name};
ghost use Rattle.and_model.specs.Lines.{line, shown_name};
ghost use Rattle.and_model.specs.declared.builtins.TheConstants.{DIFFERS, MINUS, PLUS, POINT};
ghost use Rattle.and_examples.specs.LineExamples.{asking, giving, cell_of, nil, f_of};
ghost use Rattle.and_model.specs.Output.{last_lines, limit_met};

/// A line has the values of the query's variables, with those that have none named `_0`, `_1` and so on
/// along the line; lists stand in brackets, and a term that begins with a minus is told from a number.
/// Variables whose names begin with `_` are not shown. Goals that wait follow behind `with`.
pub fn answers_on_one_line()
    ensures named_along { line (asking (codes "X" ∷ codes "A" ∷ codes "B" ∷ codes "Y" ∷ []))
        (giving (f_of (variable [] 1) (variable [] 2) ∷ variable [] 1 ∷ variable [] 2 ∷ variable [] 2 ∷ [])) []
        ≡ codes "X = f(_0,_1), A = _0, B = _1, Y = _1" }
    ensures open_list { line (asking (codes "X" ∷ codes "T" ∷ []))
        (giving (cell_of (number (pos 1)) (cell_of (number (pos 2)) (variable [] 1)) ∷ variable [] 1 ∷ [])) []
        ≡ codes "X = [1,2|_0], T = _0" }
    ensures lists_within { line (asking (codes "X" ∷ codes "Y" ∷ []))
        (giving (cell_of nil (cell_of (cell_of (compound (own_name 1) none) nil) nil)
        ∷ compound POINT (more nil (more nil (more nil none))) ∷ [])) []
        ≡ codes "X = [[],[a]], Y = '.'([],[],[])" }
    ensures other_tails { line (asking (codes "X" ∷ codes "Y" ∷ []))
        (giving (cell_of (number (pos 1)) (number (negsuc 2))
        ∷ cell_of (compound (own_name 1) none) (compound (own_name 2) (more nil none)) ∷ [])) []
        ≡ codes "X = [1|-3], Y = [a|'it\\'s'([])]" }
    ensures minuses { line (asking (codes "X" ∷ codes "Y" ∷ codes "Z" ∷ []))
        (giving (compound MINUS (more (number (pos 1)) none) ∷ number (negsuc 0)
        ∷ compound MINUS (more (number (pos 1)) (more (number (negsuc 0)) none)) ∷ [])) []
        ≡ codes "X = -(1), Y = -1, Z = -(1,-1)" }
    ensures hidden { line (asking (codes "_" ∷ codes "X" ∷ codes "_Y" ∷ codes "Z" ∷ [])) (giving []) []
        ≡ codes "X = _0, Z = _1" }
    ensures no_variable { line (asking []) (giving []) [] ≡ codes "true" }
    ensures none_shown { line (asking (codes "_X" ∷ [])) (giving []) [] ≡ codes "true" }
    ensures floundered { line (asking (codes "X" ∷ [])) (giving [])
        (is (variable [] 0) (compound PLUS (more (variable [] 0) (more (number (pos 0)) none))) ∷ [])
        ≡ codes "X = _0 with is(_0,+(_0,0))" }
    ensures floundered_hidden { line (asking (codes "_X" ∷ [])) (giving [])
        (compare less (variable [] 0) (number (pos 3)) ∷ []) ≡ codes "true with <(_0,3)" }
    ensures floundered_twice { line (asking (codes "X" ∷ codes "Y" ∷ [])) (giving [])
        (compare less (variable [] 1) (variable [] 2) ∷ compare less (variable [] 2) (variable [] 0) ∷ [])
        ≡ codes "X = _0, Y = _1 with <(_1,_2), <(_2,_0)" }
{}

/// A name stands in quotes, unless it is `[]`, or of letters, digits and `_` after a small letter, or of
/// symbols that are neither a single point nor begin a comment.
pub fn names_as_written()
    ensures plain { shown_name (codes "aB_9") ≡ codes "aB_9" }
    ensures quote { shown_name (codes "it's") ≡ codes "'it\\'s'" }
    ensures brackets { shown_name (codes "[]") ≡ codes "[]" }
    ensures capital { shown_name (codes "A b") ≡ codes "'A b'" }
    ensures plus { shown_name (codes "+") ≡ codes "+" }
    ensures point { shown_name (codes ".") ≡ codes "'.'" }
    ensures points { shown_name (codes "..") ≡ codes ".." }
    ensures comment { shown_name (codes "/*") ≡ codes "'/*'" }
    ensures comment_later { shown_name (codes "+/*") ≡ codes "+/*" }
    ensures empty { shown_name [] ≡ codes "''" }
    ensures comma { shown_name (codes ",") ≡ codes "','" }
    ensures escapes { shown_name (97 ∷ 92 ∷ 10 ∷ []) ≡ codes "'a\\\\\\n'" }
{}

/// Every table of names begins with the same ones, and a program's own stand behind them.
pub fn names_of_every_table()
    ensures own_names { get_or (builtin_names ++ codes "p" ∷ codes "q" ∷ []) (own_name 1) [] ≡ codes "q" }
    ensures name_differs { get_or builtin_names DIFFERS [] ≡ codes "=\\=" }
    ensures ends { last_lines limit_met ≡ 37 ∷ 32 ∷ 108 ∷ 105 ∷ 109 ∷ 105 ∷ 116 ∷ 32 ∷ 109 ∷ 101 ∷ 116 ∷ 10 ∷ [] }
{}
