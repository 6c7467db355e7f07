//! Laws of the passes of a shared tree.

ghost use Rattle.std.specs.Prelude.{◌≡◌, ◌++◌, ◌∷◌, [], ℕ, Bool, List, All, length};
ghost use Rattle.and_histories.specs.PlainTree.{Key, Event, Reply, Ending, in_place_of, children};
ghost use Rattle.and_tree.specs.Passes.{TreeId, PassSeen, Makes, Takes, fresh_from};

/// Which keys a team has in hand after its call. A claim that takes puts one at the end. The others
/// put some in the place of one.
pub fn hands_after_calls()
    ensures taken { (cell serial : ℕ) (key : Key) (p q : PassSeen) → Takes cell serial key p q
        → (q.hand ≡ p.hand ++ key ∷ []) × (q.tree ≡ p.tree) × (q.team ≡ p.team) }
    ensures forked { (key longer : Key) (clauses : List ℕ) (p q : PassSeen)
        → Makes (Event.fork p.team key longer clauses) Reply.forked p q
        → q.hand ≡ in_place_of key (children longer clauses) p.hand }
    ensures published { (cell : ℕ) (key : Key) (p q : PassSeen) → Makes (Event.publish p.team cell key) Reply.done p q
        → q.hand ≡ in_place_of key [] p.hand }
    ensures ended { (key : Key) (how : Ending) (last : Bool) (p q : PassSeen)
        → Makes (Event.end p.team key how) (Reply.last last) p q
        → q.hand ≡ in_place_of key [] p.hand }
{}

/// The passes of a tree that was opened are of this tree, one for each team.
pub fn passes_at_the_opening()
    ensures of { (tree : TreeId) (team count : ℕ) → All (λ p. p.tree ≡ tree) (fresh_from tree team count) }
    ensures count { (tree : TreeId) (team count : ℕ) → length (fresh_from tree team count) ≡ count }
{}
