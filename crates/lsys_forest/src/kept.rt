//! What a forest keeps at its nodes.
ghost use Rattle.std.specs.Prelude.{◌≡◌, Option, IsSome, None};
ghost use Rattle.lsys_forest.specs.Answers.{Lives, Releases};

/// An answer that a node keeps. It holds runs of a store, and gives them back when it is kept no more.
pub trait Kept: Drop {
    /// Where the runs are.
    type Store;

    // what names a run, and what a run has in it
    ghost Name: { Type 0 };

    ghost Run: { Type 0 };

    // the run of this name, while it is live
    ghost run_at: { Self.Store → Name → Option Run };

    // the answer holds the run of this name
    ghost Holds: { Self → Name → Type 0 };

    /// Gives back the runs that the answer holds, which was made with this store. It takes no memory.
    fn release(self, store: &mut Self::Store)
        requires made { (r : Name) → Holds self r → IsSome (run_at store.old r) }
        ensures gone { (r : Name) → Holds self r → run_at store.new r ≡ None }
        ensures others { (r : Name) → (Holds self r → ⊥) → run_at store.new r ≡ run_at store.old r };
}

/// Releases an answer, if there is one.
pub(crate) fn release_one<A: Kept>(answer: Option<A>, store: &mut A::Store)
    requires { Lives A.run_at A.Holds store.old answer }
    ensures { Releases A.run_at A.Holds answer store.old store.new }
{
    if let Some(kept) = answer {
        kept.release(store);
    }
}
