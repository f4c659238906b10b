//! A change of the state when its pages are turned on.
ghost use Rattle.std.specs.Prelude.{◌≡◌, ◌≤◌, ℕ, List, length, Some, None, false, IsTrue};
ghost use Rattle.std.specs.declared.option.Option.{Option};

use arrayvec::ArrayVec;

/// What makes a new state of a state, or leaves it.
pub trait Convert {
    /// The new state, or none where the old one stays.
    ghost means: { Self → List ℕ → Option (List ℕ) };

    /// Puts the new state in the place of what `out` held, and gives `true`; or gives `false`, and the
    /// old state stays, whatever is in `out`.
    fn convert(&self, old: &[u8], out: &mut ArrayVec<u8, 1024>) -> bool
        requires fits { length old.now ≤ 1024 }
        ensures changes { IsTrue result → means self.now old.now ≡ Some out.new.items }
        ensures stays { result ≡ false → means self.now old.now ≡ None };
}

/// Leaves each state.
pub struct Keep;

impl Convert for Keep {
    ghost means = { λ _ _. None };

    fn convert(&self, _old: &[u8], _out: &mut ArrayVec<u8, 1024>) -> bool {
        false
    }
}
