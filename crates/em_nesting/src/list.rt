ghost use Rattle.std.specs.Prelude.{ℕ, ◌≤◌, ◌<◌, MatchBool};
ghost use Rattle.em_tree.specs.Nesting.{greatest};
ghost use Rattle.em_nesting.specs.Depths.{Measures};

/// Whether each of them nests no deeper.
pub fn each_within<T, F: Fn(&T) -> bool>(list: &[T], most: usize, within: F) -> bool
    requires { F.IsAlwaysCallable within }
    ensures { (f : T → ℕ) → Measures (F.post within) f most → MatchBool result (greatest f list.now ≤ most) (most < greatest f list.now) }
{
    for part in list {
        if !within(part) {
            return false;
        }
    }
    true
}
