ghost use Rattle.std.specs.Prelude.{◌≡◌, ◌-◌, ◌≤◌, length, take, drop};

/// The items from an index on.
pub fn rest_from<T>(items: &[T], from: usize) -> &[T]
    requires { from ≤ length items.now }
    ensures { result.now ≡ drop from items.now }
{
    &items[from..]
}

/// The items from one index to before another.
pub fn between<T>(items: &[T], from: usize, to: usize) -> &[T]
    requires order { from ≤ to }
    requires within { to ≤ length items.now }
    ensures { result.now ≡ take (to - from) (drop from items.now) }
{
    &items[from..to]
}
