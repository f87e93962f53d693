ghost use Rattle.std.specs.Prelude.{◌≡◌, option_copied, slice_get};

/// The item at a place, if there is one.
pub fn item_at<T>(items: &[T], place: usize) -> Option<&T>
    ensures { option_copied result ≡ slice_get items.now place }
{
    items.get(place)
}
