// The rows of a store as records that tell what they are kept under.
ghost use Rattle.std.specs.Prelude.{◌≡◌, option_map, slice_get};

use crate::RowKey;
use ordered::Keyed;

// The key of the record at a position, if there is one.
pub fn key_at<R: Keyed<Key = RowKey>>(records: &[R], at: usize) -> Option<RowKey>
    ensures { result ≡ option_map R.key (slice_get records.now at) }
{
    records.get(at).map(R::key)
}
