// How read hands out words: to the front of a lent buffer, whose rest stays.
ghost use Rattle.std.specs.Prelude.{◌≡◌, length, Some};
ghost use Rattle.refusal.specs.Answers.{unless_refused, replied};
ghost use Rattle.store.specs.Table.{over, read_refused};

use refusal::StoreRefusal;

// Copies the words of a row that is held, and tells how many they are.
pub fn copy_words(words: &[u64], buffer: &mut [u64]) -> Result<usize, StoreRefusal>
    ensures answer { result ≡ replied (read_refused (Some words.now) (length buffer.old)) (length words.now) }
    ensures buffer { buffer.new ≡ unless_refused (read_refused (Some words.now) (length buffer.old)) buffer.old (over words.now buffer.old) }
{
    let count = words.len();
    if count > buffer.len() {
        return Err(StoreRefusal::WordCount);
    }
    buffer[..count].copy_from_slice(words);
    Ok(count)
}
